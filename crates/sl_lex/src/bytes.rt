//! What the bytes of a text are, and runs of them.

ghost use Rattle.std.specs.Prelude.{◌≡◌};
ghost use Rattle.std.specs.List.{prefix_len};
ghost use Rattle.sl_lex.specs.Bytes.{is_blank, is_digit, is_hex_digit, is_binary_digit, is_letter, begins_word, is_word_byte, is_comment_byte, is_text_byte, is_char};

pub fn is_blank(byte: u8) -> bool
    ensures { result ≡ is_blank byte }
{
    matches!(byte, b' ' | b'\t' | b'\r' | b'\n')
}

pub fn is_digit(byte: u8) -> bool
    ensures { result ≡ is_digit byte }
{
    matches!(byte, b'0'..=b'9')
}

fn is_hex_digit(byte: u8) -> bool
    ensures { result ≡ is_hex_digit byte }
{
    matches!(byte, b'0'..=b'9' | b'A'..=b'F' | b'a'..=b'f')
}

fn is_binary_digit(byte: u8) -> bool
    ensures { result ≡ is_binary_digit byte }
{
    matches!(byte, b'0'..=b'1')
}

pub fn is_letter(byte: u8) -> bool
    ensures { result ≡ is_letter byte }
{
    matches!(byte, b'A'..=b'Z' | b'a'..=b'z' | b'_')
}

pub fn begins_word(byte: u8) -> bool
    ensures { result ≡ begins_word byte }
{
    is_letter(byte) || byte == b'.'
}

pub fn is_word_byte(byte: u8) -> bool
    ensures { result ≡ is_word_byte byte }
{
    begins_word(byte) || is_digit(byte)
}

fn is_comment_byte(byte: u8) -> bool
    ensures { result ≡ is_comment_byte byte }
{
    byte != b'\n'
}

fn is_text_byte(byte: u8) -> bool
    ensures { result ≡ is_text_byte byte }
{
    matches!(byte, b' '..=b'~') && byte != b'"'
}

pub fn is_char(byte: u8) -> bool
    ensures { result ≡ is_char byte }
{
    matches!(byte, b'!'..=b'~') && !matches!(byte, b'"' | b'^') && !begins_word(byte)
}

/// How many blanks stand at the front.
pub fn count_blanks(text: &[u8]) -> usize
    ensures { result ≡ prefix_len is_blank text.now }
{
    text.iter().take_while(|byte| is_blank(**byte)).count()
}

/// How many letters, digits, `_` and dots stand at the front.
pub fn count_word_bytes(text: &[u8]) -> usize
    ensures { result ≡ prefix_len is_word_byte text.now }
{
    text.iter().take_while(|byte| is_word_byte(**byte)).count()
}

/// How many bytes stand before the line's end.
pub fn count_comment_bytes(text: &[u8]) -> usize
    ensures { result ≡ prefix_len is_comment_byte text.now }
{
    text.iter()
        .take_while(|byte| is_comment_byte(**byte))
        .count()
}

/// How many bytes stand at the front that may stand between quotes.
pub fn count_text_bytes(text: &[u8]) -> usize
    ensures { result ≡ prefix_len is_text_byte text.now }
{
    text.iter().take_while(|byte| is_text_byte(**byte)).count()
}

pub fn count_digits(text: &[u8]) -> usize
    ensures { result ≡ prefix_len is_digit text.now }
{
    text.iter().take_while(|byte| is_digit(**byte)).count()
}

pub fn count_hex_digits(text: &[u8]) -> usize
    ensures { result ≡ prefix_len is_hex_digit text.now }
{
    text.iter().take_while(|byte| is_hex_digit(**byte)).count()
}

pub fn count_binary_digits(text: &[u8]) -> usize
    ensures { result ≡ prefix_len is_binary_digit text.now }
{
    text.iter()
        .take_while(|byte| is_binary_digit(**byte))
        .count()
}
