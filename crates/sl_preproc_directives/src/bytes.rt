//! What the bytes of a line are.

ghost use Rattle.std.specs.Prelude.{◌≡◌};
ghost use Rattle.std.specs.List.{prefix_len};
ghost use Rattle.sl_preproc_directives.specs.Bytes.{is_blank, is_letter, is_name_byte, is_inside, is_value_byte, is_on_line};

fn is_blank(byte: u8) -> bool
    ensures { result ≡ is_blank byte }
{
    matches!(byte, b' ' | b'\t' | b'\r')
}

pub fn is_letter(byte: u8) -> bool
    ensures { result ≡ is_letter byte }
{
    matches!(byte, b'A'..=b'Z' | b'a'..=b'z' | b'_')
}

fn is_name_byte(byte: u8) -> bool
    ensures { result ≡ is_name_byte byte }
{
    is_letter(byte) || byte.is_ascii_digit()
}

/// Whether the byte may stand inside a quoted text.
fn is_inside(byte: u8) -> bool
    ensures { result ≡ is_inside byte }
{
    byte != b'"'
}

/// Whether the byte may stand in a value without quotes.
fn is_value_byte(byte: u8) -> bool
    ensures { result ≡ is_value_byte byte }
{
    !(is_blank(byte) || byte == b'"' || byte == b'#')
}

fn is_on_line(byte: u8) -> bool
    ensures { result ≡ is_on_line byte }
{
    byte != b'\n'
}

pub fn count_blanks(text: &[u8]) -> usize
    ensures { result ≡ prefix_len is_blank text.now }
{
    text.iter().take_while(|byte| is_blank(**byte)).count()
}

pub fn count_name_bytes(text: &[u8]) -> usize
    ensures { result ≡ prefix_len is_name_byte text.now }
{
    text.iter().take_while(|byte| is_name_byte(**byte)).count()
}

pub fn count_insides(text: &[u8]) -> usize
    ensures { result ≡ prefix_len is_inside text.now }
{
    text.iter().take_while(|byte| is_inside(**byte)).count()
}

pub fn count_value_bytes(text: &[u8]) -> usize
    ensures { result ≡ prefix_len is_value_byte text.now }
{
    text.iter().take_while(|byte| is_value_byte(**byte)).count()
}

pub fn count_on_lines(text: &[u8]) -> usize
    ensures { result ≡ prefix_len is_on_line text.now }
{
    text.iter().take_while(|byte| is_on_line(**byte)).count()
}
