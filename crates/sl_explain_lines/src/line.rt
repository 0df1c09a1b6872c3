//! The line of a byte.

ghost use Rattle.std.specs.Prelude.{◌≡◌, ◌+◌, ◌<◌, ◌≤◌, ◌^◌, length};
ghost use Rattle.sl_explain_lines.specs.Excerpts.{after, before, is_in_line, line_of};

fn is_in_line(byte: u8) -> bool
    ensures { result ≡ is_in_line byte }
{
    byte != b'\n'
}

/// How many bytes of its line stand before this byte.
fn count_before(text: &[u8], byte: usize) -> usize
    requires { byte ≤ length text.now }
    ensures before { result ≡ before text.now byte }
    ensures within { result ≤ byte }
{
    let (front, _) = text.split_at(byte);
    front
        .iter()
        .rev()
        .take_while(|byte| is_in_line(**byte))
        .count()
}

/// How many bytes stand from this byte on, up to its line's end.
fn count_after(text: &[u8], byte: usize) -> usize
    requires { byte ≤ length text.now }
    ensures after { result ≡ after text.now byte }
    ensures within { byte + result ≤ length text.now }
{
    let (_, rest) = text.split_at(byte);
    rest.iter().take_while(|byte| is_in_line(**byte)).count()
}

/// The line of a byte: its bytes, how many of them stand before this one, and how many from it on.
#[derive(Clone, Copy)]
pub struct Line<'a> {
    pub bytes: &'a [u8],
    pub before: usize,
    pub after: usize,
}

/// The line of this byte.
pub fn line_at(text: &[u8], byte: usize) -> Line<'_>
    requires { byte ≤ length text.now }
    ensures bytes { result.bytes.now ≡ line_of text.now byte }
    ensures before { result.before ≡ before text.now byte }
    ensures after { result.after ≡ after text.now byte }
    ensures within { result.before ≤ length result.bytes.now }
    ensures fits { result.before < 2 ^ 63 }
{
    let before = count_before(text, byte);
    let after = count_after(text, byte);
    let (_, from) = text.split_at(byte - before);
    let (bytes, _) = from.split_at(before + after);
    Line {
        bytes,
        before,
        after,
    }
}
