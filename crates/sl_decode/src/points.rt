//! Points of nodes.

ghost use Rattle.std.specs.Prelude.{◌≡◌, ◌≤◌, take, drop, length};
ghost use Rattle.sl_decode_meaning.specs.Decoding.{point_at};
ghost use Rattle.sl_spec.specs.FieldValues.{token_integer};

use sl_cube::Point;
use sl_word::Endian;

/// The number that 16 bytes stand for, the first the most significant.
fn whole_number(bytes: &[u8]) -> u128
    requires { length bytes.now ≡ 16 }
    ensures { result ≡ token_integer Endian.Big bytes.now }
{
    let mut whole = [0; 16];
    whole.copy_from_slice(bytes);
    u128::from_be_bytes(whole)
}

/// The same of so many bytes at most.
fn number_of(bytes: &[u8]) -> u128
    requires { length bytes.now ≤ 16 }
    ensures { result ≡ token_integer Endian.Big bytes.now }
{
    if bytes.len() == 16 {
        return whole_number(bytes);
    }
    let mut number = 0;
    'bytes: for index in 0..bytes.len() {
        number = number * 256 + u128::from(bytes[index]);
    }
    number
}

/// The first of these, up to so many, and those behind them.
pub fn divided<T>(items: &[T], count: usize) -> (&[T], &[T])
    ensures front { result.0.now ≡ take count items.now }
    ensures back { result.1.now ≡ drop count items.now }
{
    if count < items.len() {
        items.split_at(count)
    } else {
        (items, &[])
    }
}

/// The point of a node: the 16 bytes from its place on, and its context.
pub fn point_at(bytes: &[u8], at: u32, context: u64) -> Point
    ensures { result ≡ point_at bytes.now at context }
{
    let (_, rest) = divided(bytes, at as usize);
    let (window, _) = divided(rest, 16);
    Point {
        bytes: number_of(window),
        context,
    }
}
