//! Serial types of columns.
ghost use Rattle.std.specs.Prelude.{◌≡◌, ◌*◌, ◌^◌, ◌<◌, ◌≤◌, length};
ghost use Rattle.sx_record.specs.Content.{content_of};
ghost use Rattle.sx_record.specs.SerialTypes.{body_len, is_unused, twos_complement, integer_of, content_in};

use crate::value::Value;
use sx_bytes::{be16, be24, be32, be48, be64};

/// The length in bytes of the body of a column of this serial type, below 2^63 ("Record Format").
///
/// The unused types 10 and 11 have bodies of no bytes.
#[tactic(auto, unfolding(crate::specs::SerialTypes::body_len))]
pub fn body_len(serial_type: u64) -> u64
    ensures value { result ≡ body_len serial_type }
    ensures below { result < 2 ^ 63 }
{
    match serial_type {
        0..=4 => serial_type,
        5 => 6,
        6 | 7 => 8,
        8..=11 => 0,
        _ => (serial_type - 12) / 2,
    }
}

/// Whether no record has this serial type, 10 or 11 ("Record Format").
#[tactic(auto, unfolding(crate::specs::SerialTypes::is_unused))]
pub fn is_unused(serial_type: u64) -> bool
    ensures { result ≡ is_unused serial_type }
{
    serial_type == 10 || serial_type == 11
}

/// The value of a column of this serial type whose body has these bytes ("Record Format").
#[tactic(auto, unfolding(crate::specs::SerialTypes::body_len, crate::specs::SerialTypes::content_in))]
pub fn value_in(serial_type: u64, body: &[u8]) -> Value<'_>
    requires { length body.now ≡ body_len serial_type }
    ensures { content_of result ≡ content_in serial_type body.now }
{
    match serial_type {
        0 => Value::Null,
        1..=6 => Value::Int(integer_of(serial_type, body)),
        7 => Value::Real(body),
        8 => Value::Int(0),
        9 => Value::Int(1),
        _ if serial_type % 2 == 0 => Value::Blob(body),
        _ => Value::Text(body),
    }
}

/// The integer in a body of 1, 2, 3, 4, 6 or 8 bytes, by the types 1 to 6.
#[tactic(auto, unfolding(crate::specs::SerialTypes::body_len, crate::specs::SerialTypes::integer_of))]
fn integer_of(serial_type: u64, body: &[u8]) -> i64
    requires integer { serial_type ≤ 6 }
    requires some { 1 ≤ serial_type }
    requires whole { length body.now ≡ body_len serial_type }
    ensures { result ≡ integer_of serial_type body.now }
{
    match serial_type {
        1 => twos_complement(u64::from(body[0]), 1 << 7),
        2 => twos_complement(u64::from(be16(body, 0)), 1 << 15),
        3 => twos_complement(u64::from(be24(body, 0)), 1 << 23),
        4 => twos_complement(u64::from(be32(body, 0)), 1 << 31),
        5 => twos_complement(be48(body, 0), 1 << 47),
        _ => be64(body, 0).cast_signed(),
    }
}

/// The signed number that this one stands for in two's complement, where `half` is what the sign bit is worth.
fn twos_complement(number: u64, half: u64) -> i64
    requires small { half ≤ 2 ^ 47 }
    requires fits { number < 2 * half }
    ensures { result ≡ twos_complement half number }
{
    if number < half {
        number as i64
    } else {
        number as i64 - 2 * half as i64
    }
}
