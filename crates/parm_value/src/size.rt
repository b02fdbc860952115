// Sizes in bytes.
ghost use Rattle.std.specs.Prelude.{◌≡◌, ◌≤◌, ◌^◌, IfSome};
ghost use Rattle.parm_value.specs.Values.{size_in, size_parts, size_unit};

use crate::ValueFault;
use crate::number::{in_range, number_spelled};

/// The greatest size, 2^63 - 1.
pub const GREATEST_SIZE: u64 = 9_223_372_036_854_775_807;

/// How many bytes a suffix stands for.
fn size_unit(suffix: u8) -> Option<u64>
    ensures value { result ≡ size_unit suffix }
    ensures small { IfSome result (λ unit. unit ≤ 2 ^ 40) }
{
    match suffix {
        b'k' | b'K' => Some(1 << 10),
        b'm' | b'M' => Some(1 << 20),
        b'g' | b'G' => Some(1 << 30),
        b't' | b'T' => Some(1 << 40),
        _ => None,
    }
}

/// The digits of a size, and how many bytes its suffix stands for.
fn size_split(item: &[u8]) -> (&[u8], u64)
    ensures value { (result.0.now, result.1) ≡ size_parts item.now }
    ensures small { result.1 ≤ 2 ^ 40 }
{
    let Some((suffix, digits)) = item.split_last() else {
        return (item, 1);
    };
    match size_unit(*suffix) {
        Some(unit) => (digits, unit),
        None => (item, 1),
    }
}

/// A size in bytes, from 1 to 2^63 - 1: a number, and behind it one of `k`, `m`, `g`, `t` in either case, or nothing.
pub fn size_of(item: &[u8]) -> Result<u64, ValueFault>
    ensures { result ≡ size_in item.now }
{
    let (digits, unit) = size_split(item);
    let number = number_spelled(digits).ok_or(ValueFault::BadNumber)?;
    in_range(number * unit as u128, 1, GREATEST_SIZE)
}
