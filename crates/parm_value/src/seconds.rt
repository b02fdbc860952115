// Seconds.
ghost use Rattle.std.specs.Prelude.{◌≡◌, ◌≤◌, IfSome};
ghost use Rattle.parm_value.specs.Values.{seconds_in, second_parts, second_unit};

use crate::ValueFault;
use crate::number::{in_range, number_spelled};

/// The most seconds, a hundred days.
pub const MOST_SECONDS: u64 = 8_640_000;

/// How many seconds a suffix stands for.
fn second_unit(suffix: u8) -> Option<u64>
    ensures value { result ≡ second_unit suffix }
    ensures small { IfSome result (λ unit. unit ≤ 3600) }
{
    match suffix {
        b's' => Some(1),
        b'm' => Some(60),
        b'h' => Some(3600),
        _ => None,
    }
}

/// The digits of an item of seconds, and how many seconds its suffix stands for.
fn second_split(item: &[u8]) -> (&[u8], u64)
    ensures value { (result.0.now, result.1) ≡ second_parts item.now }
    ensures small { result.1 ≤ 3600 }
{
    let Some((suffix, digits)) = item.split_last() else {
        return (item, 1);
    };
    match second_unit(*suffix) {
        Some(unit) => (digits, unit),
        None => (item, 1),
    }
}

/// Seconds, from 1 to 8,640,000: a number, and behind it one of `s`, `m`, `h` in lower case, or nothing.
pub fn seconds_of(item: &[u8]) -> Result<u32, ValueFault>
    ensures { result ≡ seconds_in item.now }
{
    let (digits, unit) = second_split(item);
    let number = number_spelled(digits).ok_or(ValueFault::BadNumber)?;
    let seconds = in_range(number * unit as u128, 1, MOST_SECONDS)?;
    Ok(seconds as u32)
}
