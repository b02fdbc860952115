// Decimal digits.
ghost use Rattle.std.specs.Prelude.{◌≡◌, ◌≤◌, ◌<◌, ◌^◌, ◌↔◌, length, IfOk, IfSome, IsSome, IsTrue};
ghost use Rattle.std.specs.List.{list_all};
ghost use Rattle.std.specs.Char.{is_ascii_digit};
ghost use Rattle.std.specs.Str.Parse.{AllDigits, digits_value};
ghost use Rattle.parm_value.specs.Values.{number_in, spelled_number, within};

use crate::ValueFault;

/// The most digits of a number.
pub const MOST_DIGITS: usize = 20;

fn value_of(item: &[u8]) -> u128
    requires digits { AllDigits 10 item.now }
    requires short { length item.now ≤ 20 }
    ensures value { result ≡ digits_value 10 item.now }
    ensures small { result < 10 ^ 20 }
{
    let mut number: u128 = 0;
    for byte in item {
        number = number * 10 + (*byte - b'0') as u128;
    }
    number
}

fn all_digits(item: &[u8]) -> bool
    ensures { result ≡ list_all is_ascii_digit item.now }
{
    item.iter().all(|byte| byte.is_ascii_digit())
}

/// The number that an item spells, if it spells one.
#[tactic(auto, using(crate::proofs::Digits::digits_tested))]
pub fn number_spelled(item: &[u8]) -> Option<u128>
    ensures value { result ≡ spelled_number item.now }
    ensures small { IfSome result (λ number. number < 10 ^ 20) }
{
    if item.is_empty() || item.len() > MOST_DIGITS || !all_digits(item) {
        return None;
    }
    Some(value_of(item))
}

/// A number, where it is from `least` to `greatest`.
pub fn in_range(number: u128, least: u64, greatest: u64) -> Result<u64, ValueFault>
    ensures value { result ≡ within least greatest number }
    ensures most { IfOk result (λ inside. inside ≤ greatest) }
{
    if number < least as u128 || (greatest as u128) < number {
        return Err(ValueFault::OutOfRange);
    }
    Ok(number as u64)
}

/// Whether an item is spelled as a number: 1 to 20 decimal digits, whatever their value.
pub fn is_number(item: &[u8]) -> bool
    ensures { IsTrue result ↔ IsSome (spelled_number item.now) }
{
    number_spelled(item).is_some()
}

/// The number that 1 to 20 decimal digits spell, where it is from `least` to `greatest`. Leading zeros count as digits.
pub fn number_of(item: &[u8], least: u64, greatest: u64) -> Result<u64, ValueFault>
    ensures { result ≡ number_in least greatest item.now }
{
    let number = number_spelled(item).ok_or(ValueFault::BadNumber)?;
    in_range(number, least, greatest)
}
