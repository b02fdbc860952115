// Values of several numbers of different kinds: sizes with percentages, and counts.
ghost use Rattle.std.specs.Prelude.{◌≡◌, All};
ghost use Rattle.parm_lex.specs.Spans.{IsSpanOf};
ghost use Rattle.parm_forms.specs.Forms.{Gives, count as count_of, size_pairs as pairs_of, sizes as sizes_of, texts_at};

use crate::fault::{ParmKind, ValueRefused};
use crate::form::Form;
use crate::numbers::{number, one_number, size};
use parm_lex::Span;
use std::alloc::Global;

/// The most that the first number of a count may be.
const MOST_FIRST: u64 = 100_000;

/// The most definitions that a count makes.
const MOST_COUNTED: u64 = 64;

/// The first number, and how many.
pub fn count(alloc: Global, bytes: &[u8], items: &[Span]) -> Result<Vec<u64>, ValueRefused>
    requires { All (IsSpanOf bytes.now) items.now }
    ensures { Gives (λ numbers. numbers.items) result (count_of (texts_at bytes.now items.now)) }
{
    match items {
        [first, many] => {
            let first = number(first.bytes_in(bytes), 0, MOST_FIRST)?;
            let many = number(many.bytes_in(bytes), 1, MOST_COUNTED)?;
            Ok(Vec::from_slice(alloc, &[first, many])?)
        }
        _ => Err(ValueRefused::Fault(ParmKind::ValueCount)),
    }
}

/// Sizes and percentages in turn.
fn size_pairs(alloc: Global, bytes: &[u8], items: &[Span]) -> Result<Vec<u64>, ValueRefused>
    requires { All (IsSpanOf bytes.now) items.now }
    ensures { Gives (λ numbers. numbers.items) result (pairs_of (texts_at bytes.now items.now)) }
{
    let mut numbers = Vec::new(alloc);
    let mut rest = items;
    loop {
        match rest {
            [] => return Ok(numbers),
            [_] => return Err(ValueRefused::Fault(ParmKind::ValueCount)),
            [item, percent, more @ ..] => {
                numbers.push(size(item.bytes_in(bytes))?)?;
                numbers.push(number(percent.bytes_in(bytes), 0, 100)?)?;
                rest = more;
            }
        }
    }
}

/// One size, or sizes and percentages in turn.
pub fn sizes(alloc: Global, bytes: &[u8], items: &[Span]) -> Result<Vec<u64>, ValueRefused>
    requires { All (IsSpanOf bytes.now) items.now }
    ensures { Gives (λ numbers. numbers.items) result (sizes_of (texts_at bytes.now items.now)) }
{
    match items {
        [] => Err(ValueRefused::Fault(ParmKind::ValueCount)),
        [_] => one_number(alloc, Form::Sizes, bytes, items),
        _ if items.len() % 2 == 0 => size_pairs(alloc, bytes, items),
        _ => Err(ValueRefused::Fault(ParmKind::ValueCount)),
    }
}
