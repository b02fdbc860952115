// Items that are numbers.
ghost use Rattle.std.specs.Prelude.{◌≡◌, All};
ghost use Rattle.parm_lex.specs.Spans.{IsSpanOf};
ghost use Rattle.parm_forms.specs.Forms.{Gives, block_size as block_size_of, each, number as number_within, number_or_fault, one, rate as rate_of, seconds as seconds_of_item, seek_percent as seek_percent_of, size as size_of_item, some, texts_at};
ghost use Rattle.parm_forms.specs.Items.{number_item as item_number};
ghost use Rattle.parm_value.specs.Values.{spelled_number};

use crate::fault::{ParmKind, ValueRefused};
use crate::form::Form;
use parm_lex::Span;
use parm_value::ValueFault;
use std::alloc::Global;

/// The greatest transfer size.
const MOST_BLOCK_BYTES: u64 = 1_048_576;

/// The most turns a second that may be asked for.
const MOST_RATE: u64 = 10_000_000;

/// What `max` stands for.
const NO_RATE: u64 = 0;

/// A number from `least` to `greatest`.
pub fn number(item: &[u8], least: u64, greatest: u64) -> Result<u64, ParmKind>
    ensures { result ≡ number_within least greatest item.now }
{
    Ok(parm_value::number_of(item, least, greatest)?)
}

/// A size in bytes.
pub fn size(item: &[u8]) -> Result<u64, ParmKind>
    ensures { result ≡ size_of_item item.now }
{
    Ok(parm_value::size_of(item)?)
}

fn block_size(item: &[u8]) -> Result<u64, ParmKind>
    ensures { result ≡ block_size_of item.now }
{
    let bytes = size(item)?;
    if bytes > MOST_BLOCK_BYTES || bytes % 512 != 0 {
        return Err(ParmKind::OutOfRange);
    }
    Ok(bytes)
}

fn seconds(item: &[u8]) -> Result<u64, ParmKind>
    ensures { result ≡ seconds_of_item item.now }
{
    let seconds = parm_value::seconds_of(item)?;
    Ok(seconds as u64)
}

/// A number where a word may stand too: what is neither is a bad choice.
fn number_or_word(item: &[u8], least: u64, greatest: u64) -> Result<u64, ParmKind>
    ensures { result ≡ number_or_fault least greatest (spelled_number item.now) }
{
    match parm_value::number_of(item, least, greatest) {
        Ok(number) => Ok(number),
        Err(ValueFault::BadNumber) => Err(ParmKind::BadChoice),
        Err(ValueFault::OutOfRange) => Err(ParmKind::OutOfRange),
    }
}

fn rate(item: &[u8]) -> Result<u64, ParmKind>
    ensures { result ≡ rate_of item.now }
{
    if item == b"max".as_slice() {
        return Ok(NO_RATE);
    }
    number_or_word(item, 1, MOST_RATE)
}

fn seek_percent(item: &[u8]) -> Result<u64, ParmKind>
    ensures { result ≡ seek_percent_of item.now }
{
    if item == b"random".as_slice() || item == b"rand".as_slice() {
        return Ok(100);
    }
    if item == b"sequential".as_slice() || item == b"seq".as_slice() {
        return Ok(0);
    }
    number_or_word(item, 0, 100)
}

/// The number of an item; a form of texts has none.
fn number_item(form: Form, item: &[u8]) -> Result<u64, ParmKind>
    ensures { result ≡ item_number form item.now }
{
    match form {
        Form::Number { least, greatest } | Form::Numbers { least, greatest } => {
            number(item, least, greatest)
        }
        Form::Size | Form::Sizes => size(item),
        Form::BlockSize | Form::BlockSizes => block_size(item),
        Form::Seconds => seconds(item),
        Form::Rate => rate(item),
        Form::SeekPercent => seek_percent(item),
        _ => Err(ParmKind::BadNumber),
    }
}

/// The numbers of items, or the first fault.
fn numbers(
    alloc: Global,
    form: Form,
    bytes: &[u8],
    items: &[Span],
) -> Result<Vec<u64>, ValueRefused>
    requires { All (IsSpanOf bytes.now) items.now }
    ensures { Gives (λ numbers. numbers.items) result (each (item_number form) (texts_at bytes.now items.now)) }
{
    let mut numbers = Vec::new(alloc);
    for item in items {
        numbers.push(number_item(form, item.bytes_in(bytes))?)?;
    }
    Ok(numbers)
}

/// The number of the only item.
pub fn one_number(
    alloc: Global,
    form: Form,
    bytes: &[u8],
    items: &[Span],
) -> Result<Vec<u64>, ValueRefused>
    requires { All (IsSpanOf bytes.now) items.now }
    ensures { Gives (λ numbers. numbers.items) result (one (item_number form) (texts_at bytes.now items.now)) }
{
    match items {
        [_] => numbers(alloc, form, bytes, items),
        _ => Err(ValueRefused::Fault(ParmKind::ValueCount)),
    }
}

/// The numbers of one item or more.
pub fn some_numbers(
    alloc: Global,
    form: Form,
    bytes: &[u8],
    items: &[Span],
) -> Result<Vec<u64>, ValueRefused>
    requires { All (IsSpanOf bytes.now) items.now }
    ensures { Gives (λ numbers. numbers.items) result (some (item_number form) (texts_at bytes.now items.now)) }
{
    match items {
        [] => Err(ValueRefused::Fault(ParmKind::ValueCount)),
        _ => numbers(alloc, form, bytes, items),
    }
}
