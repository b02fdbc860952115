// Items that are texts.
ghost use Rattle.std.specs.Prelude.{◌≡◌, All, IfOk, map};
ghost use Rattle.std.specs.List.{list_any};
ghost use Rattle.std.specs.Str.{bytes_eq};
ghost use Rattle.parm_lex.specs.Spans.{IsSpanOf, bytes_of};
ghost use Rattle.parm_forms.specs.Forms.{Gives, each, mapped, one, some, texts_at, words_of};
ghost use Rattle.parm_forms.specs.Items.{text_item as item_text};

use crate::choice::Choice;
use crate::fault::{ParmKind, ValueRefused};
use crate::form::Form;
use crate::names::{is_other_pattern, is_store_pattern};
use parm_lex::Span;
use std::alloc::Global;
use vd_outside::{NoMemory, Text};

/// The most bytes of a path.
const MOST_PATH_BYTES: usize = 1024;

/// The text of a span.
#[tactic(auto, using(crate::proofs::Printable::printable_utf8))]
pub fn name_text(alloc: Global, bytes: &[u8], span: &Span) -> Result<Text, NoMemory>
    requires { IsSpanOf bytes.now span.now }
    ensures { IfOk result (λ text. text ≡ bytes_of bytes.now span.now) }
{
    match std::str::from_utf8(span.bytes_in(bytes)) {
        Ok(text) => Text::from_str(alloc, text),
        Err(_) => unreachable!(),
    }
}

fn words(choice: Choice) -> &'static [&'static str]
    ensures { map (λ word. word.now) result.now ≡ words_of choice }
{
    match choice {
        Choice::No => &["no"],
        Choice::YesNo => &["yes", "no"],
        Choice::Validate => &["yes", "no_preread", "read_after_write"],
        Choice::Format => &["no", "yes", "only"],
        Choice::Distribution => &["bottom", "all"],
        Choice::Operation => &["read", "write"],
        Choice::Access => &["random", "sequential"],
    }
}

fn is_word(words: &[&'static str], item: &[u8]) -> bool
    ensures { result ≡ list_any (λ word. bytes_eq word.now item.now) words.now }
{
    words.iter().any(|word| word.as_bytes() == item)
}

fn is_chosen(choice: Choice, item: &[u8]) -> bool
    ensures { result ≡ list_any (λ word. bytes_eq word item.now) (words_of choice) }
{
    is_word(words(choice), item)
}

/// Whether an item is a text of the form, or what is wrong with it; a form of numbers takes any text.
fn check_text(form: Form, item: &[u8]) -> Result<(), ParmKind>
    ensures { mapped (λ _. item.now) result ≡ item_text form item.now }
{
    let (fits, kind) = match form {
        Form::Path => (
            1 <= item.len() && item.len() <= MOST_PATH_BYTES,
            ParmKind::BadChoice,
        ),
        Form::Choice(choice) | Form::Choices(choice) => {
            (is_chosen(choice, item), ParmKind::BadChoice)
        }
        Form::StorePatterns => (is_store_pattern(item), ParmKind::BadName),
        Form::Patterns => (is_other_pattern(item), ParmKind::BadName),
        _ => (true, ParmKind::BadChoice),
    };
    if fits { Ok(()) } else { Err(kind) }
}

/// The text of an item.
fn text_item(alloc: Global, form: Form, bytes: &[u8], item: &Span) -> Result<Text, ValueRefused>
    requires { IsSpanOf bytes.now item.now }
    ensures { Gives (λ text. text) result (item_text form (bytes_of bytes.now item.now)) }
{
    check_text(form, item.bytes_in(bytes))?;
    Ok(name_text(alloc, bytes, item)?)
}

/// The texts of items, or the first fault.
fn texts(alloc: Global, form: Form, bytes: &[u8], items: &[Span]) -> Result<Vec<Text>, ValueRefused>
    requires { All (IsSpanOf bytes.now) items.now }
    ensures { Gives (λ texts. texts.items) result (each (item_text form) (texts_at bytes.now items.now)) }
{
    let mut texts = Vec::new(alloc);
    for item in items {
        texts.push(text_item(alloc, form, bytes, item)?)?;
    }
    Ok(texts)
}

/// The text of the only item.
pub fn one_text(
    alloc: Global,
    form: Form,
    bytes: &[u8],
    items: &[Span],
) -> Result<Vec<Text>, ValueRefused>
    requires { All (IsSpanOf bytes.now) items.now }
    ensures { Gives (λ texts. texts.items) result (one (item_text form) (texts_at bytes.now items.now)) }
{
    match items {
        [_] => texts(alloc, form, bytes, items),
        _ => Err(ValueRefused::Fault(ParmKind::ValueCount)),
    }
}

/// The texts of one item or more.
pub fn some_texts(
    alloc: Global,
    form: Form,
    bytes: &[u8],
    items: &[Span],
) -> Result<Vec<Text>, ValueRefused>
    requires { All (IsSpanOf bytes.now) items.now }
    ensures { Gives (λ texts. texts.items) result (some (item_text form) (texts_at bytes.now items.now)) }
{
    match items {
        [] => Err(ValueRefused::Fault(ParmKind::ValueCount)),
        _ => texts(alloc, form, bytes, items),
    }
}
