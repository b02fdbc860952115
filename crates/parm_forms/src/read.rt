// Items, read by the form of their keyword.
ghost use Rattle.std.specs.Prelude.{◌≡◌, All};
ghost use Rattle.parm_lex.specs.Spans.{IsSpanOf};
ghost use Rattle.parm_forms.specs.Forms.{Gives, texts_at, value_of};

use crate::fault::ValueRefused;
use crate::form::Form;
use crate::numbers::{one_number, some_numbers};
use crate::sizes::{count, sizes};
use crate::texts::{one_text, some_texts};
use crate::value::Value;
use parm_lex::Span;
use std::alloc::Global;
use vd_list::Items;

/// The value that the items of a keyword spell, or the first fault.
#[tactic(auto, unfolding(crate::specs::Forms::value_of))]
pub fn read_value(
    alloc: Global,
    form: Form,
    bytes: &[u8],
    items: &[Span],
) -> Result<Value, ValueRefused>
    requires { All (IsSpanOf bytes.now) items.now }
    ensures gives { Gives (λ value. value) result (value_of form (texts_at bytes.now items.now)) }
{
    match form {
        Form::Number { .. }
        | Form::Size
        | Form::BlockSize
        | Form::Seconds
        | Form::Rate
        | Form::SeekPercent => {
            let numbers = one_number(alloc, form, bytes, items)?;
            Ok(Value::Numbers(Items::of(numbers)))
        }
        Form::Numbers { .. } | Form::BlockSizes => {
            let numbers = some_numbers(alloc, form, bytes, items)?;
            Ok(Value::Numbers(Items::of(numbers)))
        }
        Form::Sizes => {
            let numbers = sizes(alloc, bytes, items)?;
            Ok(Value::Numbers(Items::of(numbers)))
        }
        Form::Count => {
            let numbers = count(alloc, bytes, items)?;
            Ok(Value::Numbers(Items::of(numbers)))
        }
        Form::Path | Form::Word | Form::Choice(_) => {
            let texts = one_text(alloc, form, bytes, items)?;
            Ok(Value::Texts(Items::of(texts)))
        }
        Form::Words | Form::Choices(_) | Form::StorePatterns | Form::Patterns => {
            let texts = some_texts(alloc, form, bytes, items)?;
            Ok(Value::Texts(Items::of(texts)))
        }
    }
}
