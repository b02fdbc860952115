// Copies of values and texts.
ghost use Rattle.std.specs.Prelude.{◌≡◌, ◌++◌, [], ◌∷◌, IfOk, OnOk, map};

use parm_forms::Value;
use std::alloc::Global;
use vd_outside::{NoMemory, Text};

/// Adds an item at the end.
pub fn push<T: Drop>(items: &mut Vec<T>, item: T) -> Result<(), NoMemory>
    ensures { OnOk result (items.new.items ≡ items.old.items ++ item ∷ []) }
{
    match items.push(item) {
        Ok(()) => Ok(()),
        Err(_) => Err(NoMemory),
    }
}

/// A list of one item.
pub fn one<T: Drop>(alloc: Global, item: T) -> Result<Vec<T>, NoMemory>
    ensures { IfOk result (λ items. items.items ≡ item ∷ []) }
{
    let mut items = Vec::new(alloc);
    push(&mut items, item)?;
    Ok(items)
}

/// A text with another behind it.
pub fn joined(alloc: Global, text: &Text, more: &str) -> Result<Text, NoMemory>
    ensures { IfOk result (λ copy. copy ≡ text.now ++ more.now) }
{
    let mut copy = Text::from_str(alloc, text.as_str())?;
    copy.push(more)?;
    Ok(copy)
}

/// Texts, each with another behind it.
pub fn all_joined(alloc: Global, texts: &[Text], more: &str) -> Result<Vec<Text>, NoMemory>
    ensures { IfOk result (λ copies. copies.items ≡ map (λ text. text ++ more.now) texts.now) }
{
    let mut copies = Vec::new(alloc);
    for text in texts {
        push(&mut copies, joined(alloc, text, more)?)?;
    }
    Ok(copies)
}

/// The same values.
pub fn copied_values(alloc: Global, values: &[Value]) -> Result<Vec<Value>, NoMemory>
    ensures { IfOk result (λ copies. copies.items ≡ values.now) }
{
    let mut copies = Vec::new(alloc);
    for value in values {
        push(&mut copies, value.copy(alloc)?)?;
    }
    Ok(copies)
}
