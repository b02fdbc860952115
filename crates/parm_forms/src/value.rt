// Values of keywords.
ghost use Rattle.std.specs.Prelude.{◌≡◌, IfOk};

use std::alloc::Global;
use vd_list::Items;
use vd_outside::{NoMemory, Text};

/// What a keyword is given: numbers or texts, none where it isn't given and has no default.
#[derive(Drop)]
pub enum Value {
    Numbers(Items<u64>),
    Texts(Items<Text>),
}

impl Value {
    ghost use Rattle.std.specs.Prelude.{◌≡◌, IfOk};
    ghost use Rattle.std.specs.Option.{option_copied};
    ghost use Rattle.parm_forms.specs.Values.{numbers_of, only, texts_of};

    /// Its numbers; none where it has texts.
    pub fn numbers(&self) -> &[u64]
        ensures { result.now ≡ numbers_of self.now }
    {
        match self {
            Value::Numbers(numbers) => numbers.as_slice(),
            Value::Texts(_) => &[],
        }
    }

    /// Its texts; none where it has numbers.
    pub fn texts(&self) -> &[Text]
        ensures { result.now ≡ texts_of self.now }
    {
        match self {
            Value::Numbers(_) => &[],
            Value::Texts(texts) => texts.as_slice(),
        }
    }

    /// Its number, where it has one number and no more.
    pub fn only_number(&self) -> Option<u64>
        ensures { result ≡ only (numbers_of self.now) }
    {
        match self.numbers() {
            [number] => Some(*number),
            _ => None,
        }
    }

    /// Its text, where it has one text and no more.
    pub fn only_text(&self) -> Option<&Text>
        ensures { option_copied result ≡ only (texts_of self.now) }
    {
        match self.texts() {
            [text] => Some(text),
            _ => None,
        }
    }

    /// A copy of this value.
    pub fn copy(&self, alloc: Global) -> Result<Value, NoMemory>
        ensures { IfOk result (λ copy. copy ≡ self.now) }
    {
        match self {
            Value::Numbers(numbers) => {
                let copy = Vec::from_slice(alloc, numbers.as_slice())?;
                Ok(Value::Numbers(Items::of(copy)))
            }
            Value::Texts(texts) => {
                let copy = texts_copied(alloc, texts.as_slice())?;
                Ok(Value::Texts(Items::of(copy)))
            }
        }
    }
}

/// Copies of these texts.
fn texts_copied(alloc: Global, texts: &[Text]) -> Result<Vec<Text>, NoMemory>
    ensures { IfOk result (λ copies. copies.items ≡ texts.now) }
{
    let mut copies = Vec::new(alloc);
    for text in texts {
        let copy = Text::from_str(alloc, text.as_str())?;
        if copies.push(copy).is_err() {
            return Err(NoMemory);
        }
    }
    Ok(copies)
}
