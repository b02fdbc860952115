// Keywords with their values, part by part.
ghost use Rattle.std.specs.Prelude.{◌≡◌, ◌++◌, [], ◌∷◌, All, IfOk, map, slice_get, slice_set};
ghost use Rattle.parm_lex.specs.Spans.{IsPartOf};
ghost use Rattle.parm_forms.specs.Rows.{forms_of};
ghost use Rattle.parm_defs.specs.Answers.{Gives, on_line};
ghost use Rattle.parm_defs.specs.Parts.{after_part, after_parts, is_among, part_of, put_items, with_value};

use crate::copies::push;
use crate::fault::DefsRefused;
use parm_forms::{
    Form, Kind, ParmKind, Value, ValueRefused, form_at, name_text, read_value, row_at,
};
use parm_lex::ParmPart;
use std::alloc::Global;
use vd_list::Items;
use vd_outside::{NoMemory, Text};

/// The values of a kind's keywords, in the order of its table, and the words that are given so far, in the order of their parts.
#[derive(Drop)]
pub struct Given {
    pub values: Items<Value>,
    pub words: Items<Text>,
}

/// Whether a word stands among others.
pub fn is_among(word: &[u8], words: &[Text]) -> bool
    ensures { result ≡ is_among word.now words.now }
{
    words.iter().any(|other| other.as_bytes() == word)
}

/// Values with another one in a row that there is.
pub fn set_row(values: Vec<Value>, row: usize, value: Value) -> Vec<Value>
    ensures { result.items ≡ slice_set values.items row value }
{
    let mut values = values;
    if row < values.len() {
        values[row] = value;
    }
    values
}

/// A keyword more.
fn with_value(given: Given, row: usize, word: Text, value: Value) -> Result<Given, NoMemory>
    ensures { IfOk result (λ next. next ≡ with_value row word given value) }
{
    let values = set_row(given.values.into_vec(), row, value);
    let mut words = given.words.into_vec();
    push(&mut words, word)?;
    Ok(Given {
        values: Items::of(values),
        words: Items::of(words),
    })
}

/// The items of a keyword that may stand there.
fn put_items(
    alloc: Global,
    bytes: &[u8],
    kind: Kind,
    is_default: bool,
    given: Given,
    part: &ParmPart,
    row: usize,
) -> Result<Given, DefsRefused>
    requires { IsPartOf bytes.now part.now }
    ensures { Gives (λ next. next) result (on_line part.now.line (put_items is_default row given (part_of bytes.now part.now) (slice_get (forms_of kind) row))) }
{
    let Some(form) = form_at(kind, row) else {
        return Err(DefsRefused::at(part.line, ParmKind::UnknownKeyword));
    };
    let value = match read_value(alloc, form, bytes, part.items.as_slice()) {
        Ok(value) => value,
        Err(ValueRefused::NoMemory) => return Err(DefsRefused::NoMemory),
        Err(ValueRefused::Fault(fault)) => return Err(DefsRefused::at(part.line, fault)),
    };
    if is_default && matches!(form, Form::Count) {
        return Err(DefsRefused::at(part.line, ParmKind::BadChoice));
    }
    let word = name_text(alloc, bytes, &part.word)?;
    Ok(with_value(given, row, word, value)?)
}

/// One part more.
fn after_part(
    alloc: Global,
    bytes: &[u8],
    kind: Kind,
    is_default: bool,
    given: Given,
    part: &ParmPart,
) -> Result<Given, DefsRefused>
    requires { IsPartOf bytes.now part.now }
    ensures { Gives (λ next. next) result (after_part kind is_default given (part_of bytes.now part.now)) }
{
    let word = part.word.bytes_in(bytes);
    let Some(row) = row_at(kind, word) else {
        return Err(DefsRefused::at(part.line, ParmKind::UnknownKeyword));
    };
    if is_among(word, given.words.as_slice()) {
        return Err(DefsRefused::at(part.line, ParmKind::RepeatedKeyword));
    }
    put_items(alloc, bytes, kind, is_default, given, part, row)
}

/// The parts from left to right, up to the first fault.
pub fn after_parts(
    alloc: Global,
    bytes: &[u8],
    kind: Kind,
    is_default: bool,
    given: Given,
    parts: &[ParmPart],
) -> Result<Given, DefsRefused>
    requires { All (IsPartOf bytes.now) parts.now }
    ensures { Gives (λ next. next) result (after_parts kind is_default given (map (part_of bytes.now) parts.now)) }
{
    let mut given = given;
    for part in parts {
        given = after_part(alloc, bytes, kind, is_default, given, part)?;
    }
    Ok(given)
}
