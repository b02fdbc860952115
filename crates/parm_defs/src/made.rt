// The definitions that one line makes.
ghost use Rattle.std.specs.Prelude.{◌≡◌, ◌++◌, [], ◌∷◌, IfOk, codes, filter, map, option_copied};
ghost use Rattle.parm_defs.specs.Made.{all_made, changed_at, filled, has_number, is_inherited, loop_words, loops_of, made, no_numbers, numbered, numbers_of, or_number, or_text, reads_of, value_at, with_number};
ghost use Rattle.parm_defs.specs.Parts.{is_among};

use crate::copies::{all_joined, copied_values, joined, one, push};
use crate::given::{Given, is_among, set_row};
use parm_forms::{Kind, Value, row_at};
use std::alloc::Global;
use vd_list::Items;
use vd_outside::{NoMemory, Text};
use wildcards::expand_count;

/// A definition: the values of its kind's keywords, in the order of the table, and its loops, the outermost first.
#[derive(Drop)]
pub struct Def {
    /// Its first line, from 1.
    pub line: u32,
    pub name: Text,
    pub values: Items<Value>,
    pub loops: Items<Text>,
}

/// The value of a keyword, where its kind has it.
pub fn value_at<'a>(kind: Kind, word: &[u8], values: &'a [Value]) -> Option<&'a Value>
    ensures { option_copied result ≡ value_at kind word.now values.now }
{
    match row_at(kind, word) {
        Some(row) => values.get(row),
        None => None,
    }
}

/// A value with a number behind its texts.
fn numbered_value(alloc: Global, value: &Value, number: &Text) -> Result<Value, NoMemory>
    ensures { IfOk result (λ next. next ≡ with_number number.now value.now) }
{
    match value {
        Value::Numbers(_) => value.copy(alloc),
        Value::Texts(texts) => {
            let texts = all_joined(alloc, texts.as_slice(), number.as_str())?;
            Ok(Value::Texts(Items::of(texts)))
        }
    }
}

/// A number behind the texts of a keyword.
fn with_number(
    alloc: Global,
    kind: Kind,
    word: &[u8],
    number: &Text,
    values: Vec<Value>,
) -> Result<Vec<Value>, NoMemory>
    ensures { IfOk result (λ next. next.items ≡ changed_at kind word.now (with_number number.now) values.items) }
{
    let Some(row) = row_at(kind, word) else {
        return Ok(values);
    };
    let Some(value) = values.get(row) else {
        return Ok(values);
    };
    let value = numbered_value(alloc, value, number)?;
    Ok(set_row(values, row, value))
}

/// A keyword with no numbers.
fn no_numbers(alloc: Global, kind: Kind, word: &[u8], values: Vec<Value>) -> Vec<Value>
    ensures { result.items ≡ changed_at kind word.now no_numbers values.items }
{
    match row_at(kind, word) {
        Some(row) => set_row(values, row, Value::Numbers(Items::of(Vec::new(alloc)))),
        None => values,
    }
}

/// A text for a keyword that has none.
fn or_text(
    alloc: Global,
    kind: Kind,
    word: &[u8],
    text: Text,
    values: Vec<Value>,
) -> Result<Vec<Value>, NoMemory>
    ensures { IfOk result (λ next. next.items ≡ changed_at kind word.now (or_text text) values.items) }
{
    let Some(row) = row_at(kind, word) else {
        return Ok(values);
    };
    match values.get(row) {
        Some(Value::Texts(texts)) if texts.as_slice().is_empty() => {}
        _ => return Ok(values),
    }
    Ok(set_row(values, row, Value::Texts(Items::of(one(alloc, text)?))))
}

/// The number behind the path and the journal, where they are given, and no count.
fn numbered(
    alloc: Global,
    kind: Kind,
    number: &Text,
    values: Vec<Value>,
) -> Result<Vec<Value>, NoMemory>
    ensures { IfOk result (λ next. next.items ≡ numbered kind number.now values.items) }
{
    let values = with_number(alloc, kind, b"lun", number, values)?;
    let values = with_number(alloc, kind, b"anchor", number, values)?;
    let values = with_number(alloc, kind, b"journal", number, values)?;
    Ok(no_numbers(alloc, kind, b"count", values))
}

/// A number for a keyword that has none.
fn or_number(
    alloc: Global,
    kind: Kind,
    word: &[u8],
    number: u64,
    values: Vec<Value>,
) -> Result<Vec<Value>, NoMemory>
    ensures { IfOk result (λ next. next.items ≡ changed_at kind word.now (or_number number) values.items) }
{
    let Some(row) = row_at(kind, word) else {
        return Ok(values);
    };
    match values.get(row) {
        Some(Value::Numbers(numbers)) if numbers.as_slice().is_empty() => {}
        _ => return Ok(values),
    }
    Ok(set_row(values, row, Value::Numbers(Items::of(one(alloc, number)?))))
}

/// Of 100 turns of an operation, so many read.
fn reads_of(kind: Kind, values: &[Value]) -> u64
    ensures { result ≡ reads_of (value_at kind (codes "operation") values.now) }
{
    let Some(operation) = value_at(kind, b"operation", values) else {
        return 0;
    };
    match operation.texts() {
        [operation] if operation.as_bytes() == b"read".as_slice() => 100,
        _ => 0,
    }
}

/// What is filled in where nothing is given.
fn filled(
    alloc: Global,
    kind: Kind,
    name: &Text,
    values: Vec<Value>,
) -> Result<Vec<Value>, NoMemory>
    ensures { IfOk result (λ next. next.items ≡ filled kind name.now values.items) }
{
    let reads = reads_of(kind, &values);
    let system = Text::from_str(alloc, name.as_str())?;
    let values = or_text(alloc, kind, b"system", system, values)?;
    let journal = joined(alloc, name, ".jnl")?;
    let values = or_text(alloc, kind, b"journal", journal, values)?;
    or_number(alloc, kind, b"rdpct", reads, values)
}

/// Whether a word is that of a loop.
fn is_loop(word: &[u8]) -> bool
    ensures { result ≡ is_among word.now loop_words }
{
    if b"forthreads".as_slice() == word {
        return true;
    }
    if b"forxfersize".as_slice() == word {
        return true;
    }
    b"forrdpct".as_slice() == word
}

/// Whether a keyword has a number.
fn has_number(kind: Kind, word: &[u8], values: &[Value]) -> bool
    ensures { result ≡ has_number (value_at kind word.now values.now) }
{
    match value_at(kind, word, values) {
        Some(Value::Numbers(numbers)) => !numbers.as_slice().is_empty(),
        _ => false,
    }
}

/// Adds the word of a loop that isn't given, where it has numbers.
fn inherited_loop(
    alloc: Global,
    kind: Kind,
    given: &Given,
    word: &str,
    loops: Vec<Text>,
) -> Result<Vec<Text>, NoMemory>
    ensures { IfOk result (λ next. next.items ≡ loops.items ++ filter (is_inherited kind given.now) (word.now ∷ [])) }
{
    let mut loops = loops;
    if !is_among(word.as_bytes(), given.words.as_slice())
        && has_number(kind, word.as_bytes(), given.values.as_slice())
    {
        push(&mut loops, Text::from_str(alloc, word)?)?;
    }
    Ok(loops)
}

/// The loops of a definition, the outermost first.
fn loops_of(alloc: Global, kind: Kind, given: &Given) -> Result<Vec<Text>, NoMemory>
    ensures { IfOk result (λ loops. loops.items ≡ loops_of kind given.now) }
{
    let loops = own_loops(alloc, given.words.as_slice())?;
    let loops = inherited_loop(alloc, kind, given, "forthreads", loops)?;
    let loops = inherited_loop(alloc, kind, given, "forxfersize", loops)?;
    let loops = inherited_loop(alloc, kind, given, "forrdpct", loops)?;
    Ok(loops)
}

/// The words of loops among the given ones.
fn own_loops(alloc: Global, words: &[Text]) -> Result<Vec<Text>, NoMemory>
    ensures { IfOk result (λ loops. loops.items ≡ filter (λ word. is_among word loop_words) words.now) }
{
    let mut loops = Vec::new(alloc);
    for word in words {
        if is_loop(word.as_bytes()) {
            push(&mut loops, Text::from_str(alloc, word.as_str())?)?;
        }
    }
    Ok(loops)
}

/// The definition with a number behind its name.
fn made(
    alloc: Global,
    kind: Kind,
    line: u32,
    name: &Text,
    given: &Given,
    number: &Text,
) -> Result<Def, NoMemory>
    ensures { IfOk result (λ d. d ≡ made kind line name.now given.now number.now) }
{
    let name = joined(alloc, name, number.as_str())?;
    let values = copied_values(alloc, given.values.as_slice())?;
    let values = numbered(alloc, kind, number, values)?;
    let values = filled(alloc, kind, &name, values)?;
    let loops = loops_of(alloc, kind, given)?;
    Ok(Def {
        line,
        name,
        values: Items::of(values),
        loops: Items::of(loops),
    })
}

/// The numbers of a count.
fn numbers_of(alloc: Global, count: Option<&Value>) -> Result<Vec<Text>, NoMemory>
    ensures { IfOk result (λ numbers. numbers.items ≡ numbers_of (option_copied count.entry)) }
{
    let empty = Text::from_str(alloc, "")?;
    let Some(Value::Numbers(numbers)) = count else {
        return one(alloc, empty);
    };
    match numbers.as_slice() {
        [first, many] => expand_count(alloc, &empty, *first, *many),
        _ => one(alloc, empty),
    }
}

/// A definition for each number of its count.
pub fn all_made(
    alloc: Global,
    kind: Kind,
    line: u32,
    name: &Text,
    given: &Given,
) -> Result<Vec<Def>, NoMemory>
    ensures { IfOk result (λ defs. defs.items ≡ all_made kind line name.now given.now) }
{
    let numbers = numbers_of(alloc, value_at(kind, b"count", given.values.as_slice()))?;
    let mut defs = Vec::new(alloc);
    for number in &numbers {
        push(&mut defs, made(alloc, kind, line, name, given, number)?)?;
    }
    Ok(defs)
}
