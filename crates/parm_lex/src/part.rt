// Parts, and the lines of them.
ghost use Rattle.std.specs.Prelude.{◌≡◌, ◌≤◌, ◌<◌, length, not, true, [], IfOk, Some};
ghost use Rattle.std.specs.List.{position};
ghost use Rattle.parm_lex.specs.Bytes.{is_word, word_len};
ghost use Rattle.parm_lex.specs.Grammar.{GivesBy, LineAt, PartStep, ValueAt, Within, seen, word_at};

use crate::bytes::{blanks_off, word_len};
use crate::fault::{LexFault, LexRefused, LexWhy};
use crate::item::{fault_at, item, list, span_at, unless_bad};
use crate::span::{LinePlace, Span, Spans};
use std::alloc::Global;
use std::marker::Model;

/// A word and its value: one item or more, where `listed` says whether they stood in parentheses.
#[derive(Debug, Drop)]
pub struct ParmPart {
    /// The line that it stands in, from 1.
    pub line: u32,
    pub word: Span,
    pub items: Spans,
    pub listed: bool,
}

/// Parts in order. Contracts see their list.
#[derive(Debug, Drop)]
pub struct Parts {
    parts: Vec<ParmPart>,
}

impl Model for Parts {
    ghost use Rattle.std.specs.Prelude.{List};
    ghost use Rattle.parm_lex.specs.declared.part.ParmPart.{ParmPart};

    ghost Value = { List ParmPart };

    ghost view = { λ list. list.parts.items };
}

impl Parts {
    /// These parts.
    pub fn of(parts: Vec<ParmPart>) -> Parts
        ensures { result ≡ parts.items }
    {
        Parts { parts }
    }

    /// The parts, to be read.
    pub fn as_slice(&self) -> &[ParmPart]
        ensures { result.now ≡ self.now }
    {
        self.parts.as_slice()
    }

    /// The parts.
    pub fn into_vec(self) -> Vec<ParmPart>
        ensures { result.items ≡ self }
    {
        self.parts
    }
}

/// A word and the sign behind it.
#[tactic(auto, unfolding(crate::specs::Grammar::word_at))]
fn word(place: LinePlace, bytes: &[u8]) -> Result<(Span, &[u8]), LexFault>
    requires { Within place bytes.now }
    ensures value { seen (λ x. (x.0, x.1.now)) result ≡ word_at place bytes.now }
    ensures shorter { IfOk result (λ x. length x.1.now < length bytes.now) }
{
    let len = word_len(bytes);
    if len == 0 {
        return Err(fault_at(place, bytes, unless_bad(bytes, LexWhy::EmptyPart)));
    }
    let word = span_at(place, bytes, len);
    match &bytes[len..] {
        [b'=', rest @ ..] => Ok((word, rest)),
        rest => Err(fault_at(place, rest, unless_bad(rest, LexWhy::MissingEquals))),
    }
}

/// A value: its items, whether it is a list, and what stands behind.
fn value(
    alloc: Global,
    place: LinePlace,
    bytes: &[u8],
) -> Result<(Vec<Span>, bool, &[u8]), LexRefused>
    requires { Within place bytes.now }
    ensures value { GivesBy (λ x. ((x.0.items, x.1), x.2.now)) (ValueAt place bytes.now) result }
    ensures shorter { IfOk result (λ x. length x.2.now < length bytes.now) }
{
    if let [b'(', inside @ ..] = bytes {
        let (items, rest) = list(alloc, place, blanks_off(inside))?;
        return Ok((items, true, rest));
    }
    let (item, rest) = item(place, bytes)?;
    let mut items = Vec::new(alloc);
    items.push(item)?;
    Ok((items, false, rest))
}

/// One part, whether it is the last, and the rest of the line, with whether a comma stands before it.
#[tactic(auto, unfolding(crate::specs::Grammar::PartStep))]
fn part(
    alloc: Global,
    place: LinePlace,
    bytes: &[u8],
    comma: bool,
) -> Result<(ParmPart, bool, (&[u8], bool)), LexRefused>
    requires { Within place bytes.now }
    ensures value { GivesBy (λ x. (x.0, x.1, (x.2.0.now, x.2.1))) (PartStep place (bytes.now, comma)) result }
    ensures shorter { IfOk result (λ x. length x.2.0.now < length bytes.now) }
    ensures whole { IfOk result (λ x. x.1 ≡ true → x.2.0.now ≡ []) }
{
    let (word, rest) = word(place, bytes)?;
    let (items, listed, rest) = value(alloc, place, rest)?;
    let items = Spans::of(items);
    let part = ParmPart {
        line: place.number,
        word,
        items,
        listed,
    };
    match rest {
        [] => Ok((part, true, (&[], false))),
        [b' ' | b'\t', ..] => Ok((part, true, (&[], false))),
        [b',', rest @ ..] => {
            let rest = blanks_off(rest);
            Ok((part, rest.is_empty(), (rest, true)))
        }
        _ => Err(LexRefused::Fault(fault_at(place, rest, unless_bad(rest, LexWhy::AfterValue)))),
    }
}

/// The parts of a line from its first byte that is no blank, and whether it is continued.
pub fn line_parts(
    alloc: Global,
    place: LinePlace,
    bytes: &[u8],
) -> Result<(Vec<ParmPart>, bool), LexRefused>
    requires { Within place bytes.now }
    ensures { GivesBy (λ x. (x.0.items, ([], x.1))) (LineAt place bytes.now) result }
{
    let mut parts = Vec::new(alloc);
    let mut rest = bytes;
    let mut comma = false;
    loop {
        let (part, last, (after, continued)) = part(alloc, place, rest, comma)?;
        parts.push(part)?;
        if last {
            return Ok((parts, continued));
        }
        rest = after;
        comma = continued;
    }
}
