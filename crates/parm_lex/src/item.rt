// Items, and lists of them.
ghost use Rattle.std.specs.Prelude.{◌≡◌, ◌≤◌, ◌<◌, ◌+◌, ◌-◌, length, IfOk, Some};
ghost use Rattle.parm_lex.specs.Bytes.{blanks_off};
ghost use Rattle.parm_lex.specs.Grammar.{Within, GivesBy, seen, fault_at, span_at, unless_bad, first_of, bare_at, quoted_at, item_at, list_step, ListAt};

use crate::bytes::{bare_len, blanks_off, inside_len, is_blank, is_printable};
use crate::fault::{LexFault, LexRefused, LexWhy};
use crate::span::{LinePlace, Span};
use std::alloc::Global;

pub fn fault_at(place: LinePlace, rest: &[u8], why: LexWhy) -> LexFault
    requires { Within place rest.now }
    ensures { result ≡ fault_at place rest.now why }
{
    LexFault {
        line: place.number,
        column: place.width - rest.len() as u32 + 1,
        why,
    }
}

pub fn span_at(place: LinePlace, rest: &[u8], len: usize) -> Span
    requires within { Within place rest.now }
    requires inside { len ≤ length rest.now }
    ensures { result ≡ span_at place rest.now len }
{
    Span {
        at: place.end - rest.len() as u32,
        len: len as u32,
    }
}

/// Why nothing of the grammar stands in front.
pub fn unless_bad(bytes: &[u8], why: LexWhy) -> LexWhy
    ensures { result ≡ unless_bad (first_of bytes.now) why }
{
    match bytes {
        [byte, ..] if !is_blank(*byte) && !is_printable(*byte) => LexWhy::BadByte,
        _ => why,
    }
}

fn bare(place: LinePlace, bytes: &[u8]) -> Result<(Span, &[u8]), LexFault>
    requires { Within place bytes.now }
    ensures value { seen (λ x. (x.0, x.1.now)) result ≡ bare_at place bytes.now }
    ensures shorter { IfOk result (λ x. length x.1.now < length bytes.now) }
{
    let len = bare_len(bytes);
    if len == 0 {
        return Err(fault_at(place, bytes, unless_bad(bytes, LexWhy::EmptyValue)));
    }
    Ok((span_at(place, bytes, len), &bytes[len..]))
}

fn quoted(place: LinePlace, bytes: &[u8]) -> Result<(Span, &[u8]), LexFault>
    requires { Within place bytes.now }
    ensures value { seen (λ x. (x.0, x.1.now)) result ≡ quoted_at place bytes.now }
    ensures shorter { IfOk result (λ x. length x.1.now < length bytes.now) }
{
    let len = inside_len(bytes);
    let text = span_at(place, bytes, len);
    match &bytes[len..] {
        [b'"', rest @ ..] => Ok((text, rest)),
        rest => Err(fault_at(place, rest, unless_bad(rest, LexWhy::UnclosedQuote))),
    }
}

#[tactic(auto, unfolding(crate::specs::Grammar::item_at))]
pub fn item(place: LinePlace, bytes: &[u8]) -> Result<(Span, &[u8]), LexFault>
    requires { Within place bytes.now }
    ensures value { seen (λ x. (x.0, x.1.now)) result ≡ item_at place bytes.now }
    ensures shorter { IfOk result (λ x. length x.1.now < length bytes.now) }
{
    match bytes {
        [b'"', rest @ ..] => quoted(place, rest),
        _ => bare(place, bytes),
    }
}

/// One item of a list, whether it is the last, and what stands behind.
#[tactic(auto, unfolding(crate::specs::Grammar::list_step))]
fn list_item(place: LinePlace, bytes: &[u8]) -> Result<(Span, bool, &[u8]), LexFault>
    requires { Within place bytes.now }
    ensures value { seen (λ x. (x.0, x.1, x.2.now)) result ≡ list_step place bytes.now }
    ensures shorter { IfOk result (λ x. length x.2.now < length bytes.now) }
{
    let (item, rest) = item(place, bytes)?;
    match blanks_off(rest) {
        [b',', rest @ ..] => Ok((item, false, blanks_off(rest))),
        [b')', rest @ ..] => Ok((item, true, rest)),
        [] => Err(fault_at(place, &[], LexWhy::UnclosedParen)),
        rest => Err(fault_at(place, rest, unless_bad(rest, LexWhy::AfterValue))),
    }
}

/// The items of a list.
pub fn list(alloc: Global, place: LinePlace, bytes: &[u8]) -> Result<(Vec<Span>, &[u8]), LexRefused>
    requires { Within place bytes.now }
    ensures value { GivesBy (λ x. (x.0.items, x.1.now)) (ListAt place bytes.now) result }
    ensures shorter { IfOk result (λ x. length x.1.now < length bytes.now) }
{
    let mut items = Vec::new(alloc);
    let mut rest = bytes;
    loop {
        let (item, last, after) = list_item(place, rest)?;
        items.push(item)?;
        if last {
            return Ok((items, after));
        }
        rest = after;
    }
}
