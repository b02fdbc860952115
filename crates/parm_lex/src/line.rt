// One line of the file.
ghost use Rattle.std.specs.Prelude.{◌≡◌, ◌≤◌, ◌<◌, ◌+◌, ◌-◌, length, IfOk, None, Ok, nat_eq, ◌++◌, false, []};
ghost use Rattle.std.specs.List.{position};
ghost use Rattle.parm_lex.specs.Bytes.{cr_off, is_skipped, line_len};
ghost use Rattle.parm_lex.specs.Grammar.{GivesBy};
ghost use Rattle.parm_lex.specs.Lines.{CutStep, Reads, after_line, cut_at, cut_view, go_on, joined, step_view};

use crate::bytes::{blanks_off, cr_off, is_skipped, line_len};
use crate::fault::{LexFault, LexRefused, LexWhy};
use crate::part::{ParmPart, Parts, line_parts};
use crate::span::LinePlace;
use std::alloc::{AllocError, Global};

/// A definition: the parts of a line and of those that continue it.
#[derive(Debug, Drop)]
pub struct ParmLine {
    /// Its first line, from 1.
    pub line: u32,
    pub parts: Parts,
}

/// A definition that the next line continues.
#[derive(Debug, Drop)]
pub struct OpenLine {
    pub line: u32,
    pub parts: Parts,
    /// The fault where no line continues it.
    pub end: LexFault,
    /// The first skipped line behind it that is too long.
    pub long: Option<LexFault>,
}

/// A line of the file, without its end, and what stands behind it.
#[derive(Clone, Copy, Debug)]
pub struct Cut<'a> {
    pub place: LinePlace,
    pub text: &'a [u8],
    pub after: &'a [u8],
}

/// The first line.
#[tactic(auto, unfolding(crate::specs::Lines::cut_at))]
pub fn first_cut<'a>(total: u32, number: u32, rest: &'a [u8]) -> Cut<'a>
    requires { length rest.now ≤ total }
    ensures value { cut_view result ≡ cut_at total number rest.now }
    ensures shorter { length result.after.now ≤ length rest.now - 1 }
    ensures inside { result.place.width ≤ result.place.end }
    ensures width { length result.text.now ≡ result.place.width }
{
    let len = line_len(rest);
    let text = cr_off(&rest[..len]);
    let width = text.len() as u32;
    let after = if len < rest.len() {
        &rest[len + 1..]
    } else {
        &[]
    };
    Cut {
        place: LinePlace {
            number,
            width,
            end: total - rest.len() as u32 + width,
        },
        text,
        after,
    }
}

/// Behind a line: the next one, or the end of the file.
fn go_on<'a>(
    cut: Cut<'a>,
    held: Option<OpenLine>,
    line: Option<ParmLine>,
) -> Result<(Option<ParmLine>, bool, Option<OpenLine>), LexRefused>
    ensures value { GivesBy (step_view (cut_view cut.entry)) (λ given. given ≡ go_on (cut_view cut.entry) held line) result }
    ensures more { IfOk result (λ x. x.1 ≡ false → 0 < length cut.entry.after.now) }
{
    if !cut.after.is_empty() {
        return Ok((line, false, held));
    }
    match held {
        Some(held) => Err(LexRefused::Fault(held.end)),
        None => Ok((line, true, None)),
    }
}

/// One line of the file: the definition that it ends, if it ends one; whether it is the last line; and what the next one continues.
pub fn file_step<'a>(
    alloc: Global,
    cut: Cut<'a>,
    held: Option<OpenLine>,
) -> Result<(Option<ParmLine>, bool, Option<OpenLine>), LexRefused>
    requires inside { cut.place.width ≤ cut.place.end }
    requires width { length cut.text.now ≡ cut.place.width }
    ensures value { GivesBy (step_view (cut_view cut.entry)) (CutStep (cut_view cut.entry) held) result }
    ensures more { IfOk result (λ x. x.1 ≡ false → 0 < length cut.entry.after.now) }
{
    let text = blanks_off(cut.text);
    let long = cut.text.len() > 4096;
    let too_long = LexFault {
        line: cut.place.number,
        column: 4097,
        why: LexWhy::LineTooLong,
    };
    if is_skipped(text) {
        if !long {
            return go_on(cut, held, None);
        }
        return match held {
            None => Err(LexRefused::Fault(too_long)),
            Some(held) => {
                let long = match held.long {
                    None => Some(too_long),
                    noted => noted,
                };
                go_on(cut, Some(OpenLine { long, ..held }), None)
            }
        };
    }
    if let Some(
        OpenLine {
            long: Some(noted),
            ..
        },
    ) = &held
    {
        return Err(LexRefused::Fault(*noted));
    }
    if long {
        return Err(LexRefused::Fault(too_long));
    }
    read_cut(alloc, cut, held)
}

/// A line that isn't skipped, and isn't too long.
fn read_cut<'a>(
    alloc: Global,
    cut: Cut<'a>,
    held: Option<OpenLine>,
) -> Result<(Option<ParmLine>, bool, Option<OpenLine>), LexRefused>
    requires inside { cut.place.width ≤ cut.place.end }
    requires width { length cut.text.now ≡ cut.place.width }
    requires short { cut.place.width ≤ 4096 }
    ensures value { GivesBy (step_view (cut_view cut.entry)) (Reads (cut_view cut.entry) held None false) result }
    ensures more { IfOk result (λ x. x.1 ≡ false → 0 < length cut.entry.after.now) }
{
    let (read, continued) = line_parts(alloc, cut.place, blanks_off(cut.text))?;
    after_line(cut, held, read, continued)
}

/// The parts of a line joined to those of the lines that it continues.
fn after_line<'a>(
    cut: Cut<'a>,
    held: Option<OpenLine>,
    read: Vec<ParmPart>,
    continued: bool,
) -> Result<(Option<ParmLine>, bool, Option<OpenLine>), LexRefused>
    requires { cut.place.width ≤ 4096 }
    ensures value { GivesBy (step_view (cut_view cut.entry)) (λ given. given ≡ after_line (cut_view cut.entry) held (Ok (read.items, ([], continued)))) result }
    ensures more { IfOk result (λ x. x.1 ≡ false → 0 < length cut.entry.after.now) }
{
    match held {
        None => whole_or_open(cut, cut.place.number, read, continued),
        Some(held) => whole_or_open(cut, held.line, joined_parts(held.parts, read)?, continued),
    }
}

/// A definition, whole or open.
fn whole_or_open<'a>(
    cut: Cut<'a>,
    line: u32,
    parts: Vec<ParmPart>,
    continued: bool,
) -> Result<(Option<ParmLine>, bool, Option<OpenLine>), LexRefused>
    requires { cut.place.width ≤ 4096 }
    ensures value { GivesBy (step_view (cut_view cut.entry)) (λ given. given ≡ joined (cut_view cut.entry) line parts.items continued) result }
    ensures more { IfOk result (λ x. x.1 ≡ false → 0 < length cut.entry.after.now) }
{
    let parts = Parts::of(parts);
    if continued {
        let end = LexFault {
            line: cut.place.number,
            column: cut.place.width + 1,
            why: LexWhy::OpenEnd,
        };
        return go_on(
            cut,
            Some(OpenLine {
                line,
                parts,
                end,
                long: None,
            }),
            None,
        );
    }
    go_on(cut, None, Some(ParmLine { line, parts }))
}

/// Parts, and those of the next line.
fn joined_parts(before: Parts, more: Vec<ParmPart>) -> Result<Vec<ParmPart>, AllocError>
    ensures { IfOk result (λ parts. parts.items ≡ before ++ more.items) }
{
    let mut parts = before.into_vec();
    let mut more = more;
    parts.append(&mut more)?;
    Ok(parts)
}
