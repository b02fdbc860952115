// The lines of a file.
ghost use Rattle.std.specs.Prelude.{◌≡◌, ◌≤◌, ◌<◌, ◌++◌, ℕ, List, Result, [], IfOk, IfErr, OnOk, length};
ghost use Rattle.std.specs.Option.{option_to_list};
ghost use Rattle.parm_lex.specs.Grammar.{GivesBy};
ghost use Rattle.parm_lex.specs.Lines.{FileAt, FilesAreRead, FilesAreReadOnce, LinesAt};
ghost use Rattle.parm_lex.specs.Spans.{AreLinesOf};
ghost use Rattle.parm_lex.specs.declared.fault.LexFault.{LexFault};
ghost use Rattle.parm_lex.specs.declared.fault.LexRefused.TheVariants.{NoMemory};
ghost use Rattle.parm_lex.specs.declared.line.ParmLine.{ParmLine};

use crate::fault::{LexFault, LexRefused, LexWhy};
use crate::line::{ParmLine, file_step, first_cut};
use std::alloc::Global;

/// The most bytes of a file.
const MOST_BYTES: usize = 1_048_576;

/// Adds a definition, if there is one.
fn keep(lines: &mut Vec<ParmLine>, line: Option<ParmLine>) -> Result<(), LexRefused>
    ensures ok { OnOk result (lines.new.items ≡ lines.old.items ++ option_to_list line) }
    ensures err { IfErr result (λ refused. refused ≡ NoMemory) }
{
    if let Some(line) = line {
        lines.push(line)?;
    }
    Ok(())
}

/// The definitions of a file that has a byte, and isn't too long.
fn file_lines(alloc: Global, bytes: &[u8]) -> Result<Vec<ParmLine>, LexRefused>
    requires some { 0 < length bytes.now }
    requires short { length bytes.now ≤ 1048576 }
    ensures { GivesBy (λ lines. lines.items) (LinesAt bytes.now) result }
{
    let total = bytes.len() as u32;
    let mut lines = Vec::new(alloc);
    let mut rest = bytes;
    let mut number = 1;
    let mut held = None;
    loop {
        let cut = first_cut(total, number, rest);
        let (line, last, open) = file_step(alloc, cut, held)?;
        keep(&mut lines, line)?;
        if last {
            return Ok(lines);
        }
        rest = cut.after;
        number += 1;
        held = open;
    }
}

/// The definitions of a file, or its first fault.
fn read_file(alloc: Global, bytes: &[u8]) -> Result<Vec<ParmLine>, LexRefused>
    ensures { GivesBy (λ lines. lines.items) (FileAt bytes.now) result }
{
    if bytes.len() > MOST_BYTES {
        return Err(LexRefused::Fault(LexFault {
            line: 0,
            column: 0,
            why: LexWhy::FileTooLong,
        }));
    }
    if bytes.is_empty() {
        return Ok(Vec::new(alloc));
    }
    file_lines(alloc, bytes)
}

/// The definitions of a parameter file, each with the parts of its line and of those that continue it, or the first fault. The empty
/// file has none.
pub fn lines(alloc: Global, bytes: &[u8]) -> Result<Vec<ParmLine>, LexRefused>
    // What is read is what the grammar says, and so is the fault.
    ensures found { GivesBy (λ lines. lines.items) (FileAt bytes.now) result }
    // What the grammar says is read, unless memory runs out, and so is the fault.
    ensures only { (read : Result (List ParmLine) LexFault) → FileAt bytes.now read → GivesBy (λ lines. lines.items) (λ given. given ≡ read) result }
    // What is read are pieces of printable text of the file, in order.
    ensures spans { IfOk result (λ lines. AreLinesOf bytes.now lines.items) }
{
    read_file(alloc, bytes)
}

/// A file has one reading and always one: its definitions, or its first fault.
pub fn file_is_read_once()
    ensures one { FilesAreReadOnce }
    ensures some { FilesAreRead }
{}
