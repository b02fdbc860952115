// The definitions of a file, line by line.
ghost use Rattle.std.specs.Prelude.{◌≡◌, ◌∷◌, All, IfOk, map};
ghost use Rattle.parm_lex.specs.Spans.{IsLineOf, IsPartOf};
ghost use Rattle.parm_defs.specs.Answers.{Gives};
ghost use Rattle.parm_defs.specs.File.{after_kind, after_line, after_lines, fresh, kind_of, start};
ghost use Rattle.parm_defs.specs.Parts.{part_of};

use crate::fault::DefsRefused;
use crate::given::{Given, after_parts};
use crate::whole::{KindSoFar, after_def};
use parm_forms::{Kind, defaults};
use parm_lex::{ParmLine, ParmPart};
use std::alloc::Global;
use vd_list::Items;
use vd_outside::NoMemory;

/// What stands in a file so far.
#[derive(Drop)]
pub struct SoFar {
    pub general: Given,
    pub hd: KindSoFar,
    pub sd: KindSoFar,
    pub wd: KindSoFar,
    pub rd: KindSoFar,
    pub fsd: KindSoFar,
    pub fwd: KindSoFar,
    /// Whether a definition of a store, or of a workload over stores, stands in it.
    pub blocks: bool,
    /// The same of file systems.
    pub files: bool,
}

/// The kind of a line by its first word.
fn kind_of(word: &[u8]) -> Kind
    ensures { result ≡ kind_of word.now }
{
    if word == b"hd".as_slice() {
        Kind::Hd
    } else if word == b"sd".as_slice() {
        Kind::Sd
    } else if word == b"wd".as_slice() {
        Kind::Wd
    } else if word == b"rd".as_slice() {
        Kind::Rd
    } else if word == b"fsd".as_slice() {
        Kind::Fsd
    } else if word == b"fwd".as_slice() {
        Kind::Fwd
    } else {
        Kind::General
    }
}

/// One line more.
fn after_line(
    alloc: Global,
    bytes: &[u8],
    so_far: SoFar,
    line: &ParmLine,
) -> Result<SoFar, DefsRefused>
    requires { IsLineOf bytes.now line.now }
    ensures { Gives (λ next. next) result (after_line so_far line.now.line (map (part_of bytes.now) line.now.parts)) }
{
    match line.parts.as_slice() {
        [] => Ok(so_far),
        [first, rest @ ..] => {
            let kind = kind_of(first.word.bytes_in(bytes));
            after_kind(
                alloc,
                bytes,
                kind,
                so_far,
                line.line,
                line.parts.as_slice(),
                first,
                rest,
            )
        }
    }
}

/// One line of a kind more.
fn after_kind(
    alloc: Global,
    bytes: &[u8],
    kind: Kind,
    so_far: SoFar,
    line: u32,
    all: &[ParmPart],
    first: &ParmPart,
    rest: &[ParmPart],
) -> Result<SoFar, DefsRefused>
    requires all { All (IsPartOf bytes.now) all.now }
    requires split { all.now ≡ first.now ∷ rest.now }
    ensures { Gives (λ next. next) result (after_kind kind so_far line (part_of bytes.now first.now) (map (part_of bytes.now) rest.now)) }
{
    match kind {
        Kind::General => {
            let general = after_parts(alloc, bytes, kind, false, so_far.general, all)?;
            Ok(SoFar { general, ..so_far })
        }
        Kind::Hd => {
            let hd = after_def(alloc, bytes, kind, false, so_far.hd, line, first, rest)?;
            Ok(SoFar { hd, ..so_far })
        }
        Kind::Sd => {
            let sd = after_def(
                alloc,
                bytes,
                kind,
                so_far.files,
                so_far.sd,
                line,
                first,
                rest,
            )?;
            Ok(SoFar {
                sd,
                blocks: true,
                ..so_far
            })
        }
        Kind::Wd => {
            let wd = after_def(
                alloc,
                bytes,
                kind,
                so_far.files,
                so_far.wd,
                line,
                first,
                rest,
            )?;
            Ok(SoFar {
                wd,
                blocks: true,
                ..so_far
            })
        }
        Kind::Rd => {
            let rd = after_def(alloc, bytes, kind, false, so_far.rd, line, first, rest)?;
            Ok(SoFar { rd, ..so_far })
        }
        Kind::Fsd => {
            let fsd = after_def(
                alloc,
                bytes,
                kind,
                so_far.blocks,
                so_far.fsd,
                line,
                first,
                rest,
            )?;
            Ok(SoFar {
                fsd,
                files: true,
                ..so_far
            })
        }
        Kind::Fwd => {
            let fwd = after_def(
                alloc,
                bytes,
                kind,
                so_far.blocks,
                so_far.fwd,
                line,
                first,
                rest,
            )?;
            Ok(SoFar {
                fwd,
                files: true,
                ..so_far
            })
        }
    }
}

/// What stands of a kind before the first line.
fn fresh(alloc: Global, kind: Kind) -> Result<KindSoFar, NoMemory>
    ensures { IfOk result (λ so_far. so_far ≡ fresh kind) }
{
    Ok(KindSoFar {
        default: Items::of(defaults(alloc, kind)?),
        defs: Items::of(Vec::new(alloc)),
    })
}

/// What stands before the first line.
fn start(alloc: Global) -> Result<SoFar, NoMemory>
    ensures { IfOk result (λ so_far. so_far ≡ start) }
{
    let general = Given {
        values: Items::of(defaults(alloc, Kind::General)?),
        words: Items::of(Vec::new(alloc)),
    };
    Ok(SoFar {
        general,
        hd: fresh(alloc, Kind::Hd)?,
        sd: fresh(alloc, Kind::Sd)?,
        wd: fresh(alloc, Kind::Wd)?,
        rd: fresh(alloc, Kind::Rd)?,
        fsd: fresh(alloc, Kind::Fsd)?,
        fwd: fresh(alloc, Kind::Fwd)?,
        blocks: false,
        files: false,
    })
}

/// The lines in order, up to the first fault.
pub fn all_lines(alloc: Global, bytes: &[u8], lines: &[ParmLine]) -> Result<SoFar, DefsRefused>
    requires { All (IsLineOf bytes.now) lines.now }
    ensures { Gives (λ so_far. so_far) result (after_lines bytes.now start lines.now) }
{
    let mut so_far = start(alloc)?;
    for line in lines {
        so_far = after_line(alloc, bytes, so_far, line)?;
    }
    Ok(so_far)
}
