// A parameter file's plan.
ghost use Rattle.std.specs.Prelude.{◌≡◌, ◌≤◌, IfOk, Ok, length};
ghost use Rattle.parm_lex.specs.Spans.{AreLinesOf};
ghost use Rattle.parm_lex.specs.Lines.{FileAt};
ghost use Rattle.parm_records.specs.Ranges.{AreDefs};
ghost use Rattle.plan_types.specs.Valid.{IsPlan};
ghost use Rattle.run_plan.specs.Outcomes.{Gives as GivesPlan};
ghost use Rattle.run_plan.specs.Plans.{plan_at};
ghost use Rattle.plan_file.specs.Files.{Gives, Stops, refused_by};
ghost use Rattle.parm_defs.specs.File.{read_of};
ghost use Rattle.parm_defs.specs.Records.{shown};

use crate::words::{defs_word, lex_word, plan_word};
use parm_defs::{Definitions, DefsRefused};
use parm_lex::{LexRefused, ParmLine, lines};
use plan_types::Plan;
use run_plan::{PlanRefused, plan_of};
use run_report::{parameter_column_line, parameter_line};
use std::alloc::Global;
use vd_outside::{NoMemory, Text};

/// Why a parameter file has no plan.
#[derive(Drop)]
pub enum Unplanned {
    /// It is refused, with this line.
    Refused(Text),
    /// Memory ran out.
    NoMemory,
}

fn refused(line: Result<Text, NoMemory>) -> Unplanned
    ensures { result ≡ refused_by line }
{
    match line {
        Ok(line) => Unplanned::Refused(line),
        Err(_) => Unplanned::NoMemory,
    }
}

/// The lines of a file.
fn lines_in(alloc: Global, bytes: &[u8]) -> Result<Vec<ParmLine>, Unplanned>
    ensures stops { Stops bytes.now result }
    ensures read { IfOk result (λ lines. FileAt bytes.now (Ok lines.items)) }
    ensures spans { IfOk result (λ lines. AreLinesOf bytes.now lines.items) }
{
    match lines(alloc, bytes) {
        Ok(lines) => Ok(lines),
        Err(LexRefused::Fault(fault)) => {
            let why = lex_word(fault.why);
            Err(refused(parameter_column_line(alloc, fault.line, fault.column, why)))
        }
        Err(LexRefused::NoMemory) => Err(Unplanned::NoMemory),
    }
}

/// The definitions of a file's lines.
fn defs_in(alloc: Global, bytes: &[u8], lines: &[ParmLine]) -> Result<Definitions, Unplanned>
    requires read { FileAt bytes.now (Ok lines.now) }
    requires spans { AreLinesOf bytes.now lines.now }
    ensures stops { Stops bytes.now result }
    ensures defined { IfOk result (λ defs. read_of bytes.now lines.now ≡ Ok (shown defs)) }
    ensures ranges { IfOk result AreDefs }
{
    match Definitions::read(alloc, bytes, lines) {
        Ok(defs) => Ok(defs),
        Err(DefsRefused::Fault(fault)) => {
            let why = defs_word(fault.kind);
            Err(refused(parameter_line(alloc, fault.line, why)))
        }
        Err(DefsRefused::NoMemory) => Err(Unplanned::NoMemory),
    }
}

/// The plan of a file's definitions, or their first refusal.
pub fn plans(alloc: Global, defs: &Definitions) -> Result<Plan, PlanRefused>
    requires { AreDefs defs.now }
    ensures gives { GivesPlan result (plan_at defs.now) }
    ensures valid { IfOk result IsPlan }
{
    plan_of(
        alloc,
        defs.general(),
        defs.hds(),
        defs.sds(),
        defs.wds(),
        defs.rds(),
        defs.fsds(),
        defs.fwds(),
    )
}

/// The plan of a file's definitions, or the line that refuses it.
fn plan_in(
    alloc: Global,
    bytes: &[u8],
    lines: &[ParmLine],
    defs: &Definitions,
) -> Result<Plan, Unplanned>
    requires read { FileAt bytes.now (Ok lines.now) }
    requires defined { read_of bytes.now lines.now ≡ Ok (shown defs.now) }
    requires ranges { AreDefs defs.now }
    ensures plans { Gives bytes.now result }
    ensures valid { IfOk result IsPlan }
{
    let _lines = lines;
    match plans(alloc, defs) {
        Ok(plan) => Ok(plan),
        Err(PlanRefused::Fault(fault)) => {
            let why = plan_word(fault.kind);
            Err(refused(parameter_line(alloc, fault.line, why)))
        }
        Err(PlanRefused::NoMemory) => Err(Unplanned::NoMemory),
    }
}

/// The plan of a parameter file of these bytes, or the line that says why it has none: its first fault, of its lines, then of its
/// definitions, then of the plan.
pub fn plan_of_file(alloc: Global, bytes: &[u8]) -> Result<Plan, Unplanned>
    // What is answered is what the file asks for.
    ensures plans { Gives bytes.now result }
    // A plan is valid.
    ensures valid { IfOk result IsPlan }
{
    let lines = lines_in(alloc, bytes)?;
    let defs = defs_in(alloc, bytes, lines.as_slice())?;
    plan_in(alloc, bytes, lines.as_slice(), &defs)
}
