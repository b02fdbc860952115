// Hosts, and selections.
ghost use Rattle.std.specs.Prelude.{◌≡◌, ◌<◌, ◌≤◌, ◌^◌, All, IfOk, length};
ghost use Rattle.parm_records.specs.Ranges.{IsHd, IsShort};
ghost use Rattle.run_plan.specs.Hosts.{host_names, selected, slaves_of};
ghost use Rattle.run_plan.specs.Outcomes.{Gives};

use crate::fault::{PlanFault, PlanKind, PlanRefused};
use crate::texts::copied;
use parm_records::HdDef;
use std::alloc::{AllocError, Global};
use vd_list::Items;
use vd_outside::Text;
use wildcards::{SelectFault, select};

/// The names that patterns of hosts select from.
pub(crate) fn host_names(alloc: Global, hds: &[HdDef]) -> Result<Vec<Text>, AllocError>
    ensures { IfOk result (λ names. names.items ≡ host_names hds.now) }
{
    let mut names = Vec::new(alloc);
    if hds.is_empty() {
        names.push(Text::of(String::from_str(alloc, "localhost")?))?;
        return Ok(names);
    }
    for d in hds {
        names.push(copied(alloc, &d.name)?)?;
    }
    Ok(names)
}

/// How many slaves there are: those of all hosts, or one.
pub(crate) fn slaves_of(hds: &[HdDef]) -> u32
    requires ranges { All IsHd hds.now }
    requires few { length hds.now ≤ 16 }
    ensures count { result ≡ slaves_of hds.now }
    ensures some { 0 < result }
    ensures few { result ≤ 256 }
{
    if hds.is_empty() {
        return 1;
    }
    let mut slaves = 0;
    for d in hds {
        slaves += d.jvms as u32;
    }
    slaves
}

/// The places of the names that a definition's patterns select.
pub(crate) fn selected(
    alloc: Global,
    line: u32,
    patterns: &[Text],
    names: &[Text],
) -> Result<Items<u32>, PlanRefused>
    requires patterns { IsShort patterns.now }
    requires names { length names.now < 2 ^ 32 }
    ensures gives { Gives result (selected line patterns.now names.now) }
    ensures few { IfOk result (λ places. length places ≤ length names.now) }
{
    match select(alloc, patterns, names) {
        Ok(places) => Ok(Items::of(places)),
        Err(SelectFault::Nothing { .. }) => Err(PlanRefused::Fault(PlanFault {
            line,
            kind: PlanKind::NothingSelected,
        })),
        Err(SelectFault::NoMemory) => Err(PlanRefused::NoMemory),
    }
}
