// Workloads with the stores that they select.
ghost use Rattle.std.specs.Prelude.{◌≡◌, ◌<◌, ◌^◌, [], All, IfOk, IfSome, length, map};
ghost use Rattle.parm_records.specs.Ranges.{IsBlockSize, IsSd, IsWd};
ghost use Rattle.run_plan.specs.Outcomes.{Gives, GivesOne, Passes, in_turn};
ghost use Rattle.run_plan.specs.Plans.{hosts_fault};
ghost use Rattle.run_plan.specs.Workloads.{workload_at, workload_of};

use crate::fault::PlanRefused;
use crate::hosts::selected;
use crate::texts::copied;
use parm_records::{SdDef, WdDef};
use std::alloc::{AllocError, Global};
use vd_list::Items;
use vd_outside::Text;

/// A workload with the stores that it selects.
#[derive(Drop)]
pub struct Workload {
    pub name: Text,
    pub skew: Option<u32>,
    pub xfersize: u32,
    pub rdpct: u32,
    pub seekpct: u32,
    /// The places of its stores, rising.
    pub stores: Items<u32>,
}

/// Each store's patterns of hosts fit a host.
pub(crate) fn check_hosts(alloc: Global, hosts: &[Text], sds: &[SdDef]) -> Result<(), PlanRefused>
    requires sds { All IsSd sds.now }
    requires hosts { length hosts.now < 2 ^ 32 }
    ensures { Passes result (hosts_fault hosts.now sds.now) }
{
    for d in sds {
        selected(alloc, d.line, d.host.as_slice(), hosts)?;
    }
    Ok(())
}

/// The names of stores.
pub(crate) fn store_names(alloc: Global, sds: &[SdDef]) -> Result<Vec<Text>, AllocError>
    ensures { IfOk result (λ names. names.items ≡ map (λ sd. sd.name) sds.now) }
{
    let mut names = Vec::new(alloc);
    for d in sds {
        names.push(copied(alloc, &d.name)?)?;
    }
    Ok(names)
}

fn skew_of(skew: Option<u64>) -> Option<u32>
    requires { IfSome skew (λ n. n < 2 ^ 32) }
    ensures { result ≡ skew }
{
    skew.map(|n| n as u32)
}

fn workload_of(alloc: Global, d: &WdDef, stores: Items<u32>) -> Result<Workload, AllocError>
    requires { IsWd d.now }
    ensures value { IfOk result (λ workload. workload ≡ workload_of d.now stores) }
    ensures transfer { IfOk result (λ workload. IsBlockSize workload.xfersize) }
{
    Ok(Workload {
        name: copied(alloc, &d.name)?,
        skew: skew_of(d.skew),
        xfersize: d.xfersize as u32,
        rdpct: d.rdpct as u32,
        seekpct: d.seekpct as u32,
        stores,
    })
}

/// A workload with its stores, or why it selects nothing.
fn workload_at(
    alloc: Global,
    stores: &[Text],
    hosts: &[Text],
    d: &WdDef,
) -> Result<Workload, PlanRefused>
    requires ranges { IsWd d.now }
    requires stores { length stores.now < 2 ^ 32 }
    requires hosts { length hosts.now < 2 ^ 32 }
    ensures gives { GivesOne result (workload_at stores.now hosts.now [] d.now) }
    ensures transfer { IfOk result (λ workload. IsBlockSize workload.xfersize) }
{
    let places = selected(alloc, d.line, d.sd.as_slice(), stores)?;
    selected(alloc, d.line, d.host.as_slice(), hosts)?;
    Ok(workload_of(alloc, d, places)?)
}

/// The workloads with their stores, or the first that selects nothing.
pub(crate) fn workloads_of(
    alloc: Global,
    stores: &[Text],
    hosts: &[Text],
    wds: &[WdDef],
) -> Result<Items<Workload>, PlanRefused>
    requires ranges { All IsWd wds.now }
    requires stores { length stores.now < 2 ^ 32 }
    requires hosts { length hosts.now < 2 ^ 32 }
    ensures gives { Gives result (in_turn (workload_at stores.now hosts.now) [] wds.now) }
    ensures many { IfOk result (λ workloads. length workloads ≡ length wds.now) }
    ensures transfers { IfOk result (λ workloads. All (λ w. IsBlockSize w.xfersize) workloads) }
{
    let mut workloads = Vec::new(alloc);
    for d in wds {
        workloads.push(workload_at(alloc, stores, hosts, d)?)?;
    }
    Ok(Items::of(workloads))
}
