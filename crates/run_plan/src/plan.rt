// From definitions to the plan.
ghost use Rattle.std.specs.Prelude.{◌≡◌, ◌<◌, ◌≤◌, ◌^◌, All, IfOk, length, map};
ghost use Rattle.plan_types.specs.Valid.{IsPlan};
ghost use Rattle.parm_records.specs.Ranges.{AreDefs, IsGeneral, IsHd, IsSd, IsWd};
ghost use Rattle.run_plan.specs.Drafts.{IsWork};
ghost use Rattle.run_plan.specs.Outcomes.{Gives, Passes, or_next};
ghost use Rattle.run_plan.specs.Plans.{hosts_fault, plan_at, plan_of, runs_fault, stores_fault, tree_fault, tree_line, work_over};

use crate::fault::{PlanFault, PlanKind, PlanRefused};
use crate::hosts::{host_names, slaves_of};
use crate::runs::{Work, drafts};
use crate::sizes::stores_of;
use crate::stores::stores_fault;
use crate::texts::{copied, has_word};
use crate::workers::runs_of;
use crate::workloads::{Workload, check_hosts, store_names, workloads_of};
use parm_records::{FsdDef, FwdDef, General, HdDef, RdDef, SdDef, WdDef};
use plan_types::{Plan, RunPlan, StorePlan};
use std::alloc::{AllocError, Global};
use vd_list::Items;
use vd_outside::Text;

/// The line of the first definition of a tree or of a workload over one.
fn tree_line(fsds: &[FsdDef], fwds: &[FwdDef]) -> Option<u32>
    ensures { result ≡ tree_line fsds.now fwds.now }
{
    match (fsds, fwds) {
        ([], []) => None,
        ([fsd, ..], []) => Some(fsd.line),
        ([], [fwd, ..]) => Some(fwd.line),
        ([fsd, ..], [fwd, ..]) => Some(fsd.line.min(fwd.line)),
    }
}

/// Trees aren't built yet.
fn tree_fault(fsds: &[FsdDef], fwds: &[FwdDef]) -> Option<PlanFault>
    ensures { result ≡ tree_fault (tree_line fsds.now fwds.now) }
{
    match tree_line(fsds, fwds) {
        Some(line) => Some(PlanFault {
            line,
            kind: PlanKind::TreeNotBuilt,
        }),
        None => None,
    }
}

/// There is a run.
fn runs_fault(rds: &[RdDef]) -> Option<PlanFault>
    ensures { result ≡ runs_fault rds.now }
{
    if rds.is_empty() {
        return Some(PlanFault {
            line: 0,
            kind: PlanKind::NoRuns,
        });
    }
    None
}

/// What is looked at before the workloads.
fn check_early(
    alloc: Global,
    hosts: &[Text],
    sds: &[SdDef],
    rds: &[RdDef],
    fsds: &[FsdDef],
    fwds: &[FwdDef],
) -> Result<(), PlanRefused>
    requires hosts { length hosts.now < 2 ^ 32 }
    requires sds { All IsSd sds.now }
    ensures { Passes result (or_next (tree_fault (tree_line fsds.now fwds.now)) (or_next (runs_fault rds.now) (or_next (stores_fault sds.now) (hosts_fault hosts.now sds.now)))) }
{
    if let Some(fault) = tree_fault(fsds, fwds) {
        return Err(PlanRefused::Fault(fault));
    }
    if let Some(fault) = runs_fault(rds) {
        return Err(PlanRefused::Fault(fault));
    }
    if let Some(fault) = stores_fault(sds) {
        return Err(PlanRefused::Fault(fault));
    }
    check_hosts(alloc, hosts, sds)
}

fn workload_names(alloc: Global, workloads: &[Workload]) -> Result<Items<Text>, AllocError>
    ensures { IfOk result (λ names. names ≡ map (λ w. w.name) workloads.now) }
{
    let mut names = Vec::new(alloc);
    for w in workloads {
        names.push(copied(alloc, &w.name)?)?;
    }
    Ok(Items::of(names))
}

/// The workers of the stores.
fn store_threads(alloc: Global, sds: &[SdDef]) -> Result<Items<u32>, AllocError>
    requires { All IsSd sds.now }
    ensures { IfOk result (λ threads. threads ≡ map (λ sd. sd.threads) sds.now) }
{
    let mut threads = Vec::new(alloc);
    for d in sds {
        threads.push(d.threads as u32)?;
    }
    Ok(Items::of(threads))
}

/// What run definitions choose from, or the first workload that selects nothing.
fn work_at(
    alloc: Global,
    hosts: &[Text],
    hds: &[HdDef],
    sds: &[SdDef],
    wds: &[WdDef],
) -> Result<Work, PlanRefused>
    requires hosts { length hosts.now < 2 ^ 32 }
    requires hds { All IsHd hds.now }
    requires few_hds { length hds.now ≤ 16 }
    requires sds { All IsSd sds.now }
    requires few_sds { length sds.now ≤ 64 }
    requires wds { All IsWd wds.now }
    requires few_wds { length wds.now ≤ 64 }
    ensures gives { Gives result (work_over hosts.now hds.now sds.now wds.now) }
    ensures valid { IfOk result IsWork }
{
    let names = store_names(alloc, sds)?;
    let workloads = workloads_of(alloc, names.as_slice(), hosts, wds)?;
    Ok(Work {
        names: workload_names(alloc, workloads.as_slice())?,
        threads: store_threads(alloc, sds)?,
        slaves: slaves_of(hds),
        workloads,
    })
}

/// The plan of these stores and runs.
fn plan(general: &General, stores: Items<StorePlan>, runs: Items<RunPlan>) -> Plan
    requires { IsGeneral general.now }
    ensures { result ≡ plan_of general.now stores runs }
{
    let validate = general.validate.as_slice();
    Plan {
        stores,
        runs,
        preread: !has_word(validate, b"no_preread".as_slice()),
        reread: has_word(validate, b"read_after_write".as_slice()),
        data_errors: general.data_errors as u32,
        journal_sectors: general.journal_sectors as u32,
        create_anchors: general.create_anchors.as_bytes() == b"yes".as_slice(),
    }
}

/// The plan of a file's definitions, or their first refusal.
///
/// The steps come in order, each over its definitions in order: trees, which aren't built yet; that there is a run; each store's path,
/// size and journal; the hosts of stores, and the stores and hosts of workloads; run definitions; block sizes.
pub fn plan_of(
    alloc: Global,
    general: &General,
    hds: &[HdDef],
    sds: &[SdDef],
    wds: &[WdDef],
    rds: &[RdDef],
    fsds: &[FsdDef],
    fwds: &[FwdDef],
) -> Result<Plan, PlanRefused>
    requires { AreDefs (record { general = general.now; hds = hds.now; sds = sds.now; wds = wds.now; rds = rds.now; fsds = fsds.now; fwds = fwds.now }) }
    ensures gives { Gives result (plan_at (record { general = general.now; hds = hds.now; sds = sds.now; wds = wds.now; rds = rds.now; fsds = fsds.now; fwds = fwds.now })) }
    ensures valid { IfOk result IsPlan }
{
    let hosts = host_names(alloc, hds)?;
    check_early(alloc, hosts.as_slice(), sds, rds, fsds, fwds)?;
    let work = work_at(alloc, hosts.as_slice(), hds, sds, wds)?;
    let drafts = drafts(alloc, &work, rds)?;
    let stores = stores_of(alloc, drafts.as_slice(), sds)?;
    let runs = runs_of(alloc, stores.as_slice(), drafts)?;
    Ok(plan(general, stores, runs))
}
