// From run definitions to runs, without workers.
ghost use Rattle.std.specs.Prelude.{◌≡◌, ◌++◌, ◌<◌, ◌≤◌, ◌+◌, ◌==◌, ◌^◌, [], nat_lt, All, IfOk, List, OnOk, Some, codes, length, map, slice_get, slice_index};
ghost use Rattle.std.specs.List.{list_any};
ghost use Rattle.std.specs.Str.{bytes_eq};
ghost use Rattle.parm_records.specs.Ranges.{IsRd};
ghost use Rattle.plan_types.specs.Valid.{intervals_of};
ghost use Rattle.run_plan.specs.Drafts.{IsDraft, IsWork};
ghost use Rattle.run_plan.specs.Loops.{count_of};
ghost use Rattle.run_plan.specs.Outcomes.{Gives, GivesMore, in_turn};
ghost use Rattle.run_plan.specs.Runs.{admitted_at, draft_of, drafts_of, format_kind, is_crowded, numbers_kind, or_else, picks_at, picks_of, runs_at, share_of, shares_at, shares_of, skew_of, skews_of, stores_at, stores_of, threads_at, wanted_kind, workers_many};

use crate::fault::{PlanFault, PlanKind, PlanRefused, stop};
use crate::hosts::selected;
use crate::loops::{Settings, count_of, push_settings};
use crate::texts::copied;
use crate::weights::weights_at;
use crate::workloads::Workload;
use parm_records::RdDef;
use plan_types::{Format, RunPlan, Share};
use std::alloc::{AllocError, Global};
use vd_list::Items;
use vd_outside::Text;

/// What run definitions choose from.
#[derive(Drop)]
pub struct Work {
    /// The workloads' names.
    pub names: Items<Text>,
    pub workloads: Items<Workload>,
    /// The stores' workers.
    pub threads: Items<u32>,
    /// All slaves of all hosts.
    pub slaves: u32,
}

/// A workload of a run definition.
#[derive(Clone, Copy, Debug, PartialEq, Eq, Drop)]
pub struct Pick {
    /// Its place among the workloads.
    pub place: u32,
    pub weight: u32,
}

/// A run whose workers aren't dealt yet.
#[derive(Drop)]
pub struct Draft {
    pub run: RunPlan,
    /// The workers of each of its stores, where a loop says so.
    pub threads: Option<u32>,
}

pub(crate) fn or_else(value: Option<u32>, own: u32) -> u32
    ensures { result ≡ or_else value own }
{
    match value {
        Some(value) => value,
        None => own,
    }
}

fn number_at(numbers: &[u32], i: u32) -> u32
    ensures { result ≡ slice_index numbers.now i }
{
    match numbers.get(i as usize) {
        Some(number) => *number,
        None => 0,
    }
}

fn share_of(
    alloc: Global,
    w: &Workload,
    settings: Settings,
    weight: u32,
    store: u32,
) -> Result<Share, AllocError>
    ensures { IfOk result (λ share. share ≡ share_of w.now settings weight store) }
{
    Ok(Share {
        workload: copied(alloc, &w.name)?,
        store,
        xfersize: or_else(settings.xfersize, w.xfersize),
        rdpct: or_else(settings.rdpct, w.rdpct),
        seekpct: w.seekpct,
        weight,
    })
}

/// Adds the shares of a workload, store by store.
fn push_shares(
    alloc: Global,
    w: &Workload,
    settings: Settings,
    weight: u32,
    shares: &mut Vec<Share>,
) -> Result<(), AllocError>
    ensures { OnOk result (shares.new.items ≡ shares.old.items ++ map (share_of w.now settings weight) w.now.stores) }
{
    for store in w.stores.as_slice() {
        shares.push(share_of(alloc, w, settings, weight, *store)?)?;
    }
    Ok(())
}

/// Adds the shares of the workload at a place, where there is one.
fn push_shares_at(
    alloc: Global,
    workloads: &[Workload],
    settings: Settings,
    pick: Pick,
    shares: &mut Vec<Share>,
) -> Result<(), AllocError>
    ensures { OnOk result (shares.new.items ≡ shares.old.items ++ shares_at (slice_get workloads.now pick.place) settings pick.weight) }
{
    match workloads.get(pick.place as usize) {
        None => Ok(()),
        Some(w) => push_shares(alloc, w, settings, pick.weight, shares),
    }
}

/// The shares of a run, workload by workload, and in it store by store.
fn shares_of(
    alloc: Global,
    workloads: &[Workload],
    settings: Settings,
    picks: &[Pick],
) -> Result<Items<Share>, AllocError>
    ensures { IfOk result (λ shares. shares ≡ shares_of workloads.now settings picks.now) }
{
    let mut shares = Vec::new(alloc);
    for pick in picks {
        push_shares_at(alloc, workloads, settings, *pick, &mut shares)?;
    }
    Ok(Items::of(shares))
}

fn is_used(shares: &[Share], store: u32) -> bool
    ensures { result ≡ list_any (λ share. share.store == store) shares.now }
{
    shares.iter().any(|share| share.store == store)
}

/// The stores of shares, in order of definition.
pub(crate) fn stores_of(alloc: Global, many: u32, shares: &[Share]) -> Result<Vec<u32>, AllocError>
    ensures value { IfOk result (λ stores. stores.items ≡ stores_of many shares.now) }
    ensures few { IfOk result (λ stores. length stores.items ≤ many) }
{
    let mut stores = Vec::new(alloc);
    for store in 0..many {
        if is_used(shares, store) {
            stores.push(store)?;
        }
    }
    Ok(stores)
}

fn threads_at(threads: &[u32], choice: Option<u32>, store: u32) -> u32
    ensures { result ≡ threads_at threads.now choice store }
{
    or_else(choice, number_at(threads, store))
}

/// How many workers stores have together.
fn workers_many(threads: &[u32], stores: &[u32], choice: Option<u32>) -> u64
    requires { length stores.now ≤ 64 }
    ensures { result ≡ workers_many threads.now stores.now choice }
{
    let mut many = 0;
    for store in stores {
        many += threads_at(threads, choice, *store) as u64;
    }
    many
}

fn has_threads(words: &[Text]) -> bool
    ensures { result ≡ list_any (λ word. bytes_eq word (codes "forthreads")) words.now }
{
    words
        .iter()
        .any(|word| word.as_bytes() == b"forthreads".as_slice())
}

/// Whether some value of the loop over workers gives more than 512.
fn any_crowds(threads: &[u32], stores: &[u32], values: &[u64]) -> bool
    requires few { length stores.now ≤ 64 }
    requires small { All (λ value. value < 2 ^ 32) values.now }
    ensures { result ≡ list_any (λ value. nat_lt 512 (workers_many threads.now stores.now (Some value))) values.now }
{
    for value in values {
        if workers_many(threads, stores, Some(*value as u32)) > 512 {
            return true;
        }
    }
    false
}

/// Whether some run of the loops has more than 512 workers.
fn is_crowded(threads: &[u32], stores: &[u32], d: &RdDef) -> bool
    requires few { length stores.now ≤ 64 }
    requires ranges { IsRd d.now }
    ensures { result ≡ is_crowded threads.now stores.now d.now }
{
    if has_threads(d.loops.as_slice()) {
        any_crowds(threads, stores, d.forthreads.as_slice())
    } else {
        workers_many(threads, stores, None) > 512
    }
}

fn skew_at(workloads: &[Workload], place: u32) -> Option<u32>
    ensures { result ≡ skew_of (slice_get workloads.now place) }
{
    match workloads.get(place as usize) {
        Some(w) => w.skew,
        None => None,
    }
}

/// The weights that workloads are given.
fn skews_of(
    alloc: Global,
    workloads: &[Workload],
    places: &[u32],
) -> Result<Vec<Option<u32>>, AllocError>
    ensures { IfOk result (λ skews. skews.items ≡ skews_of workloads.now places.now) }
{
    let mut skews = Vec::new(alloc);
    for place in places {
        skews.push(skew_at(workloads, *place))?;
    }
    Ok(skews)
}

fn picks_of(alloc: Global, places: &[u32], weights: &[u32]) -> Result<Items<Pick>, AllocError>
    requires { length places.now < 2 ^ 32 }
    ensures { IfOk result (λ picks. picks ≡ picks_of places.now weights.now) }
{
    let mut picks = Vec::new(alloc);
    for i in 0..places.len() as u32 {
        picks.push(Pick {
            place: number_at(places, i),
            weight: number_at(weights, i),
        })?;
    }
    Ok(Items::of(picks))
}

fn kind_of_wanted(d: &RdDef) -> Option<PlanKind>
    ensures { result ≡ wanted_kind d.now }
{
    if d.fwd.as_slice().is_empty() {
        None
    } else {
        Some(PlanKind::NothingSelected)
    }
}

fn kind_of_format(d: &RdDef) -> Option<PlanKind>
    ensures { result ≡ format_kind d.now }
{
    if d.format.as_bytes() == b"no".as_slice() {
        None
    } else {
        Some(PlanKind::WrongKind)
    }
}

/// The workloads of a run definition and their weights.
fn picks_at(alloc: Global, work: &Work, d: &RdDef) -> Result<Items<Pick>, PlanRefused>
    requires names { length work.now.names ≤ 64 }
    requires ranges { IsRd d.now }
    ensures { Gives result (picks_at work.now d.now) }
{
    stop(d.line, kind_of_wanted(d))?;
    let places = selected(alloc, d.line, d.wd.as_slice(), work.names.as_slice())?;
    stop(d.line, kind_of_format(d))?;
    let skews = skews_of(alloc, work.workloads.as_slice(), places.as_slice())?;
    let weights = weights_at(alloc, d.line, skews.as_slice())?;
    Ok(picks_of(alloc, places.as_slice(), weights.as_slice())?)
}

/// The stores of each of its runs.
fn stores_at(alloc: Global, work: &Work, picks: &[Pick]) -> Result<Vec<u32>, AllocError>
    requires { length work.now.threads ≤ 64 }
    ensures value { IfOk result (λ stores. stores.items ≡ stores_at work.now picks.now) }
    ensures few { IfOk result (λ stores. length stores.items ≤ 64) }
{
    let as_defined = Settings {
        threads: None,
        xfersize: None,
        rdpct: None,
    };
    let shares = shares_of(alloc, work.workloads.as_slice(), as_defined, picks)?;
    stores_of(
        alloc,
        work.threads.as_slice().len() as u32,
        shares.as_slice(),
    )
}

fn intervals_of(d: &RdDef) -> u64
    requires { IsRd d.now }
    ensures { result ≡ intervals_of d.now.elapsed d.now.interval }
{
    (d.elapsed + d.interval - 1) / d.interval
}

/// Whether intervals, workers or runs are too many; `stores` are those of its runs.
fn numbers_kind(work: &Work, d: &RdDef, stores: &[u32], before: u32) -> Option<PlanKind>
    requires ranges { IsRd d.now }
    requires few { length stores.now ≤ 64 }
    requires before { before ≤ 1000 }
    ensures { result ≡ numbers_kind work.now d.now stores.now before }
{
    if intervals_of(d) > 100_000 {
        return Some(PlanKind::IntervalsMany);
    }
    if is_crowded(work.threads.as_slice(), stores, d) {
        return Some(PlanKind::WorkersMany);
    }
    if count_of(d) > 1000 - before as u64 {
        return Some(PlanKind::RunsMany);
    }
    None
}

fn draft_of(
    alloc: Global,
    work: &Work,
    d: &RdDef,
    picks: &[Pick],
    number: u32,
    settings: Settings,
) -> Result<Draft, AllocError>
    requires { IsRd d.now }
    ensures { IfOk result (λ draft. draft ≡ draft_of work.now d.now picks.now number settings) }
{
    Ok(Draft {
        run: RunPlan {
            number,
            line: d.line,
            name: copied(alloc, &d.name)?,
            iorate: d.iorate as u32,
            elapsed: d.elapsed as u32,
            interval: d.interval as u32,
            turns: d.turns as u32,
            format: Format::No,
            slaves: work.slaves,
            shares: shares_of(alloc, work.workloads.as_slice(), settings, picks)?,
            workers: Items::of(Vec::new(alloc)),
        },
        threads: settings.threads,
    })
}

/// Adds the runs of a definition, numbered behind those before.
fn push_drafts(
    alloc: Global,
    work: &Work,
    d: &RdDef,
    picks: &[Pick],
    all: &[Settings],
    runs: &mut Vec<Draft>,
) -> Result<(), AllocError>
    requires ranges { IsRd d.now }
    requires few { length runs.old.items + length all.now ≤ 1000 }
    ensures many { OnOk result (length runs.new.items ≡ length runs.old.items + length all.now) }
    ensures value { OnOk result (runs.new.items ≡ runs.old.items ++ drafts_of work.now d.now picks.now (length runs.old.items + 1) all.now) }
{
    for settings in all {
        let number = runs.len() as u32 + 1;
        runs.push(draft_of(alloc, work, d, picks, number, *settings)?)?;
    }
    Ok(())
}

/// The workloads of a run definition behind so many runs, where its numbers are within the limits.
fn admitted(alloc: Global, work: &Work, d: &RdDef, before: u32) -> Result<Items<Pick>, PlanRefused>
    requires ranges { IsRd d.now }
    requires work { IsWork work.now }
    requires before { before ≤ 1000 }
    ensures gives { Gives result (admitted_at work.now before d.now) }
    ensures few { IfOk result (λ picks. before + count_of d.now d.now.loops ≤ 1000) }
{
    let picks = picks_at(alloc, work, d)?;
    let stores = stores_at(alloc, work, picks.as_slice())?;
    match numbers_kind(work, d, stores.as_slice(), before) {
        None => Ok(picks),
        Some(kind) => Err(PlanRefused::Fault(PlanFault { line: d.line, kind })),
    }
}

/// Adds the runs of a definition, or refuses it.
fn push_runs(
    alloc: Global,
    work: &Work,
    d: &RdDef,
    runs: &mut Vec<Draft>,
) -> Result<(), PlanRefused>
    requires ranges { IsRd d.now }
    requires work { IsWork work.now }
    requires before { length runs.old.items ≤ 1000 }
    requires drafts { All IsDraft runs.old.items }
    ensures gives { GivesMore result runs.old.items runs.new.items (runs_at work.now runs.old.items d.now) }
    ensures few { OnOk result (length runs.new.items ≤ 1000) }
    ensures all { OnOk result (All IsDraft runs.new.items) }
{
    let picks = admitted(alloc, work, d, runs.len() as u32)?;
    let mut all = Vec::new(alloc);
    let as_defined = Settings {
        threads: None,
        xfersize: None,
        rdpct: None,
    };
    push_settings(d, d.loops.as_slice(), as_defined, &mut all)?;
    push_drafts(alloc, work, d, picks.as_slice(), all.as_slice(), runs)?;
    Ok(())
}

/// The runs of all definitions, or the first that is refused.
pub(crate) fn drafts(alloc: Global, work: &Work, rds: &[RdDef]) -> Result<Items<Draft>, PlanRefused>
    requires ranges { All IsRd rds.now }
    requires work { IsWork work.now }
    ensures gives { Gives result (in_turn (runs_at work.now) [] rds.now) }
    ensures few { IfOk result (λ runs. length runs ≤ 1000) }
    ensures all { IfOk result (λ runs. All IsDraft runs) }
{
    let mut runs = Vec::new(alloc);
    for d in rds {
        push_runs(alloc, work, d, &mut runs)?;
    }
    Ok(Items::of(runs))
}
