// What a run prints once it has ended, line by line.
ghost use Rattle.std.specs.Prelude.{◌≡◌, ◌<◌, ◌+◌, ◌^◌, All, OnErr, OnOk, length};
ghost use Rattle.std.specs.List.{flat_map, range_with_len, zip};
ghost use Rattle.run_report.specs.Findings.{IsPrintable, finding_text};
ghost use Rattle.run_report.specs.Runs.{PrintsFindings, PrintsRun, findings_text, interval_text, intervals_text, run_text, slave_text, store_total_text, worked_text};
ghost use Rattle.run_report.specs.Says.{Says, SaysFront, printing};

use crate::finding::finding_line;
use crate::printer::Printer;
use crate::run_lines::{interval_line, slave_line, title_line, total_line};
use crate::run_sums::{Group, row_sums, rows_of_longest, totals_of};
use block_verdict::Finding;
use key_state::Entry;
use plan_types::{RunPlan, StorePlan, WorkerPlan};
use std::alloc::Global;
use vd_base::StoreId;
use vd_outside::{NoMemory, Sink};
use worker_tally::Tally;

/// The lines of a worker's findings, in order.
fn say_found<S: Sink>(
    alloc: Global,
    store: &StoreId,
    findings: &[Finding],
    printer: &mut Printer,
    out: &mut S,
) -> Result<(), NoMemory>
    requires { All (IsPrintable store.now) findings.now }
    ensures ok { OnOk result (Says (printing printer.old.failed (S.taken out.old) (S.faults out.old)) (printing printer.new.failed (S.taken out.new) (S.faults out.new)) (flat_map (finding_text store.now) findings.now)) }
    ensures err { OnErr result (SaysFront (printing printer.old.failed (S.taken out.old) (S.faults out.old)) (printing printer.new.failed (S.taken out.new) (S.faults out.new)) (flat_map (finding_text store.now) findings.now)) }
{
    // The check looks for the types in a finding among those that the body names.
    let _entry: Option<Entry> = None;
    for finding in findings {
        let line = finding_line(alloc, store, finding)?;
        printer.say(out, line.as_str());
    }
    Ok(())
}

fn say_worker<S: Sink>(
    alloc: Global,
    stores: &[StorePlan],
    worker: &WorkerPlan,
    tally: &Tally,
    printer: &mut Printer,
    out: &mut S,
) -> Result<(), NoMemory>
    requires { PrintsFindings stores.now (worker.now, tally.now) }
    ensures ok { OnOk result (Says (printing printer.old.failed (S.taken out.old) (S.faults out.old)) (printing printer.new.failed (S.taken out.new) (S.faults out.new)) (findings_text stores.now (worker.now, tally.now))) }
    ensures err { OnErr result (SaysFront (printing printer.old.failed (S.taken out.old) (S.faults out.old)) (printing printer.new.failed (S.taken out.new) (S.faults out.new)) (findings_text stores.now (worker.now, tally.now))) }
{
    let _entry: Option<Entry> = None;
    let store = &stores[worker.store as usize];
    say_found(alloc, &store.id, tally.findings(), printer, out)
}

/// The lines of all findings, worker by worker.
fn say_workers<S: Sink>(
    alloc: Global,
    stores: &[StorePlan],
    workers: &[WorkerPlan],
    tallies: &[Tally],
    printer: &mut Printer,
    out: &mut S,
) -> Result<(), NoMemory>
    requires many { length tallies.now ≡ length workers.now }
    requires each { All (PrintsFindings stores.now) (zip workers.now tallies.now) }
    ensures ok { OnOk result (Says (printing printer.old.failed (S.taken out.old) (S.faults out.old)) (printing printer.new.failed (S.taken out.new) (S.faults out.new)) (flat_map (findings_text stores.now) (zip workers.now tallies.now))) }
    ensures err { OnErr result (SaysFront (printing printer.old.failed (S.taken out.old) (S.faults out.old)) (printing printer.new.failed (S.taken out.new) (S.faults out.new)) (flat_map (findings_text stores.now) (zip workers.now tallies.now))) }
{
    let _entry: Option<Entry> = None;
    for (i, worker) in workers.iter().enumerate() {
        say_worker(alloc, stores, worker, &tallies[i], printer, out)?;
    }
    Ok(())
}

/// The line of the interval at a place, where a turn ended in it.
#[tactic(auto, unfolding(crate::specs::Runs::interval_text))]
fn say_interval<S: Sink>(
    alloc: Global,
    tallies: &[Tally],
    place: usize,
    printer: &mut Printer,
    out: &mut S,
) -> Result<(), NoMemory>
    requires { place + 1 < 2 ^ 64 }
    ensures ok { OnOk result (Says (printing printer.old.failed (S.taken out.old) (S.faults out.old)) (printing printer.new.failed (S.taken out.new) (S.faults out.new)) (interval_text tallies.now place)) }
    ensures err { OnErr result (SaysFront (printing printer.old.failed (S.taken out.old) (S.faults out.old)) (printing printer.new.failed (S.taken out.new) (S.faults out.new)) (interval_text tallies.now place)) }
{
    let sums = row_sums(tallies, place);
    if sums.turns == 0 {
        return Ok(());
    }
    let line = interval_line(alloc, place as u64 + 1, &sums)?;
    printer.say(out, line.as_str());
    Ok(())
}

/// The lines of the intervals. Each row is read once, and no list of sums is kept.
fn say_intervals<S: Sink>(
    alloc: Global,
    tallies: &[Tally],
    printer: &mut Printer,
    out: &mut S,
) -> Result<(), NoMemory>
    ensures ok { OnOk result (Says (printing printer.old.failed (S.taken out.old) (S.faults out.old)) (printing printer.new.failed (S.taken out.new) (S.faults out.new)) (intervals_text tallies.now)) }
    ensures err { OnErr result (SaysFront (printing printer.old.failed (S.taken out.old) (S.faults out.old)) (printing printer.new.failed (S.taken out.new) (S.faults out.new)) (intervals_text tallies.now)) }
{
    let most = rows_of_longest(tallies);
    for place in 0..most {
        say_interval(alloc, tallies, place, printer, out)?;
    }
    Ok(())
}

#[tactic(auto, unfolding(crate::specs::Runs::slave_text))]
fn say_slave<S: Sink>(
    alloc: Global,
    workers: &[WorkerPlan],
    tallies: &[Tally],
    number: u32,
    printer: &mut Printer,
    out: &mut S,
) -> Result<(), NoMemory>
    requires { length tallies.now ≡ length workers.now }
    ensures ok { OnOk result (Says (printing printer.old.failed (S.taken out.old) (S.faults out.old)) (printing printer.new.failed (S.taken out.new) (S.faults out.new)) (slave_text (zip workers.now tallies.now) number)) }
    ensures err { OnErr result (SaysFront (printing printer.old.failed (S.taken out.old) (S.faults out.old)) (printing printer.new.failed (S.taken out.new) (S.faults out.new)) (slave_text (zip workers.now tallies.now) number)) }
{
    let totals = totals_of(workers, tallies, Group::Slave(number));
    let line = slave_line(alloc, number, &totals)?;
    printer.say(out, line.as_str());
    Ok(())
}

/// The lines of the slaves, with or without workers.
fn say_slaves<S: Sink>(
    alloc: Global,
    slaves: u32,
    workers: &[WorkerPlan],
    tallies: &[Tally],
    printer: &mut Printer,
    out: &mut S,
) -> Result<(), NoMemory>
    requires { length tallies.now ≡ length workers.now }
    ensures ok { OnOk result (Says (printing printer.old.failed (S.taken out.old) (S.faults out.old)) (printing printer.new.failed (S.taken out.new) (S.faults out.new)) (flat_map (slave_text (zip workers.now tallies.now)) (range_with_len 1 slaves))) }
    ensures err { OnErr result (SaysFront (printing printer.old.failed (S.taken out.old) (S.faults out.old)) (printing printer.new.failed (S.taken out.new) (S.faults out.new)) (flat_map (slave_text (zip workers.now tallies.now)) (range_with_len 1 slaves))) }
{
    for before in 0..slaves {
        say_slave(alloc, workers, tallies, before + 1, printer, out)?;
    }
    Ok(())
}

/// The line of the store at a place, where it has a worker.
#[tactic(auto, unfolding(crate::specs::Runs::store_total_text))]
fn say_total<S: Sink>(
    alloc: Global,
    stores: &[StorePlan],
    place: usize,
    workers: &[WorkerPlan],
    tallies: &[Tally],
    printer: &mut Printer,
    out: &mut S,
) -> Result<(), NoMemory>
    requires place { place < length stores.now }
    requires many { length tallies.now ≡ length workers.now }
    ensures ok { OnOk result (Says (printing printer.old.failed (S.taken out.old) (S.faults out.old)) (printing printer.new.failed (S.taken out.new) (S.faults out.new)) (store_total_text stores.now (zip workers.now tallies.now) place)) }
    ensures err { OnErr result (SaysFront (printing printer.old.failed (S.taken out.old) (S.faults out.old)) (printing printer.new.failed (S.taken out.new) (S.faults out.new)) (store_total_text stores.now (zip workers.now tallies.now) place)) }
{
    let totals = totals_of(workers, tallies, Group::Store(place));
    if totals.workers == 0 {
        return Ok(());
    }
    let line = total_line(alloc, &stores[place].id.name, &totals)?;
    printer.say(out, line.as_str());
    Ok(())
}

/// The lines of the stores that have a worker, in order of definition.
fn say_totals<S: Sink>(
    alloc: Global,
    stores: &[StorePlan],
    workers: &[WorkerPlan],
    tallies: &[Tally],
    printer: &mut Printer,
    out: &mut S,
) -> Result<(), NoMemory>
    requires { length tallies.now ≡ length workers.now }
    ensures ok { OnOk result (Says (printing printer.old.failed (S.taken out.old) (S.faults out.old)) (printing printer.new.failed (S.taken out.new) (S.faults out.new)) (flat_map (store_total_text stores.now (zip workers.now tallies.now)) (range_with_len 0 (length stores.now)))) }
    ensures err { OnErr result (SaysFront (printing printer.old.failed (S.taken out.old) (S.faults out.old)) (printing printer.new.failed (S.taken out.new) (S.faults out.new)) (flat_map (store_total_text stores.now (zip workers.now tallies.now)) (range_with_len 0 (length stores.now)))) }
{
    for place in 0..stores.len() {
        say_total(alloc, stores, place, workers, tallies, printer, out)?;
    }
    Ok(())
}

/// All lines but the first.
fn say_worked<S: Sink>(
    alloc: Global,
    stores: &[StorePlan],
    run: &RunPlan,
    tallies: &[Tally],
    printer: &mut Printer,
    out: &mut S,
) -> Result<(), NoMemory>
    requires many { length tallies.now ≡ length run.now.workers }
    requires each { All (PrintsFindings stores.now) (zip run.now.workers tallies.now) }
    ensures ok { OnOk result (Says (printing printer.old.failed (S.taken out.old) (S.faults out.old)) (printing printer.new.failed (S.taken out.new) (S.faults out.new)) (worked_text stores.now run.now tallies.now)) }
    ensures err { OnErr result (SaysFront (printing printer.old.failed (S.taken out.old) (S.faults out.old)) (printing printer.new.failed (S.taken out.new) (S.faults out.new)) (worked_text stores.now run.now tallies.now)) }
{
    let _entry: Option<Entry> = None;
    let workers = run.workers.as_slice();
    say_workers(alloc, stores, workers, tallies, printer, out)?;
    say_intervals(alloc, tallies, printer, out)?;
    say_slaves(alloc, run.slaves, workers, tallies, printer, out)?;
    say_totals(alloc, stores, workers, tallies, printer, out)
}

/// Prints what a run prints once it has ended, over the plan's stores: its name, its findings worker by worker, its intervals, its slaves
/// and its stores. There is one tally for each worker, in their order, or none where no worker ran: then nothing follows the name. Where
/// memory runs out a front of it was printed.
pub fn say_run_text<S: Sink>(
    alloc: Global,
    stores: &[StorePlan],
    run: &RunPlan,
    tallies: &[Tally],
    printer: &mut Printer,
    out: &mut S,
) -> Result<(), NoMemory>
    requires { PrintsRun stores.now run.now tallies.now }
    ensures ok { OnOk result (Says (printing printer.old.failed (S.taken out.old) (S.faults out.old)) (printing printer.new.failed (S.taken out.new) (S.faults out.new)) (run_text stores.now run.now tallies.now)) }
    ensures err { OnErr result (SaysFront (printing printer.old.failed (S.taken out.old) (S.faults out.old)) (printing printer.new.failed (S.taken out.new) (S.faults out.new)) (run_text stores.now run.now tallies.now)) }
{
    let _entry: Option<Entry> = None;
    let line = title_line(alloc, run)?;
    printer.say(out, line.as_str());
    if tallies.is_empty() {
        return Ok(());
    }
    say_worked(alloc, stores, run, tallies, printer, out)
}
