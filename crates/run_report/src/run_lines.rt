// Lines that a run prints once it has ended.
ghost use Rattle.std.specs.Prelude.{◌≡◌, IfOk};
ghost use Rattle.vd_base.specs.Name.{name_text};
ghost use Rattle.run_report.specs.Runs.{blocks_text, errors_text, row_text, slave_line_text, title_text, total_text};

use crate::run_sums::{RowSums, Totals};
use plan_types::RunPlan;
use std::alloc::Global;
use vd_base::StoreName;
use vd_outside::{NoMemory, Text};

/// The line with which a run begins.
pub(crate) fn title_line(alloc: Global, run: &RunPlan) -> Result<Text, NoMemory>
    ensures { IfOk result (λ line. line ≡ title_text run.now) }
{
    let number = run.number;
    let name = &run.name;
    Ok(Text::of(format!(in alloc; "run {number} {name}\n")?))
}

/// The line of an interval; intervals are numbered from 1.
pub(crate) fn interval_line(alloc: Global, number: u64, sums: &RowSums) -> Result<Text, NoMemory>
    ensures { IfOk result (λ line. line ≡ row_text number sums.now) }
{
    let reads = sums.reads;
    let writes = sums.writes;
    let bytes = sums.bytes;
    let micros = sums.micros.min(u64::MAX as u128);
    Ok(Text::of(format!(in alloc;
        "interval {number} reads {reads} writes {writes} bytes {bytes} micros {micros}\n"
    )?))
}

/// The line of a slave; slaves are numbered from 1.
pub(crate) fn slave_line(alloc: Global, number: u32, totals: &Totals) -> Result<Text, NoMemory>
    ensures { IfOk result (λ line. line ≡ slave_line_text number totals.now) }
{
    let workers = totals.workers;
    let turns = totals.turns;
    Ok(Text::of(format!(in alloc; "slave {number} workers {workers} turns {turns}\n")?))
}

fn blocks_of(alloc: Global, totals: &Totals) -> Result<Text, NoMemory>
    ensures { IfOk result (λ text. text ≡ blocks_text totals.now) }
{
    let turns = totals.turns;
    let reads = totals.reads;
    let prereads = totals.prereads;
    let rereads = totals.rereads;
    let writes = totals.writes;
    Ok(Text::of(format!(in alloc;
        "turns {turns} reads {reads} prereads {prereads} rereads {rereads} writes {writes}"
    )?))
}

fn errors_of(alloc: Global, totals: &Totals) -> Result<Text, NoMemory>
    ensures { IfOk result (λ text. text ≡ errors_text totals.now) }
{
    let busy = totals.busy;
    let badskip = totals.badskip;
    let bytes = totals.bytes;
    let faults = totals.faults;
    let corrupt = totals.corrupt;
    Ok(Text::of(format!(in alloc;
        "busy {busy} badskip {badskip} bytes {bytes} faults {faults} corrupt {corrupt}"
    )?))
}

/// The line of a store of a run.
pub(crate) fn total_line(alloc: Global, name: &StoreName, totals: &Totals) -> Result<Text, NoMemory>
    ensures { IfOk result (λ line. line ≡ total_text (name_text name.now) totals.now) }
{
    let blocks = blocks_of(alloc, totals)?;
    let errors = errors_of(alloc, totals)?;
    Ok(Text::of(format!(in alloc; "total {name} {blocks} {errors}\n")?))
}
