// A run of two workers that write two blocks each while the clock stands still, and the lines of an opened journal and of a last epoch.
ghost use Rattle.std.specs.Prelude.{◌≡◌, ◌+◌, ◌≤◌, [], length};
ghost use Rattle.worker_tally.specs.Tallies.{IsUpTo};

use crate::{Printer, epoch_end_line, opened_line, say_run_text};
use plan_types::{Format, RunPlan, StorePlan, WorkerPlan};
use std::alloc::Global;
use std::process::Abort;
use vd_base::{Geometry, StoreId, StoreName};
use vd_list::Items;
use vd_outside::{MemSink, Text};
use worker_tally::{Done, Intervals, Look, Put, Tally, Timed, rows_fit, turns_stay_small};

const RUN: Intervals = Intervals {
    start: 0,
    length: 1_000_000,
    many: 1,
};

const WRITE: Done = Done {
    many: 1,
    read: false,
    first: Look::Skipped,
    put: Put::Ended,
    again: Look::Skipped,
    timed: Timed {
        before: 0,
        after: 0,
    },
};

/// Adds a write to a tally of at most so many turns.
fn write(tally: &mut Tally, turns: u32)
    requires turns { IsUpTo turns tally.old }
    requires rows { (length tally.old.rows ≤ 1) × (1 ≤ tally.old.row_room) }
    ensures turns { IsUpTo (turns + 1) tally.new }
    ensures rows { (length tally.new.rows ≤ 1) × (1 ≤ tally.new.row_room) }
    ensures findings { tally.new.findings ≡ tally.old.findings }
{
    turns_stay_small();
    rows_fit();
    tally.add(&RUN, 4096, &WRITE);
}

fn two_writes(rt: &impl Abort, alloc: Global) -> Tally
    ensures { result.findings ≡ [] }
{
    turns_stay_small();
    let mut tally = Tally::new(alloc, 1, 0).expect(rt, "memory");
    write(&mut tally, 0);
    write(&mut tally, 1);
    tally
}

fn text(rt: &impl Abort, alloc: Global, words: &str) -> Text {
    Text::from_str(alloc, words).expect(rt, "memory")
}

#[test]
fn a_run_is_printed(rt: HostRuntime) {
    let alloc = rt.alloc();
    let store = StorePlan {
        id: StoreId {
            name: StoreName::read(b"sd1").expect(&rt, "a name"),
            geometry: Geometry::new(16, 4096).expect(&rt, "a geometry"),
        },
        path: text(&rt, alloc, "/d/a"),
        journal: text(&rt, alloc, "sd1.jnl"),
        threads: 2,
        openflags: text(&rt, alloc, ""),
    };
    let mut workers = Vec::new(alloc);
    workers
        .push(WorkerPlan {
            number: 0,
            slave: 1,
            store: 0,
            start: 0,
        })
        .expect(&rt, "memory");
    workers
        .push(WorkerPlan {
            number: 1,
            slave: 1,
            store: 0,
            start: 8,
        })
        .expect(&rt, "memory");
    let run = RunPlan {
        number: 1,
        line: 3,
        name: text(&rt, alloc, "rd1"),
        iorate: 0,
        elapsed: 1,
        interval: 1,
        turns: 2,
        format: Format::No,
        slaves: 1,
        shares: Items::of(Vec::new(alloc)),
        workers: Items::of(workers),
    };
    let first = two_writes(&rt, alloc);
    let second = two_writes(&rt, alloc);
    let mut out = MemSink::new(alloc, Vec::new(alloc));
    let mut printer = Printer::new();
    say_run_text(
        alloc,
        &[store],
        &run,
        &[first, second],
        &mut printer,
        &mut out,
    )
    .expect(&rt, "memory");
    let printed =
        b"run 1 rd1\ninterval 1 reads 0 writes 4 bytes 16384 micros 0\nslave 1 workers 2 turns 4\ntotal sd1 turns 4 reads 0 prereads 0 rereads 0 writes 4 busy 0 badskip 0 bytes 16384 faults 0 corrupt 0\n".as_slice();
    assert_eq!(rt; out.bytes(), printed);
}

#[test]
fn lines_of_opening(rt: HostRuntime) {
    let alloc = rt.alloc();
    let name = StoreName::read(b"sd1").expect(&rt, "a name");
    let opened = opened_line(alloc, &name, 7).expect(&rt, "memory");
    assert_eq!(rt; opened.as_str(), "opened sd1 epoch 7\n");
    let ended = epoch_end_line(alloc, &name).expect(&rt, "memory");
    assert_eq!(rt; ended.as_str(), "epoch end sd1\n");
}
