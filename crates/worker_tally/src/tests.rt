// A run of four intervals, with turns of every kind.
ghost use Rattle.std.specs.Prelude.{◌≡◌, ◌+◌, ◌≤◌, length};
ghost use Rattle.worker_tally.specs.Dones.{corrupt_in, corrupt_of};
ghost use Rattle.worker_tally.specs.Tallies.{IsUpTo};

use crate::{
    Done, IntervalRow, Intervals, Look, Numbers, Put, Refusal, Tally, Timed, rows_fit,
    turns_stay_small,
};
use block_verdict::Finding;
use vd_base::BlockNo;

const RUN: Intervals = Intervals {
    start: 1000,
    length: 500,
    many: 4,
};

/// A turn that wasn't read again.
fn turn(many: u32, read: bool, first: Look, put: Put, before: u64, after: u64) -> Done
    ensures many { result.many ≡ many }
    ensures first { result.first ≡ first }
    ensures again { corrupt_of result ≡ corrupt_in first }
{
    Done {
        many,
        read,
        first,
        put,
        again: Look::Skipped,
        timed: Timed { before, after },
    }
}

/// Adds one turn to a tally of at most so many.
fn add(tally: &mut Tally, turns: u32, done: &Done)
    requires turns { IsUpTo turns tally.old }
    requires rows { (length tally.old.rows ≤ 4) × (4 ≤ tally.old.row_room) }
    requires many { done.now.many ≤ 64 }
    requires corrupt { corrupt_of done.now ≤ 128 }
    ensures turns { IsUpTo (turns + 1) tally.new }
    ensures rows { (length tally.new.rows ≤ 4) × (4 ≤ tally.new.row_room) }
{
    turns_stay_small();
    rows_fit();
    tally.add(&RUN, 4096, done);
}

#[test]
fn turns_of_every_kind(rt: HostRuntime) {
    let mut tally = Tally::new(rt.alloc(), 4, 0).expect(&rt, "memory");
    let read = Look::Read { corrupt: 0 };
    add(
        &mut tally,
        0,
        &turn(4, true, read, Put::Skipped, 1600, 1700),
    );
    let mut written = turn(2, false, read, Put::Ended, 1499, 1499);
    written.again = Look::Read { corrupt: 1 };
    add(&mut tally, 1, &written);
    add(
        &mut tally,
        2,
        &turn(
            1,
            false,
            Look::Skipped,
            Put::Unended { appended: true },
            2000,
            1990,
        ),
    );
    add(
        &mut tally,
        3,
        &turn(
            3,
            false,
            Look::Skipped,
            Put::Unended { appended: false },
            2400,
            2450,
        ),
    );
    add(
        &mut tally,
        4,
        &turn(1, true, Look::Fault, Put::Skipped, 10, 20),
    );
    add(
        &mut tally,
        5,
        &turn(
            64,
            true,
            Look::Read { corrupt: 64 },
            Put::Skipped,
            0,
            u64::MAX,
        ),
    );
    add(
        &mut tally,
        6,
        &turn(1, false, Look::Skipped, Put::Fault, u64::MAX - 5, u64::MAX),
    );
    add(
        &mut tally,
        7,
        &turn(1, false, Look::Skipped, Put::Refused, 7, 3000),
    );
    tally.turn_away(Refusal::Busy);
    assert!(rt;
        tally.numbers()
            == Numbers {
                turns: 9,
                reads: 68,
                prereads: 2,
                rereads: 2,
                writes: 3,
                busy: 1,
                badskip: 0,
                bytes: 319488,
                faults: 2,
                corrupt: 65,
            }
    );
    let rows = [
        row(2, 0, 2, 24576, 10),
        row(2, 4, 1, 20480, 100),
        row(1, 0, 0, 12288, 50),
        row(2, 64, 0, 262144, u64::MAX),
    ];
    assert!(rt; tally.rows() == rows.as_slice());
}

fn row(turns: u64, reads: u64, writes: u64, bytes: u64, micros: u64) -> IntervalRow {
    IntervalRow {
        turns,
        reads,
        writes,
        bytes,
        micros,
    }
}

#[test]
fn findings_in_order(rt: HostRuntime) {
    let mut tally = Tally::new(rt.alloc(), 0, 2).expect(&rt, "memory");
    tally.push(Finding::ReadFault { block: BlockNo(7) });
    tally.push(Finding::WriteFault { block: BlockNo(3) });
    assert!(rt;
        matches!(
            tally.findings(),
            [
                Finding::ReadFault { block: BlockNo(7) },
                Finding::WriteFault { block: BlockNo(3) }
            ]
        )
    );
    tally.turn_away(Refusal::Bad);
    assert_eq!(rt; tally.numbers().badskip, 1);
}
