// The same where something outside fails or stops, over several stores, and over many records.
use crate::journaled::{FIRST_FOUR, SMALL, TWO_RUNS, TWO_STORES};
use crate::resumed::{
    BAD, CORRUPT, EIGHT_IN_1, FIRST_WRITES, FORTY, GO_ON, GREATEST, NEW, NEW_SD2, OF_SD2, ONE,
    ONE_RECORD, Record, STALE, TWO_RECORDS, TWO_SETTLED, in_epoch_1, put_log, there, untouched,
};
use crate::setting::{
    Bytes, GATE, NOTHING, ONE_SECTOR, RECOVER, Stamped, expect, expect_failing, has_corrupt_line,
    holds, journal, keeps, outcome, put, put_disk, put_head, rests, text, yard, yard_of,
};
use std::alloc::Global;
use std::process::Abort;
use vd_base::Sector;
use vd_yard::MemYard;

/// The first write was begun, and its block has the new key.
const WRITTEN: &[Bytes] = &[
    GATE,
    (0, 16, ONE_SECTOR),
    (3, 0, b"VDJLOGS2"),
    (3, 21, &[1]),
    (3, 32, &[1, 0, 1]),
];

const FIRST: &[Stamped] = &[(0, 0, 8, 1)];

const WRITTEN_LEFT: &str =
    "journal sd1 epoch 0 records 1\npending sd1 block 0 keys 0 1 holds new\nverified sd1 blocks 1 corrupt 0 pending 1 bad 0 faults 0\nstatus 0\n";

const NOT_OPENED: &str =
    "journal sd1 epoch 0 records 1\npending sd1 block 0 keys 0 1 holds new\nverified sd1 blocks 1 corrupt 0 pending 1 bad 0 faults 0\njournalfault sd1 record 0\nstatus 7\n";

const SETTLED_IN_1: &str =
    "journal sd1 epoch 1 records 0\nverified sd1 blocks 1 corrupt 0 pending 0 bad 0 faults 0\nstatus 0\n";

/// A call of the journal fails while it is recovered (two gates, the map, a log sector) or opened (both logs, the map, a sync, the gate, a
/// sync): no run starts. Until the gate is written the journal is as it was.
#[test]
fn journals_that_cannot_be_opened(rt: HostRuntime) {
    let alloc = rt.alloc();
    for call in 0..10u64 {
        let mut yard = there(&rt, alloc, SMALL, WRITTEN, &[call], FIRST, &[]);
        if call < 4 {
            let wanted = "journalfault sd1 record 0\nstatus 7\n";
            expect(&rt, alloc, "recovering", GO_ON, &mut yard, wanted, 7);
        } else {
            expect(&rt, alloc, "opening", GO_ON, &mut yard, NOT_OPENED, 7);
        }
        holds(&rt, alloc, &yard, "opening", 65536, FIRST);
        if call < 9 {
            expect(&rt, alloc, "after", RECOVER, &mut yard, WRITTEN_LEFT, 0);
        } else {
            expect(&rt, alloc, "after", RECOVER, &mut yard, SETTLED_IN_1, 0);
        }
    }
}

const FIRST_BEGIN_FAILS: &str =
    "journal sd1 epoch 0 records 1\npending sd1 block 0 keys 0 1 holds new\nverified sd1 blocks 1 corrupt 0 pending 1 bad 0 faults 0\nopened sd1 epoch 1\nrun 1 rd1\ninterval 1 reads 0 writes 0 bytes 4096 micros 0\nslave 1 workers 1 turns 1\ntotal sd1 turns 1 reads 0 prereads 1 rereads 0 writes 0 busy 0 badskip 0 bytes 4096 faults 0 corrupt 0\njournalfault sd1 record 1\nstatus 7\n";

const CLOSING_FAILS: &str =
    "journal sd1 epoch 0 records 1\npending sd1 block 0 keys 0 1 holds new\nverified sd1 blocks 1 corrupt 0 pending 1 bad 0 faults 0\nopened sd1 epoch 1\nrun 1 rd1\ninterval 1 reads 0 writes 4 bytes 20480 micros 0\nslave 1 workers 1 turns 4\ntotal sd1 turns 4 reads 0 prereads 1 rereads 0 writes 4 busy 0 badskip 0 bytes 20480 faults 0 corrupt 0\njournalfault sd1 record 8\nstatus 7\n";

/// A call of the journal that fails behind its opening, what the command prints, and what `-jro` then says.
const FAILED_CALLS: [(u64, &str, &str); 4] = [
    (10, FIRST_BEGIN_FAILS, SETTLED_IN_1),
    (
        11,
        FIRST_BEGIN_FAILS,
        "journal sd1 epoch 1 records 1\npending sd1 block 0 keys 1 2 holds old\nverified sd1 blocks 1 corrupt 0 pending 1 bad 0 faults 0\nstatus 0\n",
    ),
    (
        18,
        CLOSING_FAILS,
        "journal sd1 epoch 1 records 7\npending sd1 block 3 keys 0 1 holds new\nverified sd1 blocks 4 corrupt 0 pending 1 bad 0 faults 0\nstatus 0\n",
    ),
    (19, CLOSING_FAILS, EIGHT_IN_1),
];

#[test]
fn journals_that_fail(rt: HostRuntime) {
    let alloc = rt.alloc();
    for (call, wanted, after) in FAILED_CALLS {
        let mut yard = there(&rt, alloc, SMALL, WRITTEN, &[call], FIRST, &[]);
        expect(&rt, alloc, wanted, GO_ON, &mut yard, wanted, 7);
        expect(&rt, alloc, after, RECOVER, &mut yard, after, 0);
    }
}

/// What the journal holds besides a gate, what block 0 holds, which call of the arms fails, and what is printed; then the records of the new
/// epoch, what the block holds, and what `-jro` says.
const FAILED_DEVICES: [(
    &[Bytes],
    &[Stamped],
    (u32, u64, u32),
    &str,
    &[Stamped],
    &str,
); 4] = [
    // verification doesn't see the block, whose entry stays
    (
        &[GATE, (0, 16, ONE_SECTOR), (2, 0, &[3])],
        &[(0, 0, 8, 3)],
        (0, 0, 0),
        "journal sd1 epoch 0 records 0\nreadfault sd1 block 0\nverified sd1 blocks 0 corrupt 0 pending 0 bad 0 faults 1\nopened sd1 epoch 1\nrun 1 rd1\ninterval 1 reads 0 writes 1 bytes 8192 micros 0\nslave 1 workers 1 turns 1\ntotal sd1 turns 1 reads 0 prereads 1 rereads 0 writes 1 busy 0 badskip 0 bytes 8192 faults 0 corrupt 0\nstatus 2\n",
        &[(0, 0, 8, 4)],
        TWO_RECORDS,
    ),
    // the same of a pending block that holds the new key: its write has only an end
    (
        &[GATE, (0, 16, ONE_SECTOR), (2, 0, &[3, 4])],
        &[(0, 0, 8, 4)],
        (0, 0, 0),
        "journal sd1 epoch 0 records 0\nreadfault sd1 block 0\nverified sd1 blocks 0 corrupt 0 pending 1 bad 0 faults 1\nopened sd1 epoch 1\nrun 1 rd1\ninterval 1 reads 0 writes 1 bytes 8192 micros 0\nslave 1 workers 1 turns 1\ntotal sd1 turns 1 reads 0 prereads 1 rereads 0 writes 1 busy 0 badskip 0 bytes 8192 faults 0 corrupt 0\nstatus 2\n",
        &[(0, 0, 8, 4)],
        ONE_RECORD,
    ),
    // the same of a corrupt block, which the run finds
    (
        &[GATE, (0, 16, ONE_SECTOR), (2, 0, &[3])],
        &[(0, 0, 8, 3), (0, 2, 3, 2)],
        (0, 0, 0),
        "journal sd1 epoch 0 records 0\nreadfault sd1 block 0\nverified sd1 blocks 0 corrupt 0 pending 0 bad 0 faults 1\nopened sd1 epoch 1\nrun 1 rd1\ncorrupt sd1 block 0 sector 2 address 1024 part key keys 3\ninterval 1 reads 0 writes 0 bytes 4096 micros 0\nslave 1 workers 1 turns 1\ntotal sd1 turns 1 reads 0 prereads 1 rereads 0 writes 0 busy 0 badskip 0 bytes 4096 faults 0 corrupt 1\nstatus 2\n",
        &[(0, 0, 8, 3), (0, 2, 3, 2)],
        "journal sd1 epoch 1 records 1\nverified sd1 blocks 0 corrupt 0 pending 0 bad 1 faults 0\nstatus 0\n",
    ),
    // the run's write fails after a sector
    (
        &[GATE, (0, 16, ONE_SECTOR), (2, 0, &[3])],
        &[(0, 0, 8, 3)],
        (1, 1, 1),
        "journal sd1 epoch 0 records 0\nverified sd1 blocks 1 corrupt 0 pending 0 bad 0 faults 0\nopened sd1 epoch 1\nrun 1 rd1\nwritefault sd1 block 0\ninterval 1 reads 0 writes 0 bytes 4096 micros 0\nslave 1 workers 1 turns 1\ntotal sd1 turns 1 reads 0 prereads 1 rereads 0 writes 0 busy 0 badskip 0 bytes 4096 faults 1 corrupt 0\nstatus 2\n",
        &[(0, 0, 8, 3), (0, 0, 1, 4)],
        "journal sd1 epoch 1 records 1\npending sd1 block 0 keys 3 4 holds mixed\nverified sd1 blocks 1 corrupt 0 pending 1 bad 0 faults 0\nstatus 0\n",
    ),
];

#[test]
fn devices_that_fail(rt: HostRuntime) {
    let alloc = rt.alloc();
    for (parts, images, call, wanted, left, after) in FAILED_DEVICES {
        let mut yard = there(&rt, alloc, ONE, parts, &[], images, &[call]);
        expect(&rt, alloc, wanted, GO_ON, &mut yard, wanted, 2);
        holds(&rt, alloc, &yard, wanted, 65536, left);
        expect(&rt, alloc, wanted, RECOVER, &mut yard, after, 0);
    }
}

const TORN_GOES_ON: &str =
    "journal sd1 epoch 1 records 1\npending sd1 block 0 keys 3 4 holds mixed\nverified sd1 blocks 1 corrupt 0 pending 1 bad 0 faults 0\nopened sd1 epoch 2\nrun 1 rd1\ninterval 1 reads 0 writes 1 bytes 8192 micros 0\nslave 1 workers 1 turns 1\ntotal sd1 turns 1 reads 0 prereads 1 rereads 0 writes 1 busy 0 badskip 0 bytes 8192 faults 0 corrupt 0\nstatus 0\n";

/// A torn write of one command is mended by the next, with the key that the torn one had.
#[test]
fn behind_a_torn_write(rt: HostRuntime) {
    let alloc = rt.alloc();
    let parts: [Bytes; 3] = [GATE, (0, 16, ONE_SECTOR), (2, 0, &[3])];
    let mut yard = there(&rt, alloc, ONE, &parts, &[], &[(0, 0, 8, 3)], &[(1, 1, 1)]);
    let [_, _, _, torn] = FAILED_DEVICES;
    expect(&rt, alloc, "torn", GO_ON, &mut yard, torn.3, 2);
    expect(&rt, alloc, "goes on", GO_ON, &mut yard, TORN_GOES_ON, 0);
    holds(&rt, alloc, &yard, "goes on", 65536, &[(0, 0, 8, 4)]);
    let after =
        "journal sd1 epoch 2 records 1\nverified sd1 blocks 1 corrupt 0 pending 0 bad 0 faults 0\nstatus 0\n";
    expect(&rt, alloc, "after", RECOVER, &mut yard, after, 0);
}

/// A call of the yard that is refused, on a path, and what is printed; and what `-jro` then says.
const REFUSED: [(&str, u64, &str, &str); 5] = [
    ("p", 0, "cannot open p\nstatus 12\n", NOTHING),
    ("sd1.jnl", 0, "cannot open sd1.jnl\nstatus 12\n", NOTHING),
    // the passes, the arm of verification, and the worker's
    (
        "/d/a",
        0,
        "journal sd1 epoch 0 records 0\ncannot open /d/a\nstatus 12\n",
        NOTHING,
    ),
    (
        "/d/a",
        1,
        "journal sd1 epoch 0 records 0\ncannot open /d/a\nstatus 12\n",
        NOTHING,
    ),
    (
        "/d/a",
        2,
        "journal sd1 epoch 0 records 0\nverified sd1 blocks 0 corrupt 0 pending 0 bad 0 faults 0\nopened sd1 epoch 1\ncannot open /d/a\nstatus 12\n",
        "journal sd1 epoch 1 records 0\nverified sd1 blocks 0 corrupt 0 pending 0 bad 0 faults 0\nstatus 0\n",
    ),
];

#[test]
fn refused_openings(rt: HostRuntime) {
    let alloc = rt.alloc();
    for (path, place, wanted, after) in REFUSED {
        let mut yard = there(&rt, alloc, SMALL, NEW, &[], &[], &[]);
        yard.refuse(text(&rt, alloc, path), place)
            .expect(&rt, "memory");
        expect(&rt, alloc, wanted, GO_ON, &mut yard, wanted, 12);
        let sectors = if place < 2 {
            journal(&rt, alloc, 6, NEW)
        } else {
            in_epoch_1(&rt, alloc, NEW, &[], &[])
        };
        rests(&rt, alloc, &yard, wanted, "sd1.jnl", &sectors);
        holds(&rt, alloc, &yard, wanted, 65536, &[]);
        expect(&rt, alloc, wanted, RECOVER, &mut yard, after, 0);
    }
}

/// After a failed output of the journal's line nothing is written; behind the opening the runs go on unheard.
#[test]
fn failed_outputs(rt: HostRuntime) {
    let alloc = rt.alloc();
    let mut yard = there(&rt, alloc, SMALL, NEW, &[], &[], &[]);
    expect_failing(&rt, alloc, GO_ON, &mut yard, 0, "");
    let sectors = journal(&rt, alloc, 6, NEW);
    rests(&rt, alloc, &yard, "first", "sd1.jnl", &sectors);
    holds(&rt, alloc, &yard, "first", 65536, &[]);
    let sectors = in_epoch_1(&rt, alloc, NEW, &[], FIRST_WRITES);
    for (write, wanted) in [
        (
            3,
            "journal sd1 epoch 0 records 0\nverified sd1 blocks 0 corrupt 0 pending 0 bad 0 faults 0\n",
        ),
        (
            4,
            "journal sd1 epoch 0 records 0\nverified sd1 blocks 0 corrupt 0 pending 0 bad 0 faults 0\nopened sd1 epoch 1\n",
        ),
    ] {
        let mut yard = there(&rt, alloc, SMALL, NEW, &[], &[], &[]);
        expect_failing(&rt, alloc, GO_ON, &mut yard, write, wanted);
        holds(&rt, alloc, &yard, wanted, 65536, FIRST_FOUR);
        rests(&rt, alloc, &yard, wanted, "sd1.jnl", &sectors);
        expect(&rt, alloc, "after", RECOVER, &mut yard, EIGHT_IN_1, 0);
    }
}

const TWO_REREAD: &str =
    "journal sd1 epoch 0 records 6\njournal sd2 epoch 0 records 6\nverified sd1 blocks 2 corrupt 0 pending 0 bad 0 faults 0\nverified sd2 blocks 2 corrupt 0 pending 0 bad 0 faults 0\nopened sd1 epoch 1\nopened sd2 epoch 1\nrun 1 rd1\ninterval 1 reads 0 writes 4 bytes 49152 micros 0\nslave 1 workers 2 turns 4\ntotal sd1 turns 2 reads 0 prereads 2 rereads 2 writes 2 busy 0 badskip 0 bytes 24576 faults 0 corrupt 0\ntotal sd2 turns 2 reads 0 prereads 2 rereads 2 writes 2 busy 0 badskip 0 bytes 24576 faults 0 corrupt 0\nrun 2 rd2\ninterval 1 reads 0 writes 2 bytes 24576 micros 0\nslave 1 workers 2 turns 2\ntotal sd1 turns 1 reads 0 prereads 1 rereads 1 writes 1 busy 0 badskip 0 bytes 12288 faults 0 corrupt 0\ntotal sd2 turns 1 reads 0 prereads 1 rereads 1 writes 1 busy 0 badskip 0 bytes 12288 faults 0 corrupt 0\nstatus 0\n";

/// Two stores and two runs over what a command left, each write read again.
#[test]
fn two_stores(rt: HostRuntime) {
    let alloc = rt.alloc();
    let mut yard = yard_of(&rt, alloc, TWO_STORES.as_bytes());
    expect(&rt, alloc, "before", "-j -f p", &mut yard, TWO_RUNS, 0);
    let line = "-jr -vr -f p";
    expect(&rt, alloc, "goes on", line, &mut yard, TWO_REREAD, 0);
    let images = [(0, 0, 8, 4), (1, 0, 8, 2)];
    holds(&rt, alloc, &yard, "goes on", 65536, &images);
    expect(&rt, alloc, "after", RECOVER, &mut yard, TWO_AFTER, 0);
}

/// What `-jro` says of both stores behind two runs in epoch 1.
const TWO_AFTER: &str =
    "journal sd1 epoch 1 records 6\njournal sd2 epoch 1 records 6\nverified sd1 blocks 2 corrupt 0 pending 0 bad 0 faults 0\nverified sd2 blocks 2 corrupt 0 pending 0 bad 0 faults 0\nstatus 0\n";

/// A write of the output that fails before the second store was looked at, and what went out: the journals' lines, and the first store's
/// findings and its line.
const FRONTS: [(u64, &str); 4] = [
    (0, ""),
    (1, "journal sd1 epoch 0 records 0\n"),
    (
        2,
        "journal sd1 epoch 0 records 0\njournal sd2 epoch 0 records 0\n",
    ),
    (
        3,
        "journal sd1 epoch 0 records 0\njournal sd2 epoch 0 records 0\n",
    ),
];

/// The journals of both stores, without records, and no data.
fn two_new(rt: &impl Abort, alloc: Global) -> MemYard {
    let mut yard = yard_of(rt, alloc, TWO_STORES.as_bytes());
    let first = journal(rt, alloc, 6, NEW);
    put_disk(rt, alloc, &mut yard, "sd1.jnl", first, &[]);
    let second = journal(rt, alloc, 6, NEW_SD2);
    put_disk(rt, alloc, &mut yard, "sd2.jnl", second, &[]);
    yard
}

/// Before the second store is looked at nothing is written; behind the second journal's opening the runs go on unheard.
#[test]
fn failed_outputs_of_two_stores(rt: HostRuntime) {
    let alloc = rt.alloc();
    let first = journal(&rt, alloc, 6, NEW);
    let second = journal(&rt, alloc, 6, NEW_SD2);
    for (write, wanted) in FRONTS {
        let mut yard = two_new(&rt, alloc);
        expect_failing(&rt, alloc, GO_ON, &mut yard, write, wanted);
        rests(&rt, alloc, &yard, wanted, "sd1.jnl", &first);
        rests(&rt, alloc, &yard, wanted, "sd2.jnl", &second);
        untouched(&rt, alloc, &yard, wanted, "/d/b");
    }
    let mut yard = two_new(&rt, alloc);
    let wanted =
        "journal sd1 epoch 0 records 0\njournal sd2 epoch 0 records 0\nverified sd1 blocks 0 corrupt 0 pending 0 bad 0 faults 0\nverified sd2 blocks 0 corrupt 0 pending 0 bad 0 faults 0\nopened sd1 epoch 1\n";
    expect_failing(&rt, alloc, GO_ON, &mut yard, 7, wanted);
    expect(&rt, alloc, "after", RECOVER, &mut yard, TWO_AFTER, 0);
}

/// The second journal: its gate, which call fails, what is printed, the status, and what `-jro` then says.
const SECOND_NOT_OPENED: [(Bytes, &[u64], &str, u8, &str); 2] = [
    (
        GATE,
        &[6],
        "journal sd1 epoch 0 records 0\njournal sd2 epoch 0 records 0\nverified sd1 blocks 0 corrupt 0 pending 0 bad 0 faults 0\nverified sd2 blocks 0 corrupt 0 pending 0 bad 0 faults 0\nopened sd1 epoch 1\njournalfault sd2 record 0\nstatus 7\n",
        7,
        "journal sd1 epoch 1 records 0\njournal sd2 epoch 0 records 0\nverified sd1 blocks 0 corrupt 0 pending 0 bad 0 faults 0\nverified sd2 blocks 0 corrupt 0 pending 0 bad 0 faults 0\nstatus 0\n",
    ),
    (
        (1, 0, GREATEST),
        &[],
        "journal sd1 epoch 0 records 0\njournal sd2 epoch 9223372036854775807 records 0\nverified sd1 blocks 0 corrupt 0 pending 0 bad 0 faults 0\nverified sd2 blocks 0 corrupt 0 pending 0 bad 0 faults 0\nopened sd1 epoch 1\nepoch end sd2\nstatus 13\n",
        13,
        "journal sd1 epoch 1 records 0\njournal sd2 epoch 9223372036854775807 records 0\nverified sd1 blocks 0 corrupt 0 pending 0 bad 0 faults 0\nverified sd2 blocks 0 corrupt 0 pending 0 bad 0 faults 0\nstatus 0\n",
    ),
];

/// The second journal isn't opened, and keeps what it has: no run starts, and the first journal is closed in the epoch that it began.
#[test]
fn a_second_journal_that_is_not_opened(rt: HostRuntime) {
    let alloc = rt.alloc();
    let first = in_epoch_1(&rt, alloc, NEW, &[], &[]);
    for (gate, calls, wanted, status, after) in SECOND_NOT_OPENED {
        let mut yard = yard_of(&rt, alloc, TWO_STORES.as_bytes());
        let sectors = journal(&rt, alloc, 6, NEW);
        put_disk(&rt, alloc, &mut yard, "sd1.jnl", sectors, &[]);
        let parts = [gate, (gate.0, 16, OF_SD2)];
        let sectors = journal(&rt, alloc, 6, &parts);
        put_disk(&rt, alloc, &mut yard, "sd2.jnl", sectors, calls);
        expect(&rt, alloc, wanted, GO_ON, &mut yard, wanted, status);
        rests(&rt, alloc, &yard, wanted, "sd1.jnl", &first);
        let sectors = journal(&rt, alloc, 6, &parts);
        keeps(&rt, alloc, &yard, wanted, "sd2.jnl", &sectors);
        holds(&rt, alloc, &yard, wanted, 65536, &[]);
        expect(&rt, alloc, wanted, RECOVER, &mut yard, after, 0);
    }
}

/// The second store's data can't be opened, for its passes or for an arm: no journal is opened in a new epoch.
#[test]
fn second_data_that_cannot_be_opened(rt: HostRuntime) {
    let alloc = rt.alloc();
    for place in [0u64, 1] {
        let mut yard = two_new(&rt, alloc);
        yard.refuse(text(&rt, alloc, "/d/b"), place)
            .expect(&rt, "memory");
        let wanted =
            "journal sd1 epoch 0 records 0\njournal sd2 epoch 0 records 0\nverified sd1 blocks 0 corrupt 0 pending 0 bad 0 faults 0\ncannot open /d/b\nstatus 12\n";
        expect(&rt, alloc, "refused", GO_ON, &mut yard, wanted, 12);
        let sectors = journal(&rt, alloc, 6, NEW);
        rests(&rt, alloc, &yard, "refused", "sd1.jnl", &sectors);
        let sectors = journal(&rt, alloc, 6, NEW_SD2);
        rests(&rt, alloc, &yard, "refused", "sd2.jnl", &sectors);
    }
}

const FORTY_WRITES: &str =
    "journal sd1 epoch 0 records 0\nverified sd1 blocks 0 corrupt 0 pending 0 bad 0 faults 0\nopened sd1 epoch 1\nrun 1 rd1\ninterval 1 reads 0 writes 40 bytes 262144 micros 0\nslave 1 workers 1 turns 40\ntotal sd1 turns 40 reads 0 prereads 24 rereads 0 writes 40 busy 0 badskip 0 bytes 262144 faults 0 corrupt 0\nstatus 0\n";

/// Writes of blocks with this key, from one block to before another.
fn writes_of(rt: &impl Abort, alloc: Global, from: u8, to: u8, old: u8, new: u8) -> Vec<Record> {
    let mut records = Vec::new(alloc);
    for block in from..to {
        records.push((1, old, new, block)).expect(rt, "memory");
        records.push((2, 0, new, block)).expect(rt, "memory");
    }
    records
}

/// Forty writes are eighty records: thirty in epoch 1, the next in the map of epoch 2, thirty behind it, the next in the map of epoch 3,
/// and eighteen behind that.
#[test]
fn full_logs(rt: HostRuntime) {
    let alloc = rt.alloc();
    let mut yard = there(&rt, alloc, FORTY, NEW, &[], &[], &[]);
    expect(&rt, alloc, "full", GO_ON, &mut yard, FORTY_WRITES, 0);
    let after =
        "journal sd1 epoch 3 records 18\nverified sd1 blocks 16 corrupt 0 pending 0 bad 0 faults 0\nstatus 0\n";
    expect(&rt, alloc, "after", RECOVER, &mut yard, after, 0);
    let parts: [Bytes; 8] = [
        GATE,
        (0, 15, &[2]),
        (0, 16, ONE_SECTOR),
        (1, 0, b"VDJGATE2"),
        (1, 15, &[3]),
        (1, 16, ONE_SECTOR),
        // blocks 0 to 14 are settled at 1, and the write of block 15 was begun
        (
            2,
            0,
            &[
                1, 0, 1, 0, 1, 0, 1, 0, 1, 0, 1, 0, 1, 0, 1, 0, 1, 0, 1, 0, 1, 0, 1, 0, 1, 0, 1, 0,
                1, 0, 0, 1,
            ],
        ),
        // blocks 0 to 14 are settled at 2, and block 15 at 1
        (
            4,
            0,
            &[
                2, 0, 2, 0, 2, 0, 2, 0, 2, 0, 2, 0, 2, 0, 2, 0, 2, 0, 2, 0, 2, 0, 2, 0, 2, 0, 2, 0,
                2, 0, 1, 0,
            ],
        ),
    ];
    let mut sectors = journal(&rt, alloc, 6, &parts);
    let mut second = vec![in alloc; (2, 0, 1, 15); 1].expect(&rt, "memory");
    for record in &writes_of(&rt, alloc, 0, 14, 1, 2) {
        second.push(*record).expect(&rt, "memory");
    }
    second.push((1, 1, 2, 14)).expect(&rt, "memory");
    put_log(&rt, &mut sectors, 3, 2, second.as_slice());
    let mut third = writes_of(&rt, alloc, 15, 16, 1, 2);
    for record in &writes_of(&rt, alloc, 0, 8, 2, 3) {
        third.push(*record).expect(&rt, "memory");
    }
    put_log(&rt, &mut sectors, 5, 3, third.as_slice());
    rests(&rt, alloc, &yard, "full", "sd1.jnl", &sectors);
}

const WRITTEN_GOES_ON: &str =
    "journal sd1 epoch 0 records 1\npending sd1 block 0 keys 0 1 holds new\nverified sd1 blocks 1 corrupt 0 pending 1 bad 0 faults 0\nopened sd1 epoch 1\nrun 1 rd1\ninterval 1 reads 0 writes 4 bytes 20480 micros 0\nslave 1 workers 1 turns 4\ntotal sd1 turns 4 reads 0 prereads 1 rereads 0 writes 4 busy 0 badskip 0 bytes 20480 faults 0 corrupt 0\nstatus 0\n";

/// One of the journals that a stop may leave.
fn image_of(rt: &impl Abort, alloc: Global, yard: &MemYard, pick: u64) -> Vec<Sector> {
    match yard.disk_at(&text(rt, alloc, "sd1.jnl")) {
        Some(disk) => disk.image(alloc, pick).expect(rt, "memory"),
        None => {
            assert!(rt; false, "no journal");
            Vec::new(alloc)
        }
    }
}

/// A stop within the opening, whose map or gate may have been written or not: the journal is still the one before, and the next command
/// goes on from it.
#[test]
fn stops_within_the_opening(rt: HostRuntime) {
    let alloc = rt.alloc();
    for call in 6..10u64 {
        for pick in 0..2u64 {
            let mut yard = there(&rt, alloc, SMALL, WRITTEN, &[call], FIRST, &[]);
            expect(&rt, alloc, "opening", GO_ON, &mut yard, NOT_OPENED, 7);
            let image = image_of(&rt, alloc, &yard, pick);
            put_disk(&rt, alloc, &mut yard, "sd1.jnl", image, &[]);
            expect(&rt, alloc, "stopped", RECOVER, &mut yard, WRITTEN_LEFT, 0);
            let wanted = WRITTEN_GOES_ON;
            expect(&rt, alloc, "goes on", GO_ON, &mut yard, wanted, 0);
        }
    }
}

/// Transfers of four blocks.
const BY_FOUR: &str =
    "journal_sectors=1\nsd=sd1,lun=/d/a,size=64k,threads=1,keyblock=4k\nwd=wd1,sd=sd1,xfersize=16k,rdpct=0,seekpct=0\nrd=rd1,wd=wd1,turns=2\n";

/// Block 0 is settled at 3, block 1 pending from 3 to 4, block 3 from 0 to 1, and block 5 is settled at 2.
const MANY: &[Bytes] = &[
    GATE,
    (0, 16, ONE_SECTOR),
    (2, 0, &[3, 0, 3, 4, 0, 0, 0, 1, 0, 0, 2, 0]),
];

const MANY_GO_ON: &str =
    "journal sd1 epoch 0 records 0\npending sd1 block 1 keys 3 4 holds mixed\npending sd1 block 3 keys 0 1 holds new\ncorrupt sd1 block 5 sector 0 address 20480 part name keys 2\nverified sd1 blocks 4 corrupt 1 pending 2 bad 0 faults 0\nopened sd1 epoch 1\nrun 1 rd1\ninterval 1 reads 0 writes 4 bytes 32768 micros 0\nslave 1 workers 1 turns 2\ntotal sd1 turns 2 reads 0 prereads 4 rereads 0 writes 4 busy 0 badskip 1 bytes 32768 faults 0 corrupt 0\nstatus 1\n";

/// A transfer over settled, pending and unwritten blocks has one record for its beginning and one for its end; one over a bad block isn't
/// made.
#[test]
fn several_blocks(rt: HostRuntime) {
    let alloc = rt.alloc();
    let images = [(0, 0, 8, 3), (1, 0, 1, 4), (1, 1, 8, 3), (3, 0, 8, 1)];
    let mut yard = there(&rt, alloc, BY_FOUR, MANY, &[], &images, &[]);
    expect(&rt, alloc, "several", GO_ON, &mut yard, MANY_GO_ON, 1);
    let images = [(0, 0, 8, 4), (1, 0, 8, 4), (2, 0, 8, 1), (3, 0, 8, 2)];
    holds(&rt, alloc, &yard, "several", 65536, &images);
    let map = [3, 0, 3, 4, 0, 0, 1, 0, 0, 0, 0, 255];
    let mut sectors = in_epoch_1(&rt, alloc, MANY, &map, &[]);
    put_head(&rt, &mut sectors, 5, 1, 2);
    let records: [Bytes; 2] = [(5, 32, &[4, 0, 0, 4]), (5, 48, &[5, 0, 0, 4])];
    for bytes in records {
        put(&rt, &mut sectors, &bytes);
    }
    rests(&rt, alloc, &yard, "several", "sd1.jnl", &sectors);
    let after =
        "journal sd1 epoch 1 records 2\nverified sd1 blocks 4 corrupt 0 pending 0 bad 1 faults 0\nstatus 0\n";
    expect(&rt, alloc, "after", RECOVER, &mut yard, after, 0);
}

/// The first error of a run is its last.
const NO_ERRORS: &str =
    "data_errors=1\njournal_sectors=1\nsd=sd1,lun=/d/a,size=64k,threads=1\nwd=wd1,sd=sd1,xfersize=4k,rdpct=0,seekpct=0\nrd=rd1,wd=wd1,turns=4\n";

/// What verification finds doesn't count among the errors of the runs, behind which no run starts.
#[test]
fn errors_of_verification(rt: HostRuntime) {
    let alloc = rt.alloc();
    let mut yard = there(&rt, alloc, NO_ERRORS, TWO_SETTLED, &[], STALE, &[]);
    expect(&rt, alloc, "corrupt", GO_ON, &mut yard, CORRUPT, 1);
    expect(&rt, alloc, "bad", RECOVER, &mut yard, BAD, 0);
}

#[test]
fn unread_parameter_file(rt: HostRuntime) {
    let alloc = rt.alloc();
    let mut yard = there(&rt, alloc, SMALL, WRITTEN, &[], FIRST, &[]);
    let file = SMALL.as_bytes().to_vec(alloc).expect(&rt, "memory");
    let reads = Vec::from_slice(alloc, &[0]).expect(&rt, "memory");
    yard.put_file(text(&rt, alloc, "p"), file, reads)
        .expect(&rt, "memory");
    let wanted = "cannot read p\nstatus 5\n";
    expect(&rt, alloc, "first read", GO_ON, &mut yard, wanted, 5);
    let sectors = journal(&rt, alloc, 6, WRITTEN);
    rests(&rt, alloc, &yard, "first read", "sd1.jnl", &sectors);
}

/// What fails of all that a command works with: the source of the parameter file; the opening of a path; the journal's disk; or an arm, the
/// first of which verifies and the second works, after so many sectors of a write.
#[derive(Clone, Copy)]
enum Object {
    Source,
    Opening(&'static str),
    Disk,
    Arm(u32, u32),
}

/// An object, how many calls of it a command makes over a journal that is recovered, and the status where one of them fails.
const OBJECTS: [(Object, u64, u8); 8] = [
    (Object::Source, 2, 5),
    (Object::Opening("p"), 1, 12),
    (Object::Opening("sd1.jnl"), 1, 12),
    (Object::Opening("/d/a"), 3, 12),
    (Object::Disk, 20, 7),
    (Object::Arm(0, 0), 1, 2),
    (Object::Arm(1, 0), 5, 2),
    (Object::Arm(1, 3), 5, 2),
];

/// The journal of a write that was begun, and its data, where this call of an object fails.
fn failing_at(rt: &impl Abort, alloc: Global, object: Object, call: u64) -> MemYard {
    match object {
        Object::Source => {
            let mut yard = there(rt, alloc, SMALL, WRITTEN, &[], FIRST, &[]);
            let file = SMALL.as_bytes().to_vec(alloc).expect(rt, "memory");
            let reads = Vec::from_slice(alloc, &[call]).expect(rt, "memory");
            yard.put_file(text(rt, alloc, "p"), file, reads)
                .expect(rt, "memory");
            yard
        }
        Object::Opening(path) => {
            let mut yard = there(rt, alloc, SMALL, WRITTEN, &[], FIRST, &[]);
            yard.refuse(text(rt, alloc, path), call)
                .expect(rt, "memory");
            yard
        }
        Object::Disk => there(rt, alloc, SMALL, WRITTEN, &[call], FIRST, &[]),
        Object::Arm(arm, sectors) => there(
            rt,
            alloc,
            SMALL,
            WRITTEN,
            &[],
            FIRST,
            &[(arm, call, sectors)],
        ),
    }
}

/// Each call of each object fails in turn: the command ends with the object's status, and recovery behind it, with the parameter file as it
/// was, finds no corrupt block. Where a call fails that isn't made, nothing does.
#[test]
fn each_failed_call(rt: HostRuntime) {
    let alloc = rt.alloc();
    for (object, calls, status) in OBJECTS {
        for call in 0..calls {
            let mut yard = failing_at(&rt, alloc, object, call);
            let ended = outcome(&rt, alloc, GO_ON, &mut yard, &[]);
            assert_eq!(rt; ended.number, status, "call {call}");
            let file = SMALL.as_bytes().to_vec(alloc).expect(&rt, "memory");
            yard.put_file(text(&rt, alloc, "p"), file, Vec::new(alloc))
                .expect(&rt, "memory");
            let after = outcome(&rt, alloc, RECOVER, &mut yard, &[]);
            assert_eq!(rt; after.number, 0, "behind call {call}");
            assert!(rt;
                !has_corrupt_line(after.text.as_slice()),
                "behind call {call}"
            );
        }
        let mut yard = failing_at(&rt, alloc, object, calls);
        let row = "no call";
        expect(&rt, alloc, row, GO_ON, &mut yard, WRITTEN_GOES_ON, 0);
    }
}

/// Each write of the output fails in turn: the status is that of the output, a front of the text went out, and recovery behind it finds no
/// corrupt block. Behind the last write nothing fails.
#[test]
fn each_failed_write(rt: HostRuntime) {
    let alloc = rt.alloc();
    for write in 0..10u64 {
        let mut yard = there(&rt, alloc, SMALL, WRITTEN, &[], FIRST, &[]);
        let ended = outcome(&rt, alloc, GO_ON, &mut yard, &[write]);
        let status = if write < 9 { 6 } else { 0 };
        assert_eq!(rt; ended.number, status, "write {write}");
        let front = WRITTEN_GOES_ON
            .as_bytes()
            .starts_with(ended.text.as_slice());
        assert!(rt; front, "write {write}: another text");
        let after = outcome(&rt, alloc, RECOVER, &mut yard, &[]);
        assert_eq!(rt; after.number, 0, "behind write {write}");
        assert!(rt;
            !has_corrupt_line(after.text.as_slice()),
            "behind write {write}"
        );
    }
}
