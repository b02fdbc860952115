// Runs of a plan over journals that are there: recovered, verified, opened in their next epoch, and closed.
use crate::journaled::{
    FIRST_FOUR, FIVE, FOUR, FOUR_WRITES, SIXTEEN, SMALL, THIRD_BEGIN_FAILS, TWO_STORES,
    with_records,
};
use crate::setting::{
    BY_DEFAULT, Bytes, GATE, ONE_SECTOR, RECOVER, STORE, Stamped, created, data, expect, holds,
    journal, keeps, over, put, put_disk, put_head, put_record, rests, text, yard, yard_of,
};
use std::alloc::Global;
use std::process::Abort;
use std::sync::Wait;
use std::thread::Threads;
use vd_base::Sector;
use vd_yard::MemYard;

/// The runs of p over the journals that are there.
pub const GO_ON: &str = "-jr -f p";

/// A store of 16 blocks of 4,096 bytes and a journal of one log sector; one worker writes its first block, or 40 blocks in order, or it
/// reads the first two.
pub const ONE: &str =
    "journal_sectors=1\nsd=sd1,lun=/d/a,size=64k,threads=1\nwd=wd1,sd=sd1,xfersize=4k,rdpct=0,seekpct=0\nrd=rd1,wd=wd1,turns=1\n";

pub const FORTY: &str =
    "journal_sectors=1\nsd=sd1,lun=/d/a,size=64k,threads=1\nwd=wd1,sd=sd1,xfersize=4k,rdpct=0,seekpct=0\nrd=rd1,wd=wd1,turns=40\n";

const TWO_READS: &str =
    "journal_sectors=1\nsd=sd1,lun=/d/a,size=64k,threads=1\nwd=wd1,sd=sd1,xfersize=4k,rdpct=100,seekpct=0\nrd=rd1,wd=wd1,turns=2\n";

/// What a gate of sd2 with one log sector has behind its epoch.
pub const OF_SD2: &[u8] = b"sd2\0\0\0\0\0\0\0\0\x10\0\0\x10\0\0\0\0\x01";

/// The first bytes of a gate of the greatest epoch.
pub const GREATEST: &[u8] = b"VDJGATE2\x7f\xff\xff\xff\xff\xff\xff\xff";

/// A journal without records in epoch 0, of sd1 and of sd2.
pub const NEW: &[Bytes] = &[GATE, (0, 16, ONE_SECTOR)];

pub const NEW_SD2: &[Bytes] = &[GATE, (0, 16, OF_SD2)];

/// A record of one block: its kind (1 begins a write, 2 ends it, 3 makes the block bad), the old key, the new one, and the block.
pub type Record = (u8, u8, u8, u8);

pub fn put_log(
    rt: &impl Abort,
    sectors: &mut Vec<Sector>,
    at: usize,
    epoch: u8,
    records: &[Record],
) {
    let many = records.len();
    put_head(rt, sectors, at, epoch, many);
    for i in 0..many {
        put_record(rt, sectors, at, i, records[i]);
    }
}

/// A yard with this parameter file, p; the journal of sd1 with one log sector, which holds these bytes and whose listed calls fail; and its
/// data, which is zeros but for these images, and whose arms' listed calls fail.
pub fn there(
    rt: &impl Abort,
    alloc: Global,
    file: &str,
    parts: &[Bytes],
    calls: &[u64],
    images: &[Stamped],
    failing: &[(u32, u64, u32)],
) -> MemYard {
    let mut yard = yard_of(rt, alloc, file.as_bytes());
    let sectors = journal(rt, alloc, 6, parts);
    put_disk(rt, alloc, &mut yard, "sd1.jnl", sectors, calls);
    let bytes = data(rt, alloc, 0, images);
    let failing = Vec::from_slice(alloc, failing).expect(rt, "memory");
    yard.put_data(text(rt, alloc, "/d/a"), bytes, failing)
        .expect(rt, "memory");
    yard
}

/// A journal of sd1 with one log sector that held these bytes in epoch 0, and was opened in epoch 1 with this map and has these records.
pub fn in_epoch_1(
    rt: &impl Abort,
    alloc: Global,
    parts: &[Bytes],
    map: &[u8],
    records: &[Record],
) -> Vec<Sector> {
    let mut sectors = journal(rt, alloc, 6, parts);
    let others: [Bytes; 4] = [
        (1, 0, b"VDJGATE2"),
        (1, 15, &[1]),
        (1, 16, ONE_SECTOR),
        (4, 0, map),
    ];
    for bytes in others {
        put(rt, &mut sectors, &bytes);
    }
    if records.len() > 0 {
        put_log(rt, &mut sectors, 5, 1, records);
    }
    sectors
}

/// Fails where there is data at a path, or a file was made there.
pub fn untouched(rt: &impl Abort, alloc: Global, yard: &MemYard, row: &str, path: &str) {
    let made = yard.bytes_at(&text(rt, alloc, path)).expect(rt, "memory");
    assert!(rt; made.is_none(), "{row}: {path} was opened");
}

/// Blocks 0 and 1 are written with key 2, then 2 and 3 with key 1.
const SECOND_AND_FIRST: &[Record] = &[
    (1, 1, 2, 0),
    (2, 0, 2, 0),
    (1, 1, 2, 1),
    (2, 0, 2, 1),
    (1, 0, 1, 2),
    (2, 0, 1, 2),
    (1, 0, 1, 3),
    (2, 0, 1, 3),
];

/// Blocks 0 to 3 are written for the first time.
pub const FIRST_WRITES: &[Record] = &[
    (1, 0, 1, 0),
    (2, 0, 1, 0),
    (1, 0, 1, 1),
    (2, 0, 1, 1),
    (1, 0, 1, 2),
    (2, 0, 1, 2),
    (1, 0, 1, 3),
    (2, 0, 1, 3),
];

const LEFT_PENDING: &str =
    "journal sd1 epoch 0 records 5\npending sd1 block 2 keys 0 1 holds old\nverified sd1 blocks 3 corrupt 0 pending 1 bad 0 faults 0\nstatus 0\n";

const BEHIND_A_FAILED_SYNC: &str =
    "journal sd1 epoch 0 records 5\npending sd1 block 2 keys 0 1 holds old\nverified sd1 blocks 3 corrupt 0 pending 1 bad 0 faults 0\nopened sd1 epoch 1\nrun 1 rd1\ninterval 1 reads 0 writes 4 bytes 24576 micros 0\nslave 1 workers 1 turns 4\ntotal sd1 turns 4 reads 0 prereads 2 rereads 0 writes 4 busy 0 badskip 0 bytes 24576 faults 0 corrupt 0\nstatus 0\n";

/// What `-jro` says of four blocks whose last writes are in epoch 1.
pub const EIGHT_IN_1: &str =
    "journal sd1 epoch 1 records 8\nverified sd1 blocks 4 corrupt 0 pending 0 bad 0 faults 0\nstatus 0\n";

/// Behind a run whose third beginning failed to be synced: its block wasn't written, and is settled at the old key.
#[test]
fn behind_a_failed_sync(rt: HostRuntime) {
    let alloc = rt.alloc();
    let mut yard = over(&rt, alloc, FOUR, 65536, &[]);
    put_disk(&rt, alloc, &mut yard, "sd1.jnl", Vec::new(alloc), &[8208]);
    let wanted = THIRD_BEGIN_FAILS;
    expect(&rt, alloc, "run", "-j -f p", &mut yard, wanted, 7);
    expect(&rt, alloc, "left", RECOVER, &mut yard, LEFT_PENDING, 0);
    let wanted = BEHIND_A_FAILED_SYNC;
    expect(&rt, alloc, "goes on", GO_ON, &mut yard, wanted, 0);
    let images = [(0, 0, 8, 2), (1, 0, 8, 2), (2, 0, 8, 1), (3, 0, 8, 1)];
    holds(&rt, alloc, &yard, "goes on", 65536, &images);
    let mut sectors = with_records(&rt, alloc, 8196, BY_DEFAULT, FIVE);
    let others: [Bytes; 4] = [
        (1, 0, b"VDJGATE2"),
        (1, 15, &[1]),
        (1, 16, BY_DEFAULT),
        (4099, 0, &[1, 0, 1, 0]),
    ];
    for bytes in others {
        put(&rt, &mut sectors, &bytes);
    }
    put_log(&rt, &mut sectors, 4100, 1, SECOND_AND_FIRST);
    keeps(&rt, alloc, &yard, "goes on", "sd1.jnl", &sectors);
    expect(&rt, alloc, "after", RECOVER, &mut yard, EIGHT_IN_1, 0);
}

const AT_THE_END: &str =
    "journal sd1 epoch 9223372036854775807 records 0\nverified sd1 blocks 0 corrupt 0 pending 0 bad 0 faults 0\nstatus 0\n";

const ENDS: &str =
    "journal sd1 epoch 9223372036854775807 records 0\nverified sd1 blocks 0 corrupt 0 pending 0 bad 0 faults 0\nepoch end sd1\nstatus 13\n";

const CORRUPT_AT_THE_END: &str =
    "journal sd1 epoch 9223372036854775807 records 0\ncorrupt sd1 block 0 sector 0 address 0 part name keys 3\nverified sd1 blocks 1 corrupt 1 pending 0 bad 0 faults 0\nstatus 1\n";

const CORRUPT_ENDS: &str =
    "journal sd1 epoch 9223372036854775807 records 0\ncorrupt sd1 block 0 sector 0 address 0 part name keys 3\nverified sd1 blocks 1 corrupt 1 pending 0 bad 0 faults 0\nepoch end sd1\nstatus 13\n";

/// No epoch follows the greatest one, and nothing is written; that is said behind what was found.
#[test]
fn the_greatest_epoch(rt: HostRuntime) {
    let alloc = rt.alloc();
    for (key, found, status, ends) in [
        (0u8, AT_THE_END, 0, ENDS),
        (3, CORRUPT_AT_THE_END, 1, CORRUPT_ENDS),
    ] {
        let parts: [Bytes; 3] = [
            (1, 0, b"VDJGATE1\x7f\xff\xff\xff\xff\xff\xff\xff"),
            (1, 16, STORE),
            (11, 0, &[key]),
        ];
        let sectors = journal(&rt, alloc, 20, &parts);
        let mut yard = yard(&rt, alloc, sectors, Vec::new(alloc));
        expect(&rt, alloc, found, RECOVER, &mut yard, found, status);
        expect(&rt, alloc, ends, GO_ON, &mut yard, ends, 13);
        let kept = journal(&rt, alloc, 20, &parts);
        rests(&rt, alloc, &yard, ends, "sd1.jnl", &kept);
        holds(&rt, alloc, &yard, ends, 65536, &[]);
    }
}

const LAST_IS_FULL: &str =
    "journal sd1 epoch 9223372036854775806 records 0\nverified sd1 blocks 0 corrupt 0 pending 0 bad 0 faults 0\nopened sd1 epoch 9223372036854775807\nrun 1 rd1\ninterval 1 reads 0 writes 15 bytes 61440 micros 0\nslave 1 workers 1 turns 16\ntotal sd1 turns 16 reads 0 prereads 0 rereads 0 writes 15 busy 0 badskip 0 bytes 61440 faults 0 corrupt 0\nepoch end sd1\nstatus 13\n";

const THIRTY_IN_LAST: &str =
    "journal sd1 epoch 9223372036854775807 records 30\nverified sd1 blocks 15 corrupt 0 pending 0 bad 0 faults 0\nstatus 0\n";

const FULL_ENDS: &str =
    "journal sd1 epoch 9223372036854775807 records 30\nverified sd1 blocks 15 corrupt 0 pending 0 bad 0 faults 0\nepoch end sd1\nstatus 13\n";

/// The last epoch is opened, and its log is full within the run.
#[test]
fn the_last_epoch_is_full(rt: HostRuntime) {
    let alloc = rt.alloc();
    let parts: [Bytes; 2] = [
        (0, 0, b"VDJGATE2\x7f\xff\xff\xff\xff\xff\xff\xfe"),
        (0, 16, ONE_SECTOR),
    ];
    let mut yard = there(&rt, alloc, SIXTEEN, &parts, &[], &[], &[]);
    expect(&rt, alloc, "full", GO_ON, &mut yard, LAST_IS_FULL, 13);
    expect(&rt, alloc, "after", RECOVER, &mut yard, THIRTY_IN_LAST, 0);
    expect(&rt, alloc, "no more", GO_ON, &mut yard, FULL_ENDS, 13);
    expect(
        &rt,
        alloc,
        "the same",
        RECOVER,
        &mut yard,
        THIRTY_IN_LAST,
        0,
    );
}

/// A journal that isn't recovered: how many sectors it has, which bytes, which call fails, and what is printed.
const STOPS: [(usize, &[Bytes], &[u64], &str, u8); 7] = [
    (0, &[], &[], "no journal sd1\nstatus 8\n", 8),
    (6, &[], &[], "no journal sd1\nstatus 8\n", 8),
    (1, NEW, &[], "damaged sd1 sector 1 missing 0\nstatus 9\n", 9),
    (
        6,
        &[GATE, (0, 16, ONE_SECTOR), (2, 0, &[127, 0])],
        &[],
        "damaged sd1 sector 2 map 0\nstatus 9\n",
        9,
    ),
    (
        6,
        &[
            GATE,
            (0, 16, ONE_SECTOR),
            (3, 0, b"VDJLOGS2"),
            (3, 21, &[1]),
            (3, 32, &[2, 0, 1, 0, 0, 0, 0, 2]),
        ],
        &[],
        "damaged sd1 sector 3 record 0\nstatus 9\n",
        9,
    ),
    (
        6,
        &[GATE, (0, 16, OF_SD2)],
        &[],
        "mismatch found sd2 blocks 16 of 4096 wanted sd1 blocks 16 of 4096\nstatus 10\n",
        10,
    ),
    (6, NEW, &[2], "journalfault sd1 record 0\nstatus 7\n", 7),
];

/// The text is that of recovery alone, no data is opened, and the journal stays.
#[test]
fn journals_that_are_not_recovered(rt: HostRuntime) {
    let alloc = rt.alloc();
    for (many, parts, calls, wanted, status) in STOPS {
        for line in [RECOVER, GO_ON] {
            let mut yard = yard_of(&rt, alloc, SMALL.as_bytes());
            let sectors = journal(&rt, alloc, many, parts);
            put_disk(&rt, alloc, &mut yard, "sd1.jnl", sectors, calls);
            expect(&rt, alloc, wanted, line, &mut yard, wanted, status);
            let kept = journal(&rt, alloc, many, parts);
            rests(&rt, alloc, &yard, wanted, "sd1.jnl", &kept);
            untouched(&rt, alloc, &yard, wanted, "/d/a");
        }
    }
}

/// The second store's journal: what it has besides zeros, or nothing where it is missing, and what is printed.
const SECOND_STOPS: [(Option<&[Bytes]>, &str, u8); 4] = [
    (
        None,
        "journal sd1 epoch 0 records 0\ncannot open sd2.jnl\nstatus 12\n",
        12,
    ),
    (
        Some(&[(0, 16, OF_SD2)]),
        "journal sd1 epoch 0 records 0\nno journal sd2\nstatus 8\n",
        8,
    ),
    (
        Some(&[GATE, (0, 16, OF_SD2), (2, 0, &[0, 2])]),
        "journal sd1 epoch 0 records 0\ndamaged sd2 sector 2 map 0\nstatus 9\n",
        9,
    ),
    (
        Some(NEW),
        "journal sd1 epoch 0 records 0\nmismatch found sd1 blocks 16 of 4096 wanted sd2 blocks 16 of 4096\nstatus 10\n",
        10,
    ),
];

#[test]
fn second_journals_that_are_not_recovered(rt: HostRuntime) {
    let alloc = rt.alloc();
    let first = journal(&rt, alloc, 6, NEW);
    for (second, wanted, status) in SECOND_STOPS {
        let mut yard = yard_of(&rt, alloc, TWO_STORES.as_bytes());
        let sectors = journal(&rt, alloc, 6, NEW);
        put_disk(&rt, alloc, &mut yard, "sd1.jnl", sectors, &[]);
        if let Some(parts) = second {
            let sectors = journal(&rt, alloc, 6, parts);
            put_disk(&rt, alloc, &mut yard, "sd2.jnl", sectors, &[]);
        }
        expect(&rt, alloc, wanted, RECOVER, &mut yard, wanted, status);
        expect(&rt, alloc, wanted, GO_ON, &mut yard, wanted, status);
        rests(&rt, alloc, &yard, wanted, "sd1.jnl", &first);
        untouched(&rt, alloc, &yard, wanted, "/d/a");
        untouched(&rt, alloc, &yard, wanted, "/d/b");
    }
}

/// Four blocks are written for the first time, in epoch 1.
const FOUR_IN_1: &str =
    "journal sd1 epoch 0 records 0\nverified sd1 blocks 0 corrupt 0 pending 0 bad 0 faults 0\nopened sd1 epoch 1\nrun 1 rd1\ninterval 1 reads 0 writes 4 bytes 16384 micros 0\nslave 1 workers 1 turns 4\ntotal sd1 turns 4 reads 0 prereads 0 rereads 0 writes 4 busy 0 badskip 0 bytes 16384 faults 0 corrupt 0\nstatus 0\n";

/// What is printed where four blocks that were written in epoch `live` are written again, in epoch `next`.
pub fn again(rt: &impl Abort, alloc: Global, live: u32, next: u32) -> String {
    format!(in alloc;
        "journal sd1 epoch {live} records 8\nverified sd1 blocks 4 corrupt 0 pending 0 bad 0 faults 0\nopened sd1 epoch {next}\nrun 1 rd1\ninterval 1 reads 0 writes 4 bytes 32768 micros 0\nslave 1 workers 1 turns 4\ntotal sd1 turns 4 reads 0 prereads 4 rereads 0 writes 4 busy 0 badskip 0 bytes 32768 faults 0 corrupt 0\nstatus 0\n"
    ).expect(rt, "memory")
}

/// Each command opens one epoch further, in the other area; and a new journal begins anew.
#[test]
fn one_epoch_further(rt: HostRuntime) {
    let alloc = rt.alloc();
    let mut yard = there(&rt, alloc, SMALL, NEW, &[], &[], &[]);
    expect(&rt, alloc, "first", GO_ON, &mut yard, FOUR_IN_1, 0);
    let sectors = in_epoch_1(&rt, alloc, NEW, &[], FIRST_WRITES);
    rests(&rt, alloc, &yard, "first", "sd1.jnl", &sectors);
    for (line, live, next) in [("-jr -v -oout -fp", 1, 2), ("-fp -jr", 2, 3)] {
        let wanted = again(&rt, alloc, live, next);
        expect(&rt, alloc, line, line, &mut yard, wanted.as_str(), 0);
    }
    let third = [(0, 0, 8, 3), (1, 0, 8, 3), (2, 0, 8, 3), (3, 0, 8, 3)];
    holds(&rt, alloc, &yard, "third", 65536, &third);
    let sectors = in_epochs_2_and_3(&rt, alloc);
    rests(&rt, alloc, &yard, "third", "sd1.jnl", &sectors);
    let after =
        "journal sd1 epoch 3 records 8\nverified sd1 blocks 4 corrupt 0 pending 0 bad 0 faults 0\nstatus 0\n";
    expect(&rt, alloc, "after", RECOVER, &mut yard, after, 0);
    expect(&rt, alloc, "anew", "-j -f p", &mut yard, FOUR_WRITES, 0);
    let wanted = again(&rt, alloc, 0, 1);
    expect(&rt, alloc, "over it", GO_ON, &mut yard, wanted.as_str(), 0);
}

/// Four blocks at key 1 were written in epoch 2, and again in epoch 3.
fn in_epochs_2_and_3(rt: &impl Abort, alloc: Global) -> Vec<Sector> {
    let parts: [Bytes; 8] = [
        GATE,
        (0, 15, &[2]),
        (0, 16, ONE_SECTOR),
        (1, 0, b"VDJGATE2"),
        (1, 15, &[3]),
        (1, 16, ONE_SECTOR),
        (2, 0, &[1, 0, 1, 0, 1, 0, 1, 0]),
        (4, 0, &[2, 0, 2, 0, 2, 0, 2, 0]),
    ];
    let mut sectors = journal(rt, alloc, 6, &parts);
    for (at, epoch, old, new) in [(3, 2, 1, 2), (5, 3, 2, 3)] {
        put_log(
            rt,
            &mut sectors,
            at,
            epoch,
            &[
                (1, old, new, 0),
                (2, 0, new, 0),
                (1, old, new, 1),
                (2, 0, new, 1),
                (1, old, new, 2),
                (2, 0, new, 2),
                (1, old, new, 3),
                (2, 0, new, 3),
            ],
        );
    }
    sectors
}

/// A journal of version 1 with 8 log sectors goes on in version 2, with as many as it has.
#[test]
fn another_version(rt: HostRuntime) {
    let alloc = rt.alloc();
    let mut yard = over(&rt, alloc, FOUR, 65536, &[]);
    let sectors = created(&rt, alloc, STORE);
    put_disk(&rt, alloc, &mut yard, "sd1.jnl", sectors, &[]);
    expect(&rt, alloc, "version", GO_ON, &mut yard, FOUR_IN_1, 0);
    holds(&rt, alloc, &yard, "version", 65536, FIRST_FOUR);
    let mut sectors = created(&rt, alloc, STORE);
    let others: [Bytes; 3] = [(1, 0, b"VDJGATE2"), (1, 15, &[1]), (1, 16, STORE)];
    for bytes in others {
        put(&rt, &mut sectors, &bytes);
    }
    put_log(&rt, &mut sectors, 12, 1, FIRST_WRITES);
    rests(&rt, alloc, &yard, "version", "sd1.jnl", &sectors);
    expect(&rt, alloc, "after", RECOVER, &mut yard, EIGHT_IN_1, 0);
}

const READS_IN_1: &str =
    "journal sd1 epoch 0 records 0\nverified sd1 blocks 1 corrupt 0 pending 0 bad 0 faults 0\nopened sd1 epoch 1\nrun 1 rd1\ninterval 1 reads 2 writes 0 bytes 8192 micros 0\nslave 1 workers 1 turns 2\ntotal sd1 turns 2 reads 2 prereads 0 rereads 0 writes 0 busy 0 badskip 0 bytes 8192 faults 0 corrupt 0\nstatus 0\n";

/// Log sectors of later epochs are taken away, so that none counts in the epoch that is opened; a run of reads leaves that without records.
#[test]
fn later_log_sectors(rt: HostRuntime) {
    let alloc = rt.alloc();
    let mut yard = there(
        &rt,
        alloc,
        TWO_READS,
        &[
            GATE,
            (0, 16, ONE_SECTOR),
            (2, 0, &[3, 0]),
            (3, 8, &[1]),
            (3, 32, &[9]),
            (5, 0, b"VDJLOGS2"),
            (5, 15, &[1]),
            (5, 21, &[1]),
            (5, 32, &[1, 0, 1, 0, 0, 0, 0, 2]),
        ],
        &[],
        &[(0, 0, 8, 3)],
        &[],
    );
    expect(&rt, alloc, "later", GO_ON, &mut yard, READS_IN_1, 0);
    let before: [Bytes; 3] = [GATE, (0, 16, ONE_SECTOR), (2, 0, &[3, 0])];
    let sectors = in_epoch_1(&rt, alloc, &before, &[3, 0], &[]);
    rests(&rt, alloc, &yard, "later", "sd1.jnl", &sectors);
    holds(&rt, alloc, &yard, "later", 65536, &[(0, 0, 8, 3)]);
    let after =
        "journal sd1 epoch 1 records 0\nverified sd1 blocks 1 corrupt 0 pending 0 bad 0 faults 0\nstatus 0\n";
    expect(&rt, alloc, "after", RECOVER, &mut yard, after, 0);
}

/// Block 0 is settled at 3 and block 1 at 2.
pub const TWO_SETTLED: &[Bytes] = &[GATE, (0, 16, ONE_SECTOR), (2, 0, &[3, 0, 2, 0])];

/// One sector of block 0 is an older one.
pub const STALE: &[Stamped] = &[(0, 0, 8, 3), (0, 2, 3, 2), (1, 0, 8, 2)];

pub const CORRUPT: &str =
    "journal sd1 epoch 0 records 0\ncorrupt sd1 block 0 sector 2 address 1024 part key keys 3\nverified sd1 blocks 2 corrupt 1 pending 0 bad 0 faults 0\nopened sd1 epoch 1\nrun 1 rd1\ninterval 1 reads 0 writes 3 bytes 16384 micros 0\nslave 1 workers 1 turns 4\ntotal sd1 turns 4 reads 0 prereads 1 rereads 0 writes 3 busy 0 badskip 1 bytes 16384 faults 0 corrupt 0\nstatus 1\n";

pub const BAD: &str =
    "journal sd1 epoch 1 records 6\nverified sd1 blocks 3 corrupt 0 pending 0 bad 1 faults 0\nstatus 0\n";

const BAD_AGAIN: &str =
    "journal sd1 epoch 1 records 6\nverified sd1 blocks 3 corrupt 0 pending 0 bad 1 faults 0\nopened sd1 epoch 2\nrun 1 rd1\ninterval 1 reads 0 writes 3 bytes 24576 micros 0\nslave 1 workers 1 turns 4\ntotal sd1 turns 4 reads 0 prereads 3 rereads 0 writes 3 busy 0 badskip 1 bytes 24576 faults 0 corrupt 0\nstatus 0\n";

/// A block that is found corrupt is bad from the opening on: no turn uses it, in this command or a later one.
#[test]
fn a_corrupt_block(rt: HostRuntime) {
    let alloc = rt.alloc();
    let mut yard = there(&rt, alloc, SMALL, TWO_SETTLED, &[], STALE, &[]);
    expect(&rt, alloc, "corrupt", GO_ON, &mut yard, CORRUPT, 1);
    let images = [
        (0, 0, 8, 3),
        (0, 2, 3, 2),
        (1, 0, 8, 3),
        (2, 0, 8, 1),
        (3, 0, 8, 1),
    ];
    holds(&rt, alloc, &yard, "corrupt", 65536, &images);
    let records = [
        (1, 2, 3, 1),
        (2, 0, 3, 1),
        (1, 0, 1, 2),
        (2, 0, 1, 2),
        (1, 0, 1, 3),
        (2, 0, 1, 3),
    ];
    let sectors = in_epoch_1(&rt, alloc, TWO_SETTLED, &[0, 255, 2, 0], &records);
    rests(&rt, alloc, &yard, "corrupt", "sd1.jnl", &sectors);
    expect(&rt, alloc, "bad", RECOVER, &mut yard, BAD, 0);
    expect(&rt, alloc, "again", GO_ON, &mut yard, BAD_AGAIN, 0);
    let after =
        "journal sd1 epoch 2 records 6\nverified sd1 blocks 3 corrupt 0 pending 0 bad 1 faults 0\nstatus 0\n";
    expect(&rt, alloc, "after", RECOVER, &mut yard, after, 0);
}

const CORRUPT_AND_UNREAD: &str =
    "journal sd1 epoch 0 records 0\ncorrupt sd1 block 0 sector 2 address 1024 part key keys 3\nverified sd1 blocks 2 corrupt 1 pending 0 bad 0 faults 0\nopened sd1 epoch 1\nrun 1 rd1\nreadfault sd1 block 1\ninterval 1 reads 0 writes 2 bytes 8192 micros 0\nslave 1 workers 1 turns 4\ntotal sd1 turns 4 reads 0 prereads 0 rereads 0 writes 2 busy 0 badskip 1 bytes 8192 faults 1 corrupt 0\nstatus 2\n";

const CORRUPT_AND_STOPPED: &str =
    "journal sd1 epoch 0 records 0\ncorrupt sd1 block 0 sector 2 address 1024 part key keys 3\nverified sd1 blocks 2 corrupt 1 pending 0 bad 0 faults 0\nopened sd1 epoch 1\nrun 1 rd1\ninterval 1 reads 0 writes 0 bytes 4096 micros 0\nslave 1 workers 1 turns 2\ntotal sd1 turns 2 reads 0 prereads 1 rereads 0 writes 0 busy 0 badskip 1 bytes 4096 faults 0 corrupt 0\njournalfault sd1 record 1\nstatus 7\n";

const CORRUPT_AND_UNOPENED: &str =
    "journal sd1 epoch 0 records 0\ncorrupt sd1 block 0 sector 2 address 1024 part key keys 3\nverified sd1 blocks 2 corrupt 1 pending 0 bad 0 faults 0\njournalfault sd1 record 0\nstatus 7\n";

/// The worse status of verification and of the runs stands: a failed device or a failed journal above a corrupt block.
#[test]
fn the_worse_status(rt: HostRuntime) {
    let alloc = rt.alloc();
    let mut yard = there(&rt, alloc, SMALL, TWO_SETTLED, &[], STALE, &[(1, 0, 0)]);
    let wanted = CORRUPT_AND_UNREAD;
    expect(&rt, alloc, "device", GO_ON, &mut yard, wanted, 2);
    let mut yard = there(&rt, alloc, SMALL, TWO_SETTLED, &[10], STALE, &[]);
    let wanted = CORRUPT_AND_STOPPED;
    expect(&rt, alloc, "journal", GO_ON, &mut yard, wanted, 7);
    let mut yard = there(&rt, alloc, SMALL, TWO_SETTLED, &[6], STALE, &[]);
    let wanted = CORRUPT_AND_UNOPENED;
    expect(&rt, alloc, "opening", GO_ON, &mut yard, wanted, 7);
    let sectors = journal(&rt, alloc, 6, TWO_SETTLED);
    keeps(&rt, alloc, &yard, "opening", "sd1.jnl", &sectors);
    holds(&rt, alloc, &yard, "opening", 65536, STALE);
}

/// A write of block 0 was begun: its keys, what the block holds, what is printed and the status; then the block's entry as it is opened,
/// the records of the new epoch, what the block holds, and what `-jro` says.
#[derive(Drop)]
struct Begun<'a> {
    name: &'a str,
    old: u8,
    new: u8,
    images: &'a [Stamped],
    text: &'a str,
    status: u8,
    map: &'a [u8],
    records: &'a [Record],
    left: &'a [Stamped],
    after: &'a str,
}

fn check_begun(rt: &(impl Abort + Threads + Wait + Sync), alloc: Global, row: &Begun) {
    let parts: [Bytes; 6] = [
        GATE,
        (0, 16, ONE_SECTOR),
        (2, 0, &[row.old]),
        (3, 0, b"VDJLOGS2"),
        (3, 21, &[1]),
        (3, 32, &[1, row.old, row.new]),
    ];
    let mut yard = there(rt, alloc, ONE, &parts, &[], row.images, &[]);
    expect(rt, alloc, row.name, GO_ON, &mut yard, row.text, row.status);
    let sectors = in_epoch_1(rt, alloc, &parts, row.map, row.records);
    rests(rt, alloc, &yard, row.name, "sd1.jnl", &sectors);
    holds(rt, alloc, &yard, row.name, 65536, row.left);
    expect(rt, alloc, row.name, RECOVER, &mut yard, row.after, 0);
}

/// What `-jro` says of one block with so many records in epoch 1.
pub const TWO_RECORDS: &str =
    "journal sd1 epoch 1 records 2\nverified sd1 blocks 1 corrupt 0 pending 0 bad 0 faults 0\nstatus 0\n";

pub const ONE_RECORD: &str =
    "journal sd1 epoch 1 records 1\nverified sd1 blocks 1 corrupt 0 pending 0 bad 0 faults 0\nstatus 0\n";

#[test]
fn blocks_that_were_in_flight(rt: HostRuntime) {
    let rows = [
        Begun {
            name: "new",
            old: 3,
            new: 4,
            images: &[(0, 0, 8, 4)],
            text: "journal sd1 epoch 0 records 1\npending sd1 block 0 keys 3 4 holds new\nverified sd1 blocks 1 corrupt 0 pending 1 bad 0 faults 0\nopened sd1 epoch 1\nrun 1 rd1\ninterval 1 reads 0 writes 1 bytes 8192 micros 0\nslave 1 workers 1 turns 1\ntotal sd1 turns 1 reads 0 prereads 1 rereads 0 writes 1 busy 0 badskip 0 bytes 8192 faults 0 corrupt 0\nstatus 0\n",
            status: 0,
            map: &[4, 0],
            records: &[(1, 4, 5, 0), (2, 0, 5, 0)],
            left: &[(0, 0, 8, 5)],
            after: TWO_RECORDS,
        },
        Begun {
            name: "old",
            old: 3,
            new: 4,
            images: &[(0, 0, 8, 3)],
            text: "journal sd1 epoch 0 records 1\npending sd1 block 0 keys 3 4 holds old\nverified sd1 blocks 1 corrupt 0 pending 1 bad 0 faults 0\nopened sd1 epoch 1\nrun 1 rd1\ninterval 1 reads 0 writes 1 bytes 8192 micros 0\nslave 1 workers 1 turns 1\ntotal sd1 turns 1 reads 0 prereads 1 rereads 0 writes 1 busy 0 badskip 0 bytes 8192 faults 0 corrupt 0\nstatus 0\n",
            status: 0,
            map: &[3, 0],
            records: &[(1, 3, 4, 0), (2, 0, 4, 0)],
            left: &[(0, 0, 8, 4)],
            after: TWO_RECORDS,
        },
        Begun {
            name: "mixed: it stays pending, and its next write has no beginning of its own",
            old: 3,
            new: 4,
            images: &[(0, 0, 4, 4), (0, 4, 8, 3)],
            text: "journal sd1 epoch 0 records 1\npending sd1 block 0 keys 3 4 holds mixed\nverified sd1 blocks 1 corrupt 0 pending 1 bad 0 faults 0\nopened sd1 epoch 1\nrun 1 rd1\ninterval 1 reads 0 writes 1 bytes 8192 micros 0\nslave 1 workers 1 turns 1\ntotal sd1 turns 1 reads 0 prereads 1 rereads 0 writes 1 busy 0 badskip 0 bytes 8192 faults 0 corrupt 0\nstatus 0\n",
            status: 0,
            map: &[3, 4],
            records: &[(2, 0, 4, 0)],
            left: &[(0, 0, 8, 4)],
            after: ONE_RECORD,
        },
        Begun {
            name: "neither",
            old: 3,
            new: 4,
            images: &[(0, 0, 7, 4), (0, 7, 8, 2)],
            text: "journal sd1 epoch 0 records 1\ncorrupt sd1 block 0 sector 7 address 3584 part key keys 3 4\nverified sd1 blocks 1 corrupt 1 pending 1 bad 0 faults 0\nopened sd1 epoch 1\nrun 1 rd1\nslave 1 workers 1 turns 1\ntotal sd1 turns 1 reads 0 prereads 0 rereads 0 writes 0 busy 0 badskip 1 bytes 0 faults 0 corrupt 0\nstatus 1\n",
            status: 1,
            map: &[0, 255],
            records: &[],
            left: &[(0, 0, 7, 4), (0, 7, 8, 2)],
            after: "journal sd1 epoch 1 records 0\nverified sd1 blocks 0 corrupt 0 pending 0 bad 1 faults 0\nstatus 0\n",
        },
        Begun {
            name: "never written before, and not read again",
            old: 0,
            new: 1,
            images: &[],
            text: "journal sd1 epoch 0 records 1\npending sd1 block 0 keys 0 1 holds old\nverified sd1 blocks 1 corrupt 0 pending 1 bad 0 faults 0\nopened sd1 epoch 1\nrun 1 rd1\ninterval 1 reads 0 writes 1 bytes 4096 micros 0\nslave 1 workers 1 turns 1\ntotal sd1 turns 1 reads 0 prereads 0 rereads 0 writes 1 busy 0 badskip 0 bytes 4096 faults 0 corrupt 0\nstatus 0\n",
            status: 0,
            map: &[],
            records: &[(1, 0, 1, 0), (2, 0, 1, 0)],
            left: &[(0, 0, 8, 1)],
            after: TWO_RECORDS,
        },
        Begun {
            name: "at the wrap",
            old: 126,
            new: 1,
            images: &[(0, 0, 8, 1)],
            text: "journal sd1 epoch 0 records 1\npending sd1 block 0 keys 126 1 holds new\nverified sd1 blocks 1 corrupt 0 pending 1 bad 0 faults 0\nopened sd1 epoch 1\nrun 1 rd1\ninterval 1 reads 0 writes 1 bytes 8192 micros 0\nslave 1 workers 1 turns 1\ntotal sd1 turns 1 reads 0 prereads 1 rereads 0 writes 1 busy 0 badskip 0 bytes 8192 faults 0 corrupt 0\nstatus 0\n",
            status: 0,
            map: &[1, 0],
            records: &[(1, 1, 2, 0), (2, 0, 2, 0)],
            left: &[(0, 0, 8, 2)],
            after: TWO_RECORDS,
        },
    ];
    for row in &rows {
        check_begun(&rt, rt.alloc(), row);
    }
}
