// Runs of a plan over journals that are made anew: what they print, and what they leave in data and journals.
use crate::setting::{
    BY_DEFAULT, Bytes, GATE, NOTHING, ONE_SECTOR, RECOVER, Stamped, expect, expect_failing, holds,
    journal, keeps, over, put, put_disk, put_head, put_record, put_sector, rests, text, yard_of,
};
use std::alloc::Global;
use std::process::Abort;
use std::sync::Wait;
use std::thread::Threads;
use vd_base::Sector;

/// The runs of p over new journals.
const RUN: &str = "-j -f p";

/// A store of 16 blocks of 4,096 bytes that one worker writes from its first block on, in four turns.
pub const FOUR: &str =
    "sd=sd1,lun=/d/a,size=64k,threads=1\nwd=wd1,sd=sd1,xfersize=4k,rdpct=0,seekpct=0\nrd=rd1,wd=wd1,turns=4\n";

/// The same with one log sector, so that its journal has 6 sectors.
pub const SMALL: &str =
    "journal_sectors=1\nsd=sd1,lun=/d/a,size=64k,threads=1\nwd=wd1,sd=sd1,xfersize=4k,rdpct=0,seekpct=0\nrd=rd1,wd=wd1,turns=4\n";

/// The same with one log sector and 16 turns.
pub const SIXTEEN: &str =
    "journal_sectors=1\nsd=sd1,lun=/d/a,size=64k,threads=1\nwd=wd1,sd=sd1,xfersize=4k,rdpct=0,seekpct=0\nrd=rd1,wd=wd1,turns=16\n";

/// Two workers of two turns each.
const TWO_WORKERS: &str =
    "sd=sd1,lun=/d/a,size=64k,threads=2\nwd=wd1,sd=sd1,xfersize=4k,rdpct=0,seekpct=0\nrd=rd1,wd=wd1,turns=2\n";

/// A store of two blocks and three turns, of which the third comes to a block that was written.
const THREE: &str =
    "sd=sd1,lun=/d/a,size=8k,threads=1\nwd=wd1,sd=sd1,xfersize=4k,rdpct=0,seekpct=0\nrd=rd1,wd=wd1,turns=3\n";

/// Two stores and two runs, with one log sector.
pub const TWO_STORES: &str =
    "journal_sectors=1\nsd=sd1,lun=/d/a,size=64k,threads=1\nsd=sd2,lun=/d/b,size=64k,threads=1\nwd=wd1,sd=sd*,xfersize=4k,rdpct=0,seekpct=0\nrd=rd1,wd=wd1,turns=2\nrd=rd2,wd=wd1,turns=1\n";

pub const FOUR_WRITES: &str =
    "opened sd1 epoch 0\nrun 1 rd1\ninterval 1 reads 0 writes 4 bytes 16384 micros 0\nslave 1 workers 1 turns 4\ntotal sd1 turns 4 reads 0 prereads 0 rereads 0 writes 4 busy 0 badskip 0 bytes 16384 faults 0 corrupt 0\nstatus 0\n";

const FOUR_REREAD: &str =
    "opened sd1 epoch 0\nrun 1 rd1\ninterval 1 reads 0 writes 4 bytes 32768 micros 0\nslave 1 workers 1 turns 4\ntotal sd1 turns 4 reads 0 prereads 0 rereads 4 writes 4 busy 0 badskip 0 bytes 32768 faults 0 corrupt 0\nstatus 0\n";

const SIXTEEN_WRITES: &str =
    "opened sd1 epoch 0\nrun 1 rd1\ninterval 1 reads 0 writes 16 bytes 65536 micros 0\nslave 1 workers 1 turns 16\ntotal sd1 turns 16 reads 0 prereads 0 rereads 0 writes 16 busy 0 badskip 0 bytes 65536 faults 0 corrupt 0\nstatus 0\n";

const TWO_BY_TWO: &str =
    "opened sd1 epoch 0\nrun 1 rd1\ninterval 1 reads 0 writes 4 bytes 16384 micros 0\nslave 1 workers 2 turns 4\ntotal sd1 turns 4 reads 0 prereads 0 rereads 0 writes 4 busy 0 badskip 0 bytes 16384 faults 0 corrupt 0\nstatus 0\n";

const TORN: &str =
    "opened sd1 epoch 0\nrun 1 rd1\nwritefault sd1 block 0\ninterval 1 reads 0 writes 2 bytes 12288 micros 0\nslave 1 workers 1 turns 3\ntotal sd1 turns 3 reads 0 prereads 1 rereads 0 writes 2 busy 0 badskip 0 bytes 12288 faults 1 corrupt 0\nstatus 2\n";

const UNREAD: &str =
    "opened sd1 epoch 0\nrun 1 rd1\nreadfault sd1 block 0\ninterval 1 reads 0 writes 2 bytes 8192 micros 0\nslave 1 workers 1 turns 3\ntotal sd1 turns 3 reads 0 prereads 0 rereads 0 writes 2 busy 0 badskip 0 bytes 8192 faults 1 corrupt 0\nstatus 2\n";

pub const THIRD_BEGIN_FAILS: &str =
    "opened sd1 epoch 0\nrun 1 rd1\ninterval 1 reads 0 writes 2 bytes 8192 micros 0\nslave 1 workers 1 turns 3\ntotal sd1 turns 3 reads 0 prereads 0 rereads 0 writes 2 busy 0 badskip 0 bytes 8192 faults 0 corrupt 0\njournalfault sd1 record 5\nstatus 7\n";

const FIRST_BEGIN_FAILS: &str =
    "opened sd1 epoch 0\nrun 1 rd1\nslave 1 workers 1 turns 1\ntotal sd1 turns 1 reads 0 prereads 0 rereads 0 writes 0 busy 0 badskip 0 bytes 0 faults 0 corrupt 0\njournalfault sd1 record 1\nstatus 7\n";

const CLOSING_FAILS: &str =
    "opened sd1 epoch 0\nrun 1 rd1\ninterval 1 reads 0 writes 4 bytes 16384 micros 0\nslave 1 workers 1 turns 4\ntotal sd1 turns 4 reads 0 prereads 0 rereads 0 writes 4 busy 0 badskip 0 bytes 16384 faults 0 corrupt 0\njournalfault sd1 record 8\nstatus 7\n";

/// What `-jro` says of four blocks that were written once.
const EIGHT_RECORDS: &str =
    "journal sd1 epoch 0 records 8\nverified sd1 blocks 4 corrupt 0 pending 0 bad 0 faults 0\nstatus 0\n";

pub const TWO_RUNS: &str =
    "opened sd1 epoch 0\nopened sd2 epoch 0\nrun 1 rd1\ninterval 1 reads 0 writes 4 bytes 16384 micros 0\nslave 1 workers 2 turns 4\ntotal sd1 turns 2 reads 0 prereads 0 rereads 0 writes 2 busy 0 badskip 0 bytes 8192 faults 0 corrupt 0\ntotal sd2 turns 2 reads 0 prereads 0 rereads 0 writes 2 busy 0 badskip 0 bytes 8192 faults 0 corrupt 0\nrun 2 rd2\ninterval 1 reads 0 writes 2 bytes 16384 micros 0\nslave 1 workers 2 turns 2\ntotal sd1 turns 1 reads 0 prereads 1 rereads 0 writes 1 busy 0 badskip 0 bytes 8192 faults 0 corrupt 0\ntotal sd2 turns 1 reads 0 prereads 1 rereads 0 writes 1 busy 0 badskip 0 bytes 8192 faults 0 corrupt 0\nstatus 0\n";

const TWO_AFTER: &str =
    "journal sd1 epoch 0 records 6\njournal sd2 epoch 0 records 6\nverified sd1 blocks 2 corrupt 0 pending 0 bad 0 faults 0\nverified sd2 blocks 2 corrupt 0 pending 0 bad 0 faults 0\nstatus 0\n";

const SECOND_FAILS: &str =
    "opened sd1 epoch 0\nopened sd2 epoch 0\nrun 1 rd1\ninterval 1 reads 0 writes 3 bytes 12288 micros 0\nslave 1 workers 2 turns 4\ntotal sd1 turns 2 reads 0 prereads 0 rereads 0 writes 2 busy 0 badskip 0 bytes 8192 faults 0 corrupt 0\ntotal sd2 turns 2 reads 0 prereads 0 rereads 0 writes 1 busy 0 badskip 0 bytes 4096 faults 0 corrupt 0\njournalfault sd2 record 3\nstatus 7\n";

const SECOND_FAILED: &str =
    "journal sd1 epoch 0 records 4\njournal sd2 epoch 0 records 3\nverified sd1 blocks 2 corrupt 0 pending 0 bad 0 faults 0\npending sd2 block 1 keys 0 1 holds old\nverified sd2 blocks 2 corrupt 0 pending 1 bad 0 faults 0\nstatus 0\n";

/// Two runs of two turns, by transfers of one block and of four.
const SEVERAL: &str =
    "sd=sd1,lun=/d/a,size=64k,threads=1\nwd=wd1,sd=sd1,xfersize=4k,rdpct=0,seekpct=0\nrd=rd1,wd=wd1,turns=2,forxfersize=(4k,16k)\n";

const ONE_AND_FOUR: &str =
    "opened sd1 epoch 0\nrun 1 rd1\ninterval 1 reads 0 writes 2 bytes 8192 micros 0\nslave 1 workers 1 turns 2\ntotal sd1 turns 2 reads 0 prereads 0 rereads 0 writes 2 busy 0 badskip 0 bytes 8192 faults 0 corrupt 0\nrun 2 rd1\ninterval 1 reads 0 writes 8 bytes 49152 micros 0\nslave 1 workers 1 turns 2\ntotal sd1 turns 2 reads 0 prereads 4 rereads 0 writes 8 busy 0 badskip 0 bytes 49152 faults 0 corrupt 0\nstatus 0\n";

const TWICE_AND_ONCE: &[Stamped] = &[
    (0, 0, 8, 2),
    (1, 0, 8, 2),
    (2, 0, 8, 1),
    (3, 0, 8, 1),
    (4, 0, 8, 1),
    (5, 0, 8, 1),
    (6, 0, 8, 1),
    (7, 0, 8, 1),
];

pub const FIRST_TWO: &[Stamped] = &[(0, 0, 8, 1), (1, 0, 8, 1)];

pub const FIRST_FOUR: &[Stamped] = &[(0, 0, 8, 1), (1, 0, 8, 1), (2, 0, 8, 1), (3, 0, 8, 1)];

/// The first two blocks of each half at key 1.
const TWO_OF_EACH: &[Stamped] = &[(0, 0, 8, 1), (1, 0, 8, 1), (8, 0, 8, 1), (9, 0, 8, 1)];

const ALL: &[Stamped] = &[
    (0, 0, 8, 1),
    (1, 0, 8, 1),
    (2, 0, 8, 1),
    (3, 0, 8, 1),
    (4, 0, 8, 1),
    (5, 0, 8, 1),
    (6, 0, 8, 1),
    (7, 0, 8, 1),
    (8, 0, 8, 1),
    (9, 0, 8, 1),
    (10, 0, 8, 1),
    (11, 0, 8, 1),
    (12, 0, 8, 1),
    (13, 0, 8, 1),
    (14, 0, 8, 1),
    (15, 0, 8, 1),
];

const OF_TWO_BLOCKS: &[u8] = b"sd1\0\0\0\0\0\0\0\0\x02\0\0\x10\0\0\0\x10\0";

/// Records of writes from key 0 to key 1: the kind and the block.
pub type Record = (u8, u8);

const BEGIN: u8 = 1;

const END: u8 = 2;

const EIGHT: &[Record] = &[
    (BEGIN, 0),
    (END, 0),
    (BEGIN, 1),
    (END, 1),
    (BEGIN, 2),
    (END, 2),
    (BEGIN, 3),
    (END, 3),
];

pub const FIVE: &[Record] = &[(BEGIN, 0), (END, 0), (BEGIN, 1), (END, 1), (BEGIN, 2)];

const OF_FIRST_TWO: &[Record] = &[(BEGIN, 0), (END, 0), (BEGIN, 1), (END, 1)];

/// The first write failed, and the block was written again by the third turn.
const AFTER_A_TORN_WRITE: &[Record] = &[(BEGIN, 0), (BEGIN, 1), (END, 1), (END, 0)];

const THIRTY: &[Record] = &[
    (BEGIN, 0),
    (END, 0),
    (BEGIN, 1),
    (END, 1),
    (BEGIN, 2),
    (END, 2),
    (BEGIN, 3),
    (END, 3),
    (BEGIN, 4),
    (END, 4),
    (BEGIN, 5),
    (END, 5),
    (BEGIN, 6),
    (END, 6),
    (BEGIN, 7),
    (END, 7),
    (BEGIN, 8),
    (END, 8),
    (BEGIN, 9),
    (END, 9),
    (BEGIN, 10),
    (END, 10),
    (BEGIN, 11),
    (END, 11),
    (BEGIN, 12),
    (END, 12),
    (BEGIN, 13),
    (END, 13),
    (BEGIN, 14),
    (END, 14),
];

/// Puts a log sector of records: its place in the file, and the records.
fn put_log(rt: &impl Abort, sectors: &mut Vec<Sector>, at: usize, records: &[Record]) {
    let many = records.len();
    put_head(rt, sectors, at, 0, many);
    for i in 0..many {
        let (kind, block) = records[i];
        put_record(rt, sectors, at, i, (kind, 0, 1, block));
    }
}

/// A journal in epoch 0 of so many sectors, of the store that these bytes of a gate name, with these records and no map.
pub fn with_records(
    rt: &impl Abort,
    alloc: Global,
    many: usize,
    store: &[u8],
    records: &[Record],
) -> Vec<Sector> {
    let mut sectors = journal(rt, alloc, many, &[GATE, (0, 16, store)]);
    if records.len() > 0 {
        put_log(rt, &mut sectors, 3, records);
    }
    sectors
}

#[test]
fn four_writes(rt: HostRuntime) {
    let alloc = rt.alloc();
    let mut yard = over(&rt, alloc, FOUR, 65536, &[]);
    expect(&rt, alloc, "four", RUN, &mut yard, FOUR_WRITES, 0);
    holds(&rt, alloc, &yard, "four", 65536, FIRST_FOUR);
    let wanted = with_records(&rt, alloc, 8196, BY_DEFAULT, EIGHT);
    keeps(&rt, alloc, &yard, "four", "sd1.jnl", &wanted);
    expect(&rt, alloc, "after", RECOVER, &mut yard, EIGHT_RECORDS, 0);
}

#[test]
fn words_for_new_journals(rt: HostRuntime) {
    let alloc = rt.alloc();
    for (line, wanted) in [
        ("-fp -j", FOUR_WRITES),
        ("-j -v -f p", FOUR_WRITES),
        ("-v -j -fp -oout", FOUR_WRITES),
        ("-j -vr -f p", FOUR_REREAD),
        ("-vr -o out -fp -j", FOUR_REREAD),
    ] {
        let mut yard = over(&rt, alloc, SMALL, 65536, &[]);
        expect(&rt, alloc, line, line, &mut yard, wanted, 0);
        holds(&rt, alloc, &yard, line, 65536, FIRST_FOUR);
        let kept = with_records(&rt, alloc, 6, ONE_SECTOR, EIGHT);
        rests(&rt, alloc, &yard, line, "sd1.jnl", &kept);
        expect(&rt, alloc, line, RECOVER, &mut yard, EIGHT_RECORDS, 0);
        // once more: the journal is made anew, and the keys begin anew
        expect(&rt, alloc, line, line, &mut yard, wanted, 0);
        holds(&rt, alloc, &yard, line, 65536, FIRST_FOUR);
        rests(&rt, alloc, &yard, line, "sd1.jnl", &kept);
    }
}

/// Eight sectors of this byte, but that those with bytes of a journal have these and zeros.
fn filled(rt: &impl Abort, alloc: Global, fill: u8, parts: &[Bytes]) -> Vec<Sector> {
    let mut sectors = vec![in alloc; [fill; 512]; 8].expect(rt, "memory");
    for bytes in parts {
        put_sector(rt, &mut sectors, bytes.0, 0);
    }
    for bytes in parts {
        put(rt, &mut sectors, bytes);
    }
    sectors
}

/// Whatever stood in a journal's file is overwritten, and what is behind the journal stays.
#[test]
fn journals_that_were_there(rt: HostRuntime) {
    let alloc = rt.alloc();
    let parts: [&[Bytes]; 4] = [
        &[],
        &[GATE, (0, 16, ONE_SECTOR), (3, 0, b"VDJLOGS2")],
        &[
            (0, 0, b"VDJGATE1"),
            (0, 15, &[6]),
            (0, 16, b"sd2\0\0\0\0\0\0\0\0\x10\0\0\x10\0\0\0\0\x01"),
        ],
        &[
            (0, 0, b"VDJGATE2"),
            (0, 15, &[8]),
            (0, 16, ONE_SECTOR),
            (1, 0, b"VDJGATE2"),
            (1, 15, &[7]),
            (1, 16, ONE_SECTOR),
        ],
    ];
    for part in parts {
        for fill in [0u8, 170] {
            let mut yard = over(&rt, alloc, SMALL, 65536, &[]);
            let before = filled(&rt, alloc, fill, part);
            put_disk(&rt, alloc, &mut yard, "sd1.jnl", before, &[]);
            expect(&rt, alloc, "was there", RUN, &mut yard, FOUR_WRITES, 0);
            let mut wanted = with_records(&rt, alloc, 8, ONE_SECTOR, EIGHT);
            put_sector(&rt, &mut wanted, 6, fill);
            put_sector(&rt, &mut wanted, 7, fill);
            rests(&rt, alloc, &yard, "was there", "sd1.jnl", &wanted);
            expect(&rt, alloc, "after", RECOVER, &mut yard, EIGHT_RECORDS, 0);
        }
    }
}

#[test]
fn journal_sync_fails(rt: HostRuntime) {
    let alloc = rt.alloc();
    let mut yard = over(&rt, alloc, FOUR, 65536, &[]);
    // making the journal takes 8203 calls, and each begin a write and a sync
    put_disk(&rt, alloc, &mut yard, "sd1.jnl", Vec::new(alloc), &[8208]);
    expect(&rt, alloc, "sync", RUN, &mut yard, THIRD_BEGIN_FAILS, 7);
    holds(&rt, alloc, &yard, "sync", 65536, FIRST_TWO);
    let wanted = with_records(&rt, alloc, 8196, BY_DEFAULT, FIVE);
    keeps(&rt, alloc, &yard, "sync", "sd1.jnl", &wanted);
    let after =
        "journal sd1 epoch 0 records 5\npending sd1 block 2 keys 0 1 holds old\nverified sd1 blocks 3 corrupt 0 pending 1 bad 0 faults 0\nstatus 0\n";
    expect(&rt, alloc, "after", RECOVER, &mut yard, after, 0);
}

/// A call of the journal that fails once it is made, what the command prints, and what `-jro` then says.
const FAILED_CALLS: [(u64, &str, &str); 6] = [
    (13, FIRST_BEGIN_FAILS, NOTHING),
    (
        14,
        FIRST_BEGIN_FAILS,
        "journal sd1 epoch 0 records 1\npending sd1 block 0 keys 0 1 holds old\nverified sd1 blocks 1 corrupt 0 pending 1 bad 0 faults 0\nstatus 0\n",
    ),
    (
        17,
        THIRD_BEGIN_FAILS,
        "journal sd1 epoch 0 records 3\npending sd1 block 1 keys 0 1 holds new\nverified sd1 blocks 2 corrupt 0 pending 1 bad 0 faults 0\nstatus 0\n",
    ),
    (
        18,
        THIRD_BEGIN_FAILS,
        "journal sd1 epoch 0 records 5\npending sd1 block 2 keys 0 1 holds old\nverified sd1 blocks 3 corrupt 0 pending 1 bad 0 faults 0\nstatus 0\n",
    ),
    // the last end is written as the journal is closed
    (
        21,
        CLOSING_FAILS,
        "journal sd1 epoch 0 records 7\npending sd1 block 3 keys 0 1 holds new\nverified sd1 blocks 4 corrupt 0 pending 1 bad 0 faults 0\nstatus 0\n",
    ),
    (22, CLOSING_FAILS, EIGHT_RECORDS),
];

#[test]
fn journals_that_fail(rt: HostRuntime) {
    let alloc = rt.alloc();
    for (call, wanted, after) in FAILED_CALLS {
        let mut yard = over(&rt, alloc, SMALL, 65536, &[]);
        put_disk(&rt, alloc, &mut yard, "sd1.jnl", Vec::new(alloc), &[call]);
        expect(&rt, alloc, wanted, RUN, &mut yard, wanted, 7);
        expect(&rt, alloc, after, RECOVER, &mut yard, after, 0);
    }
}

/// A journal whose disk fails while it is made: no run starts. Its gate is written last, and then synced.
#[test]
fn journals_that_cannot_be_made(rt: HostRuntime) {
    let alloc = rt.alloc();
    for call in 0..13u64 {
        let mut yard = over(&rt, alloc, SMALL, 65536, &[]);
        put_disk(&rt, alloc, &mut yard, "sd1.jnl", Vec::new(alloc), &[call]);
        let wanted = "journalfault sd1 record 0\nstatus 7\n";
        expect(&rt, alloc, "making", RUN, &mut yard, wanted, 7);
        holds(&rt, alloc, &yard, "making", 65536, &[]);
        let none = "no journal sd1\nstatus 8\n";
        if call < 12 {
            expect(&rt, alloc, "after", RECOVER, &mut yard, none, 8);
        } else {
            expect(&rt, alloc, "after", RECOVER, &mut yard, NOTHING, 0);
        }
    }
}

#[test]
fn torn_data_write(rt: HostRuntime) {
    let alloc = rt.alloc();
    let after =
        "journal sd1 epoch 0 records 4\nverified sd1 blocks 2 corrupt 0 pending 0 bad 0 faults 0\nstatus 0\n";
    // the first write fails after a sector; the read of a block before it is written again
    for (call, wanted, records) in [
        ((0, 0, 1), TORN, AFTER_A_TORN_WRITE),
        ((0, 2, 0), UNREAD, OF_FIRST_TWO),
    ] {
        let mut yard = over(&rt, alloc, THREE, 8192, &[call]);
        expect(&rt, alloc, wanted, RUN, &mut yard, wanted, 2);
        holds(&rt, alloc, &yard, wanted, 8192, FIRST_TWO);
        let kept = with_records(&rt, alloc, 8196, OF_TWO_BLOCKS, records);
        keeps(&rt, alloc, &yard, wanted, "sd1.jnl", &kept);
        expect(&rt, alloc, "after", RECOVER, &mut yard, after, 0);
    }
}

/// The log is full after 30 records: the next one is in the map of a new epoch.
#[test]
fn full_log(rt: HostRuntime) {
    let alloc = rt.alloc();
    let mut yard = over(&rt, alloc, SIXTEEN, 65536, &[]);
    expect(&rt, alloc, "full", RUN, &mut yard, SIXTEEN_WRITES, 0);
    holds(&rt, alloc, &yard, "full", 65536, ALL);
    let mut wanted = with_records(&rt, alloc, 6, ONE_SECTOR, THIRTY);
    put_log(&rt, &mut wanted, 5, &[(END, 15)]);
    let map = [
        1, 0, 1, 0, 1, 0, 1, 0, 1, 0, 1, 0, 1, 0, 1, 0, 1, 0, 1, 0, 1, 0, 1, 0, 1, 0, 1, 0, 1, 0,
        0, 1,
    ];
    let others: [Bytes; 5] = [
        (1, 0, b"VDJGATE2"),
        (1, 15, &[1]),
        (1, 16, ONE_SECTOR),
        (4, 0, &map),
        (5, 15, &[1]),
    ];
    for bytes in others {
        put(&rt, &mut wanted, &bytes);
    }
    rests(&rt, alloc, &yard, "full", "sd1.jnl", &wanted);
    let after =
        "journal sd1 epoch 1 records 1\nverified sd1 blocks 16 corrupt 0 pending 0 bad 0 faults 0\nstatus 0\n";
    expect(&rt, alloc, "after", RECOVER, &mut yard, after, 0);
}

/// What a run of the full log prints where the journal fails: how many blocks were written, how many turns were made, and at which record.
fn cut(rt: &impl Abort, alloc: Global, writes: u32, turns: u32, records: u32) -> String {
    assert!(rt; writes <= 16);
    let bytes = writes * 4096;
    format!(in alloc;
        "opened sd1 epoch 0\nrun 1 rd1\ninterval 1 reads 0 writes {writes} bytes {bytes} micros 0\nslave 1 workers 1 turns {turns}\ntotal sd1 turns {turns} reads 0 prereads 0 rereads 0 writes {writes} busy 0 badskip 0 bytes {bytes} faults 0 corrupt 0\njournalfault sd1 record {records}\nstatus 7\n"
    ).expect(rt, "memory")
}

/// A call that fails from where the log is full: the writes, turns and records that are told, and what `-jro` then says. The calls are the
/// full log sector, the turnover (map, sync, gate, sync), and the closing (log sector, sync).
const FAILED_TURNOVERS: [(u64, u32, u32, u32, &str); 7] = [
    (
        43,
        15,
        15,
        30,
        "journal sd1 epoch 0 records 29\npending sd1 block 14 keys 0 1 holds new\nverified sd1 blocks 15 corrupt 0 pending 1 bad 0 faults 0\nstatus 0\n",
    ),
    (44, 15, 16, 31, FULL),
    (45, 15, 16, 31, FULL),
    (46, 15, 16, 31, FULL),
    (
        47,
        15,
        16,
        31,
        "journal sd1 epoch 1 records 0\npending sd1 block 15 keys 0 1 holds old\nverified sd1 blocks 16 corrupt 0 pending 1 bad 0 faults 0\nstatus 0\n",
    ),
    (
        48,
        16,
        16,
        1,
        "journal sd1 epoch 1 records 0\npending sd1 block 15 keys 0 1 holds new\nverified sd1 blocks 16 corrupt 0 pending 1 bad 0 faults 0\nstatus 0\n",
    ),
    (
        49,
        16,
        16,
        1,
        "journal sd1 epoch 1 records 1\nverified sd1 blocks 16 corrupt 0 pending 0 bad 0 faults 0\nstatus 0\n",
    ),
];

const FULL: &str =
    "journal sd1 epoch 0 records 30\nverified sd1 blocks 15 corrupt 0 pending 0 bad 0 faults 0\nstatus 0\n";

#[test]
fn turnovers_that_fail(rt: HostRuntime) {
    let alloc = rt.alloc();
    for (call, writes, turns, records, after) in FAILED_TURNOVERS {
        let mut yard = over(&rt, alloc, SIXTEEN, 65536, &[]);
        put_disk(&rt, alloc, &mut yard, "sd1.jnl", Vec::new(alloc), &[call]);
        let wanted = cut(&rt, alloc, writes, turns, records);
        expect(&rt, alloc, after, RUN, &mut yard, wanted.as_str(), 7);
        expect(&rt, alloc, after, RECOVER, &mut yard, after, 0);
    }
}

/// Transfers of one block, and then of four: a transfer of several has one record for its beginning and one for its end.
#[test]
fn several_blocks(rt: HostRuntime) {
    let alloc = rt.alloc();
    let mut yard = over(&rt, alloc, SEVERAL, 65536, &[]);
    expect(&rt, alloc, "several", RUN, &mut yard, ONE_AND_FOUR, 0);
    holds(&rt, alloc, &yard, "several", 65536, TWICE_AND_ONCE);
    let mut wanted = with_records(&rt, alloc, 8196, BY_DEFAULT, OF_FIRST_TWO);
    let others: [Bytes; 5] = [
        (3, 21, &[8]),
        (3, 96, &[4, 0, 0, 4, 0, 0, 0, 0]),
        (3, 112, &[5, 0, 0, 4, 0, 0, 0, 0]),
        (3, 128, &[4, 0, 0, 4, 0, 0, 0, 4]),
        (3, 144, &[5, 0, 0, 4, 0, 0, 0, 4]),
    ];
    for bytes in others {
        put(&rt, &mut wanted, &bytes);
    }
    keeps(&rt, alloc, &yard, "several", "sd1.jnl", &wanted);
    let after =
        "journal sd1 epoch 0 records 8\nverified sd1 blocks 8 corrupt 0 pending 0 bad 0 faults 0\nstatus 0\n";
    expect(&rt, alloc, "after", RECOVER, &mut yard, after, 0);
}

#[test]
fn two_workers(rt: HostRuntime) {
    let alloc = rt.alloc();
    let mut yard = over(&rt, alloc, TWO_WORKERS, 65536, &[]);
    expect(&rt, alloc, "two", RUN, &mut yard, TWO_BY_TWO, 0);
    holds(&rt, alloc, &yard, "two", 65536, TWO_OF_EACH);
    expect(&rt, alloc, "after", RECOVER, &mut yard, EIGHT_RECORDS, 0);
}

/// One refused call, on a path: what the command prints. Once more, nothing is refused.
fn refused(
    rt: &(impl Abort + Threads + Wait + Sync),
    alloc: Global,
    path: &str,
    place: u64,
    wanted: &str,
) {
    let mut yard = over(rt, alloc, SMALL, 65536, &[]);
    yard.refuse(text(rt, alloc, path), place)
        .expect(rt, "memory");
    expect(rt, alloc, path, RUN, &mut yard, wanted, 12);
    holds(rt, alloc, &yard, path, 65536, &[]);
    expect(rt, alloc, "once more", RUN, &mut yard, FOUR_WRITES, 0);
}

#[test]
fn refused_openings(rt: HostRuntime) {
    let alloc = rt.alloc();
    refused(&rt, alloc, "p", 0, "cannot open p\nstatus 12\n");
    refused(&rt, alloc, "sd1.jnl", 0, "cannot open sd1.jnl\nstatus 12\n");
    // the passes of the store, and its worker's arm
    let wanted = "opened sd1 epoch 0\ncannot open /d/a\nstatus 12\n";
    refused(&rt, alloc, "/d/a", 0, wanted);
    refused(&rt, alloc, "/d/a", 1, wanted);
}

#[test]
fn unread_parameter_file(rt: HostRuntime) {
    let alloc = rt.alloc();
    let mut yard = over(&rt, alloc, SMALL, 65536, &[]);
    let file = SMALL.as_bytes().to_vec(alloc).expect(&rt, "memory");
    let reads = Vec::from_slice(alloc, &[0]).expect(&rt, "memory");
    yard.put_file(text(&rt, alloc, "p"), file, reads)
        .expect(&rt, "memory");
    let wanted = "cannot read p\nstatus 5\n";
    expect(&rt, alloc, "first read", RUN, &mut yard, wanted, 5);
    let made = yard.disk_at(&text(&rt, alloc, "sd1.jnl")).is_some();
    assert!(&rt; !made, "a journal was made");
}

/// After a failed output the runs go on unheard, and the journal is closed.
#[test]
fn failed_outputs(rt: HostRuntime) {
    let alloc = rt.alloc();
    for (write, wanted) in [(0, ""), (1, "opened sd1 epoch 0\n")] {
        let mut yard = over(&rt, alloc, SMALL, 65536, &[]);
        expect_failing(&rt, alloc, RUN, &mut yard, write, wanted);
        holds(&rt, alloc, &yard, wanted, 65536, FIRST_FOUR);
        let kept = with_records(&rt, alloc, 6, ONE_SECTOR, EIGHT);
        rests(&rt, alloc, &yard, wanted, "sd1.jnl", &kept);
        expect(&rt, alloc, "after", RECOVER, &mut yard, EIGHT_RECORDS, 0);
    }
}

#[test]
fn two_stores(rt: HostRuntime) {
    let alloc = rt.alloc();
    let mut yard = yard_of(&rt, alloc, TWO_STORES.as_bytes());
    expect(&rt, alloc, "two stores", RUN, &mut yard, TWO_RUNS, 0);
    expect(&rt, alloc, "after", RECOVER, &mut yard, TWO_AFTER, 0);
}

/// The second journal can't be opened, or fails while it is made: no run starts, no data is touched, and the first journal is closed.
#[test]
fn a_second_journal_that_cannot_be_made(rt: HostRuntime) {
    let alloc = rt.alloc();
    let created = with_records(&rt, alloc, 6, ONE_SECTOR, &[]);
    for (call, wanted, status, after, then) in [
        (
            None,
            "opened sd1 epoch 0\ncannot open sd2.jnl\nstatus 12\n",
            12,
            "journal sd1 epoch 0 records 0\ncannot open sd2.jnl\nstatus 12\n",
            12,
        ),
        (
            Some(5),
            "opened sd1 epoch 0\njournalfault sd2 record 0\nstatus 7\n",
            7,
            "journal sd1 epoch 0 records 0\nno journal sd2\nstatus 8\n",
            8,
        ),
    ] {
        let mut yard = yard_of(&rt, alloc, TWO_STORES.as_bytes());
        match call {
            None => yard
                .refuse(text(&rt, alloc, "sd2.jnl"), 0)
                .expect(&rt, "memory"),
            Some(call) => put_disk(&rt, alloc, &mut yard, "sd2.jnl", Vec::new(alloc), &[call]),
        }
        expect(&rt, alloc, wanted, RUN, &mut yard, wanted, status);
        rests(&rt, alloc, &yard, wanted, "sd1.jnl", &created);
        expect(&rt, alloc, after, RECOVER, &mut yard, after, then);
        for path in ["/d/a", "/d/b"] {
            let made = yard.bytes_at(&text(&rt, alloc, path)).expect(&rt, "memory");
            assert!(&rt; made.is_none());
        }
        expect(&rt, alloc, "once more", RUN, &mut yard, TWO_RUNS, 0);
    }
}

/// The second store's journal fails at its second begin: the first store's worker goes on to its end, and no other run starts.
#[test]
fn a_second_journal_that_fails(rt: HostRuntime) {
    let alloc = rt.alloc();
    let mut yard = yard_of(&rt, alloc, TWO_STORES.as_bytes());
    put_disk(&rt, alloc, &mut yard, "sd2.jnl", Vec::new(alloc), &[16]);
    expect(&rt, alloc, "fails", RUN, &mut yard, SECOND_FAILS, 7);
    expect(&rt, alloc, "after", RECOVER, &mut yard, SECOND_FAILED, 0);
}
