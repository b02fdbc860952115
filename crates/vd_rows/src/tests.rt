// One store: its journal and its data.
ghost use Rattle.std.specs.Prelude.{◌≤◌};

use crate::setting::{
    Bytes, NOTHING, PARAMETERS, RECOVER, STORE, Stamped, created, data, expect, expect_failing,
    journal, put, text, yard,
};
use std::alloc::Global;
use std::process::Abort;
use std::sync::Wait;
use std::thread::Threads;
use vd_base::Sector;
use vd_disk::MemDisk;

/// What differs from a created journal of version 1, what the data holds, and what is printed.
#[derive(Drop)]
struct Row<'a> {
    name: &'a str,
    parts: &'a [Bytes<'a>],
    images: &'a [Stamped],
    text: &'a str,
    status: u8,
}

fn check(rt: &(impl Abort + Threads + Wait + Sync), alloc: Global, row: &Row) {
    let mut sectors = created(rt, alloc, STORE);
    for bytes in row.parts {
        put(rt, &mut sectors, bytes);
    }
    let mut yard = yard(rt, alloc, sectors, data(rt, alloc, 170, row.images));
    expect(
        rt, alloc, row.name, RECOVER, &mut yard, row.text, row.status,
    );
}

#[test]
fn blocks(rt: HostRuntime) {
    let rows = [
        Row {
            name: "created journal",
            parts: &[],
            images: &[],
            text: NOTHING,
            status: 0,
        },
        Row {
            name: "settled block",
            parts: &[(2, 0, &[3, 0])],
            images: &[(0, 0, 8, 3)],
            text: "journal sd1 epoch 0 records 0\nverified sd1 blocks 1 corrupt 0 pending 0 bad 0 faults 0\nstatus 0\n",
            status: 0,
        },
        Row {
            name: "stale sector",
            parts: &[(2, 0, &[3, 0])],
            images: &[(0, 0, 8, 3), (0, 2, 3, 2)],
            text: "journal sd1 epoch 0 records 0\ncorrupt sd1 block 0 sector 2 address 1024 part key keys 3\nverified sd1 blocks 1 corrupt 1 pending 0 bad 0 faults 0\nstatus 1\n",
            status: 1,
        },
        Row {
            name: "pending block, mixed",
            parts: &[(2, 10, &[3, 4])],
            images: &[(5, 0, 4, 4), (5, 4, 8, 3)],
            text: "journal sd1 epoch 0 records 0\npending sd1 block 5 keys 3 4 holds mixed\nverified sd1 blocks 1 corrupt 0 pending 1 bad 0 faults 0\nstatus 0\n",
            status: 0,
        },
        Row {
            name: "pending block at the wrap",
            parts: &[(2, 10, &[126, 1])],
            images: &[(5, 0, 8, 1)],
            text: "journal sd1 epoch 0 records 0\npending sd1 block 5 keys 126 1 holds new\nverified sd1 blocks 1 corrupt 0 pending 1 bad 0 faults 0\nstatus 0\n",
            status: 0,
        },
        Row {
            name: "pending block never written",
            parts: &[(2, 10, &[0, 1])],
            images: &[],
            text: "journal sd1 epoch 0 records 0\npending sd1 block 5 keys 0 1 holds old\nverified sd1 blocks 1 corrupt 0 pending 1 bad 0 faults 0\nstatus 0\n",
            status: 0,
        },
        Row {
            name: "pending block, corrupt, beside a bad one",
            parts: &[(2, 10, &[1, 2, 0, 255])],
            images: &[(5, 0, 7, 2), (5, 7, 8, 3)],
            text: "journal sd1 epoch 0 records 0\ncorrupt sd1 block 5 sector 7 address 24064 part key keys 1 2\nverified sd1 blocks 1 corrupt 1 pending 1 bad 1 faults 0\nstatus 1\n",
            status: 1,
        },
        Row {
            name: "block of zeros and of another block",
            parts: &[(2, 0, &[5, 0, 5, 0])],
            images: &[(0, 0, 1, 5)],
            text: "journal sd1 epoch 0 records 0\ncorrupt sd1 block 0 sector 1 address 512 part name keys 5\ncorrupt sd1 block 1 sector 0 address 4096 part name keys 5\nverified sd1 blocks 2 corrupt 2 pending 0 bad 0 faults 0\nstatus 1\n",
            status: 1,
        },
    ];
    for row in &rows {
        check(&rt, rt.alloc(), row);
    }
}

#[test]
fn gates_and_logs(rt: HostRuntime) {
    let rows = [
        Row {
            name: "two gates",
            parts: &[
                (0, 15, &[8]),
                (1, 0, b"VDJGATE1\0\0\0\0\0\0\0\x07"),
                (1, 16, STORE),
                (3, 0, b"VDJLOGS1\0\0\0\0\0\0\0\x06\0\0\0\0\0\x01"),
                (3, 32, &[1, 0, 1]),
            ],
            images: &[],
            text: "journal sd1 epoch 8 records 0\nverified sd1 blocks 0 corrupt 0 pending 0 bad 0 faults 0\nstatus 0\n",
            status: 0,
        },
        Row {
            name: "another store's journal",
            parts: &[(0, 16, b"sd2")],
            images: &[],
            text: "mismatch found sd2 blocks 16 of 4096 wanted sd1 blocks 16 of 4096\nstatus 10\n",
            status: 10,
        },
        Row {
            name: "another block size",
            parts: &[(0, 30, &[2])],
            images: &[],
            text: "mismatch found sd1 blocks 16 of 512 wanted sd1 blocks 16 of 4096\nstatus 10\n",
            status: 10,
        },
        Row {
            name: "End without its Begin",
            parts: &[
                (3, 0, b"VDJLOGS1"),
                (3, 21, &[1]),
                (3, 32, &[2, 0, 1, 0, 0, 0, 0, 2]),
            ],
            images: &[],
            text: "damaged sd1 sector 3 record 0\nstatus 9\n",
            status: 9,
        },
        Row {
            name: "runs in version 2",
            parts: &[
                (0, 7, b"2"),
                (3, 0, b"VDJLOGS2"),
                (3, 21, &[3]),
                (3, 32, &[4, 0, 0, 3, 0, 0, 0, 4]),
                (3, 48, &[5, 0, 0, 2, 0, 0, 0, 4]),
                (3, 64, &[6, 0, 0, 1, 0, 0, 0, 4]),
            ],
            images: &[(5, 0, 8, 1)],
            text: "journal sd1 epoch 0 records 3\npending sd1 block 6 keys 0 1 holds old\nverified sd1 blocks 2 corrupt 0 pending 1 bad 0 faults 0\nstatus 0\n",
            status: 0,
        },
        Row {
            name: "run in version 1",
            parts: &[
                (3, 0, b"VDJLOGS1"),
                (3, 21, &[1]),
                (3, 32, &[4, 0, 0, 3, 0, 0, 0, 4]),
            ],
            images: &[],
            text: "damaged sd1 sector 3 record 0\nstatus 9\n",
            status: 9,
        },
        Row {
            name: "log of version 1 behind a gate of version 2",
            parts: &[
                (0, 7, b"2"),
                (3, 0, b"VDJLOGS1"),
                (3, 21, &[1]),
                (3, 32, &[1, 0, 1]),
            ],
            images: &[],
            text: NOTHING,
            status: 0,
        },
        Row {
            name: "run past the end",
            parts: &[
                (0, 7, b"2"),
                (3, 0, b"VDJLOGS2"),
                (3, 21, &[1]),
                (3, 32, &[4, 0, 0, 2, 0, 0, 0, 15]),
            ],
            images: &[],
            text: "damaged sd1 sector 3 record 0\nstatus 9\n",
            status: 9,
        },
        Row {
            name: "run of one block",
            parts: &[
                (0, 7, b"2"),
                (3, 0, b"VDJLOGS2"),
                (3, 21, &[1]),
                (3, 32, &[4, 0, 0, 1, 0, 0, 0, 4]),
            ],
            images: &[],
            text: "damaged sd1 sector 3 record 0\nstatus 9\n",
            status: 9,
        },
        Row {
            name: "run that goes on with a pending block",
            parts: &[
                (0, 7, b"2"),
                (2, 8, &[7, 8]),
                (3, 0, b"VDJLOGS2"),
                (3, 21, &[2]),
                (3, 32, &[4, 0, 0, 2, 0, 0, 0, 4]),
                (3, 48, &[2, 0, 8, 0, 0, 0, 0, 4]),
            ],
            images: &[(4, 0, 8, 8), (5, 0, 8, 1)],
            text: "journal sd1 epoch 0 records 2\npending sd1 block 5 keys 0 1 holds new\nverified sd1 blocks 2 corrupt 0 pending 1 bad 0 faults 0\nstatus 0\n",
            status: 0,
        },
        Row {
            name: "epoch of 2^63",
            parts: &[(0, 8, &[128])],
            images: &[],
            text: "no journal sd1\nstatus 8\n",
            status: 8,
        },
        Row {
            name: "key 127 in the map",
            parts: &[(2, 0, &[127, 0])],
            images: &[],
            text: "damaged sd1 sector 2 map 0\nstatus 9\n",
            status: 9,
        },
        Row {
            name: "entry past the last block",
            parts: &[(2, 32, &[1, 0])],
            images: &[],
            text: "damaged sd1 sector 2 map 16\nstatus 9\n",
            status: 9,
        },
        Row {
            name: "count of 31",
            parts: &[(3, 0, b"VDJLOGS1"), (3, 21, &[31])],
            images: &[],
            text: "damaged sd1 sector 3 header 0\nstatus 9\n",
            status: 9,
        },
        Row {
            name: "Begin of block 16",
            parts: &[
                (3, 0, b"VDJLOGS1"),
                (3, 21, &[1]),
                (3, 32, &[1, 0, 1, 0, 0, 0, 0, 16]),
            ],
            images: &[],
            text: "damaged sd1 sector 3 record 0\nstatus 9\n",
            status: 9,
        },
        Row {
            name: "bytes past the count",
            parts: &[
                (3, 0, b"VDJLOGS1"),
                (3, 21, &[1]),
                (3, 32, &[1, 0, 1]),
                (3, 50, &[1]),
            ],
            images: &[],
            text: "damaged sd1 sector 3 tail 1\nstatus 9\n",
            status: 9,
        },
    ];
    for row in &rows {
        check(&rt, rt.alloc(), row);
    }
}

/// Begins and ends of block 0, thirty records a log sector, for the keys from `first` to `first + 14`.
fn put_pairs(rt: &impl Abort, sectors: &mut Vec<Sector>, place: u8, first: u8)
    requires { first ≤ 200 }
{
    let sector = 3 + place as usize;
    put(rt, sectors, &(sector, 0, b"VDJLOGS1"));
    put(rt, sectors, &(sector, 19, &[place, 0, 30]));
    for pair in 0..15u8 {
        let key = first + pair;
        let at = 32 + 32 * pair as usize;
        put(rt, sectors, &(sector, at, &[1, key.saturating_sub(1), key]));
        put(rt, sectors, &(sector, at + 16, &[2, 0, key]));
    }
}

#[test]
fn a_log_with_a_hole(rt: HostRuntime) {
    // Log sectors 0 to 4 take block 0 to key 75, sector 5 is zeros, sector 6 is full too.
    let alloc = rt.alloc();
    let mut sectors = created(&rt, alloc, STORE);
    for (place, first) in [(0, 1), (1, 16), (2, 31), (3, 46), (4, 61), (6, 76)] {
        put_pairs(&rt, &mut sectors, place, first);
    }
    let mut yard = yard(&rt, alloc, sectors, data(&rt, alloc, 0, &[(0, 0, 8, 75)]));
    let wanted =
        "journal sd1 epoch 0 records 150\nverified sd1 blocks 1 corrupt 0 pending 0 bad 0 faults 0\nstatus 0\n";
    expect(&rt, alloc, "log with a hole", RECOVER, &mut yard, wanted, 0);
}

#[test]
fn short_journals(rt: HostRuntime) {
    let alloc = rt.alloc();
    let mut empty = yard(&rt, alloc, Vec::new(alloc), Vec::new(alloc));
    expect(
        &rt,
        alloc,
        "empty journal file",
        RECOVER,
        &mut empty,
        "no journal sd1\nstatus 8\n",
        8,
    );
    let gate = journal(&rt, alloc, 1, &[(0, 0, b"VDJGATE1"), (0, 16, STORE)]);
    let mut short = yard(&rt, alloc, gate, Vec::new(alloc));
    expect(
        &rt,
        alloc,
        "a gate alone",
        RECOVER,
        &mut short,
        "damaged sd1 sector 1 missing 0\nstatus 9\n",
        9,
    );
    let most = journal(&rt, alloc, 19, &[(0, 0, b"VDJGATE1"), (0, 16, STORE)]);
    let mut nearly = yard(&rt, alloc, most, Vec::new(alloc));
    let wanted = "damaged sd1 sector 19 missing 0\nstatus 9\n";
    expect(
        &rt,
        alloc,
        "all but the last sector",
        RECOVER,
        &mut nearly,
        wanted,
        9,
    );
}

#[test]
fn the_greatest_epoch(rt: HostRuntime) {
    let alloc = rt.alloc();
    let last = journal(
        &rt,
        alloc,
        20,
        &[
            (1, 0, b"VDJGATE1\x7f\xff\xff\xff\xff\xff\xff\xff"),
            (1, 16, STORE),
        ],
    );
    let mut greatest = yard(&rt, alloc, last, Vec::new(alloc));
    let wanted =
        "journal sd1 epoch 9223372036854775807 records 0\nverified sd1 blocks 0 corrupt 0 pending 0 bad 0 faults 0\nstatus 0\n";
    expect(
        &rt,
        alloc,
        "greatest epoch",
        RECOVER,
        &mut greatest,
        wanted,
        0,
    );
    // the data file was made, of the store's length
    let made = greatest
        .bytes_at(&text(&rt, alloc, "/d/a"))
        .expect(&rt, "memory");
    assert!(rt; made.is_some_and(|bytes| bytes.len() == 65536));
}

fn one(rt: &impl Abort, alloc: Global, number: u64) -> Vec<u64> {
    Vec::from_slice(alloc, &[number]).expect(rt, "memory")
}

/// A created journal, with a refused opening at this path: the one before which so many go on.
fn refused(
    rt: &(impl Abort + Threads + Wait + Sync),
    alloc: Global,
    path: &str,
    place: u64,
    wanted: &str,
) {
    let mut yard = yard(rt, alloc, created(rt, alloc, STORE), Vec::new(alloc));
    yard.refuse(text(rt, alloc, path), place)
        .expect(rt, "memory");
    expect(rt, alloc, path, RECOVER, &mut yard, wanted, 12);
    expect(rt, alloc, "once more", RECOVER, &mut yard, NOTHING, 0);
}

#[test]
fn refused_openings(rt: HostRuntime) {
    let alloc = rt.alloc();
    refused(&rt, alloc, "p", 0, "cannot open p\nstatus 12\n");
    refused(&rt, alloc, "sd1.jnl", 0, "cannot open sd1.jnl\nstatus 12\n");
    // the passes, and the arm
    refused(
        &rt,
        alloc,
        "/d/a",
        0,
        "journal sd1 epoch 0 records 0\ncannot open /d/a\nstatus 12\n",
    );
    refused(
        &rt,
        alloc,
        "/d/a",
        1,
        "journal sd1 epoch 0 records 0\ncannot open /d/a\nstatus 12\n",
    );
}

#[test]
fn failed_calls(rt: HostRuntime) {
    let alloc = rt.alloc();
    let mut yard = yard(&rt, alloc, created(&rt, alloc, STORE), Vec::new(alloc));
    // the output's first and second write
    expect_failing(&rt, alloc, RECOVER, &mut yard, 0, "");
    expect_failing(
        &rt,
        alloc,
        RECOVER,
        &mut yard,
        1,
        "journal sd1 epoch 0 records 0\n",
    );
    let file = PARAMETERS.as_bytes().to_vec(alloc).expect(&rt, "memory");
    yard.put_file(text(&rt, alloc, "p"), file, one(&rt, alloc, 0))
        .expect(&rt, "memory");
    expect(
        &rt,
        alloc,
        "first read of the file",
        RECOVER,
        &mut yard,
        "cannot read p\nstatus 5\n",
        5,
    );
    unread_journal(&rt, alloc);
    unread_block(&rt, alloc);
}

fn unread_journal(rt: &(impl Abort + Threads + Wait + Sync), alloc: Global) {
    let mut yard = yard(rt, alloc, Vec::new(alloc), Vec::new(alloc));
    let disk = MemDisk::of(alloc, created(rt, alloc, STORE), one(rt, alloc, 2)).expect(
        rt, "memory",
    );
    yard.put_disk(text(rt, alloc, "sd1.jnl"), disk)
        .expect(rt, "memory");
    expect(
        rt,
        alloc,
        "third read of the journal",
        RECOVER,
        &mut yard,
        "journalfault sd1 record 0\nstatus 7\n",
        7,
    );
}

/// Block 0 is settled at 3, and its read fails: first alone, then beside a block with a stale sector.
fn unread_block(rt: &(impl Abort + Threads + Wait + Sync), alloc: Global) {
    let alone =
        "journal sd1 epoch 0 records 0\nreadfault sd1 block 0\nverified sd1 blocks 0 corrupt 0 pending 0 bad 0 faults 1\nstatus 2\n";
    let beside =
        "journal sd1 epoch 0 records 0\nreadfault sd1 block 0\ncorrupt sd1 block 1 sector 7 address 7680 part key keys 3\nverified sd1 blocks 1 corrupt 1 pending 0 bad 0 faults 1\nstatus 2\n";
    for (map, wanted) in [([3, 0, 0, 0], alone), ([3, 0, 3, 0], beside)] {
        let mut sectors = created(rt, alloc, STORE);
        put(rt, &mut sectors, &(2, 0, &map));
        let bytes = data(rt, alloc, 0, &[(0, 0, 8, 3), (1, 0, 8, 3), (1, 7, 8, 2)]);
        let mut yard = yard(rt, alloc, sectors, Vec::new(alloc));
        let failing = Vec::from_slice(alloc, &[(0, 0, 0)]).expect(rt, "memory");
        yard.put_data(text(rt, alloc, "/d/a"), bytes, failing)
            .expect(rt, "memory");
        expect(
            rt,
            alloc,
            "first read of the data",
            RECOVER,
            &mut yard,
            wanted,
            2,
        );
    }
}
