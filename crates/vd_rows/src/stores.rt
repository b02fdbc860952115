// Two stores: every journal is recovered, and then every store verified.
use crate::setting::{
    Bytes, RECOVER, STORE, created, data, expect, expect_failing, put, text, yard_of,
};
use std::alloc::Global;
use std::process::Abort;
use vd_base::Sector;
use vd_disk::MemDisk;
use vd_yard::MemYard;

/// A parameter file of the stores sd1 and sd2, each of 16 blocks of 4,096 bytes.
const TWO: &[u8] =
    b"sd=sd1,lun=/d/a,size=64k\nsd=sd2,lun=/d/b,size=64k\nwd=wd1,sd=sd*,xfersize=4k\nrd=rd1,wd=wd1\n";

/// What a gate of sd2 has behind its epoch.
const SECOND: &[u8] = b"sd2\0\0\0\0\0\0\0\0\x10\0\0\x10\0\0\0\0\x08";

/// Block 0 is settled at key 3.
const SETTLED: &[Bytes] = &[(2, 0, &[3, 0])];

/// Block 5 is pending, and was never written.
const PENDING: &[Bytes] = &[(2, 10, &[0, 1])];

const CLEAN: &str =
    "journal sd1 epoch 0 records 0\njournal sd2 epoch 0 records 0\nverified sd1 blocks 1 corrupt 0 pending 0 bad 0 faults 0\npending sd2 block 5 keys 0 1 holds old\nverified sd2 blocks 1 corrupt 0 pending 1 bad 0 faults 0\nstatus 0\n";

/// What the second journal holds besides its gate, what is printed, and the status.
const SECONDS: [(&str, &[Bytes], &str, u8); 5] = [
    ("clean", PENDING, CLEAN, 0),
    (
        "corrupt block in the second",
        SETTLED,
        "journal sd1 epoch 0 records 0\njournal sd2 epoch 0 records 0\nverified sd1 blocks 1 corrupt 0 pending 0 bad 0 faults 0\ncorrupt sd2 block 0 sector 0 address 0 part name keys 3\nverified sd2 blocks 1 corrupt 1 pending 0 bad 0 faults 0\nstatus 1\n",
        1,
    ),
    (
        "damaged second journal",
        &[(2, 0, &[127, 0])],
        "journal sd1 epoch 0 records 0\ndamaged sd2 sector 2 map 0\nstatus 9\n",
        9,
    ),
    (
        "another store's second journal",
        &[(0, 16, b"sd1")],
        "journal sd1 epoch 0 records 0\nmismatch found sd1 blocks 16 of 4096 wanted sd2 blocks 16 of 4096\nstatus 10\n",
        10,
    ),
    (
        "no gate in the second journal",
        &[(0, 8, &[128])],
        "journal sd1 epoch 0 records 0\nno journal sd2\nstatus 8\n",
        8,
    ),
];

/// A write that fails, and what went out before it. The first store has no findings.
const FRONTS: [(u64, &str); 7] = [
    (0, ""),
    (1, "journal sd1 epoch 0 records 0\n"),
    (
        2,
        "journal sd1 epoch 0 records 0\njournal sd2 epoch 0 records 0\n",
    ),
    (
        3,
        "journal sd1 epoch 0 records 0\njournal sd2 epoch 0 records 0\n",
    ),
    (
        4,
        "journal sd1 epoch 0 records 0\njournal sd2 epoch 0 records 0\nverified sd1 blocks 1 corrupt 0 pending 0 bad 0 faults 0\n",
    ),
    (
        5,
        "journal sd1 epoch 0 records 0\njournal sd2 epoch 0 records 0\nverified sd1 blocks 1 corrupt 0 pending 0 bad 0 faults 0\npending sd2 block 5 keys 0 1 holds old\n",
    ),
    (
        6,
        "journal sd1 epoch 0 records 0\njournal sd2 epoch 0 records 0\nverified sd1 blocks 1 corrupt 0 pending 0 bad 0 faults 0\npending sd2 block 5 keys 0 1 holds old\nverified sd2 blocks 1 corrupt 0 pending 1 bad 0 faults 0\n",
    ),
];

fn put_journal(
    rt: &impl Abort,
    alloc: Global,
    yard: &mut MemYard,
    path: &str,
    sectors: Vec<Sector>,
    failing: &[u64],
) {
    let reads = Vec::from_slice(alloc, failing).expect(rt, "memory");
    let disk = MemDisk::of(alloc, sectors, reads).expect(rt, "memory");
    yard.put_disk(text(rt, alloc, path), disk)
        .expect(rt, "memory");
}

/// Puts data: block 0 as sd1 has it at key 3, and else bytes of 170. The calls that are listed fail.
fn put_data(
    rt: &impl Abort,
    alloc: Global,
    yard: &mut MemYard,
    path: &str,
    failing: &[(u32, u64, u32)],
) {
    let calls = Vec::from_slice(alloc, failing).expect(rt, "memory");
    let bytes = data(rt, alloc, 170, &[(0, 0, 8, 3)]);
    yard.put_data(text(rt, alloc, path), bytes, calls)
        .expect(rt, "memory");
}

/// A yard with both stores' data, the first journal, whose block 0 is settled, and the second, with these bytes besides its gate.
fn two(rt: &impl Abort, alloc: Global, second: &[Bytes]) -> MemYard {
    let mut yard = yard_of(rt, alloc, TWO);
    for (path, store, parts) in [("sd1.jnl", STORE, SETTLED), ("sd2.jnl", SECOND, second)] {
        let mut sectors = created(rt, alloc, store);
        for bytes in parts {
            put(rt, &mut sectors, bytes);
        }
        put_journal(rt, alloc, &mut yard, path, sectors, &[]);
    }
    put_data(rt, alloc, &mut yard, "/d/a", &[]);
    put_data(rt, alloc, &mut yard, "/d/b", &[]);
    yard
}

#[test]
fn second_journals(rt: HostRuntime) {
    let alloc = rt.alloc();
    for (row, second, wanted, status) in SECONDS {
        let mut yard = two(&rt, alloc, second);
        expect(&rt, alloc, row, RECOVER, &mut yard, wanted, status);
    }
}

#[test]
fn a_missing_journal(rt: HostRuntime) {
    let alloc = rt.alloc();
    let mut yard = yard_of(&rt, alloc, TWO);
    let first = created(&rt, alloc, STORE);
    put_journal(&rt, alloc, &mut yard, "sd1.jnl", first, &[]);
    let wanted = "journal sd1 epoch 0 records 0\ncannot open sd2.jnl\nstatus 12\n";
    expect(&rt, alloc, "missing", RECOVER, &mut yard, wanted, 12);
    // no store was looked at: a data file that is missing is made where one is
    for path in ["/d/a", "/d/b"] {
        let made = yard.bytes_at(&text(&rt, alloc, path)).expect(&rt, "memory");
        assert!(rt; made.is_none());
    }
}

#[test]
fn a_second_journal_that_fails_to_be_read(rt: HostRuntime) {
    let alloc = rt.alloc();
    let mut yard = two(&rt, alloc, PENDING);
    let second = created(&rt, alloc, SECOND);
    put_journal(&rt, alloc, &mut yard, "sd2.jnl", second, &[2]);
    let wanted = "journal sd1 epoch 0 records 0\njournalfault sd2 record 0\nstatus 7\n";
    expect(&rt, alloc, "third read", RECOVER, &mut yard, wanted, 7);
}

/// A device that fails beside a corrupt block in the other store, which is said too, whichever comes first.
#[test]
fn a_fault_and_a_corrupt_block(rt: HostRuntime) {
    let alloc = rt.alloc();
    let mut second_fails = two(&rt, alloc, SETTLED);
    put_data(&rt, alloc, &mut second_fails, "/d/b", &[(0, 0, 0)]);
    // the first store's data is bytes of 170 alone
    let bytes = data(&rt, alloc, 170, &[]);
    second_fails
        .put_data(text(&rt, alloc, "/d/a"), bytes, Vec::new(alloc))
        .expect(&rt, "memory");
    let wanted =
        "journal sd1 epoch 0 records 0\njournal sd2 epoch 0 records 0\ncorrupt sd1 block 0 sector 0 address 0 part name keys 3\nverified sd1 blocks 1 corrupt 1 pending 0 bad 0 faults 0\nreadfault sd2 block 0\nverified sd2 blocks 0 corrupt 0 pending 0 bad 0 faults 1\nstatus 2\n";
    expect(&rt, alloc, "second", RECOVER, &mut second_fails, wanted, 2);
    let mut first_fails = two(&rt, alloc, SETTLED);
    put_data(&rt, alloc, &mut first_fails, "/d/a", &[(0, 0, 0)]);
    let wanted =
        "journal sd1 epoch 0 records 0\njournal sd2 epoch 0 records 0\nreadfault sd1 block 0\nverified sd1 blocks 0 corrupt 0 pending 0 bad 0 faults 1\ncorrupt sd2 block 0 sector 0 address 0 part name keys 3\nverified sd2 blocks 1 corrupt 1 pending 0 bad 0 faults 0\nstatus 2\n";
    expect(&rt, alloc, "first", RECOVER, &mut first_fails, wanted, 2);
}

/// The second store's data can't be opened: the first store's lines stand, a fault's among them, and the status is the yard's.
#[test]
fn refused_openings_of_the_second(rt: HostRuntime) {
    let alloc = rt.alloc();
    for place in [0u64, 1] {
        let mut yard = two(&rt, alloc, PENDING);
        put_data(&rt, alloc, &mut yard, "/d/a", &[(0, 0, 0)]);
        yard.refuse(text(&rt, alloc, "/d/b"), place)
            .expect(&rt, "memory");
        let wanted =
            "journal sd1 epoch 0 records 0\njournal sd2 epoch 0 records 0\nreadfault sd1 block 0\nverified sd1 blocks 0 corrupt 0 pending 0 bad 0 faults 1\ncannot open /d/b\nstatus 12\n";
        expect(&rt, alloc, "refused", RECOVER, &mut yard, wanted, 12);
    }
}

/// Each line, and each store's findings, is a write: what went out stands before the one that failed, and the next command finds all
/// given back.
#[test]
fn failed_outputs(rt: HostRuntime) {
    let alloc = rt.alloc();
    let mut yard = two(&rt, alloc, PENDING);
    for (write, wanted) in FRONTS {
        expect_failing(&rt, alloc, RECOVER, &mut yard, write, wanted);
        expect(&rt, alloc, "after it", RECOVER, &mut yard, CLEAN, 0);
    }
}
