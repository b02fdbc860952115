// Recovery over disks in memory.
ghost use Rattle.std.specs.Prelude.{◌<◌};
ghost use Rattle.journal_layout.specs.Log.{IsSpelled};

use crate::{RecoverFault, recovered};
use journal_layout::{Damage, Gate, put_gate, put_log_head, put_record};
use key_state::{Entry, Record};
use std::alloc::Global;
use std::process::Abort;
use vd_base::{BlockNo, Geometry, Key, Sector, StoreId, StoreName, next_key};
use vd_disk::{Disk, MemDisk};

fn store(rt: &impl Abort, name: &str) -> StoreId {
    StoreId {
        name: StoreName::read(name.as_bytes()).expect(rt, "a name"),
        geometry: Geometry::new(16, 4096).expect(rt, "a geometry"),
    }
}

fn put(rt: &impl Abort, disk: &mut MemDisk, at: u64, sector: &Sector) {
    assert!(rt; at < disk.sectors());
    disk.write(at, sector).expect(rt, "no call is to fail");
}

fn put_the_gate(rt: &impl Abort, disk: &mut MemDisk, id: StoreId, version: u8, epoch: u64) {
    assert!(rt; 1 <= version && version <= 2 && epoch < 100);
    let gate = Gate {
        version,
        epoch,
        id,
        log_sectors: 8,
    };
    let mut sector = [0; 512];
    put_gate(&gate, &mut sector);
    put(rt, disk, epoch % 2, &sector);
}

/// A disk of a journal of 16 blocks, 8 log sectors, one gate and no records: the map is sector 2, the log begins at 3.
fn journal(rt: &impl Abort, alloc: Global, id: StoreId, version: u8, epoch: u64) -> MemDisk {
    let mut disk = MemDisk::new(alloc, 20, Vec::new(alloc)).expect(rt, "memory");
    put_the_gate(rt, &mut disk, id, version, epoch);
    disk
}

/// Puts the begin and the end of a write of block 0, and answers its key.
fn put_pair(sector: &mut Sector, pair: usize, old: Key) -> Key
    requires { pair < 15 }
{
    let new = next_key(old);
    let block = BlockNo(0);
    let begin = Record::Begin { block, old, new };
    put_record(sector, 2 * pair, &begin);
    let end = Record::End { block, key: new };
    put_record(sector, 2 * pair + 1, &end);
    new
}

/// Puts a log sector of this one record at the log's beginning.
fn put_one(rt: &impl Abort, disk: &mut MemDisk, made: &Record)
    requires { IsSpelled 2 made.now }
{
    let mut sector = [0; 512];
    put_log_head(&mut sector, 1, 0, 0, 1);
    put_record(&mut sector, 0, made);
    put(rt, disk, 3, &sector);
}

#[test]
fn a_log_with_a_hole(rt: HostRuntime) {
    // Log sectors 0 to 4 have the begins and ends of block 0 for keys 1 to 75, sector 5 is zeros, sector 6 is full too.
    let id = store(&rt, "sd1");
    let mut disk = journal(&rt, rt.alloc(), id, 1, 0);
    let mut key = Key::never();
    for place in [0, 1, 2, 3, 4, 6] {
        let mut sector = [0; 512];
        put_log_head(&mut sector, 1, 0, place, 30);
        for pair in 0..15 {
            key = put_pair(&mut sector, pair, key);
        }
        put(&rt, &mut disk, 3 + place as u64, &sector);
    }
    let found = recovered(rt.alloc(), &mut disk, &id).expect(&rt, "a journal");
    assert_eq!(rt;
        (found.live.epoch, found.records, found.entries.len()),
        (0, 150, 16)
    );
    let last = Key::of(75).expect(&rt, "a key");
    assert_eq!(rt; found.entries[0], Entry::Settled(last));
    assert_eq!(rt; found.entries[15], Entry::Settled(Key::never()));
}

#[test]
fn no_journal(rt: HostRuntime) {
    let alloc = rt.alloc();
    let mut none = MemDisk::new(alloc, 0, Vec::new(alloc)).expect(&rt, "memory");
    let id = store(&rt, "sd1");
    let fault = recovered(alloc, &mut none, &id).err();
    assert_eq!(rt; fault, Some(RecoverFault::NoJournal));
    let failing = Vec::from_slice(alloc, &[0]).expect(&rt, "memory");
    let mut unread = MemDisk::new(alloc, 1, failing).expect(&rt, "memory");
    let fault = recovered(alloc, &mut unread, &id).err();
    assert_eq!(rt; fault, Some(RecoverFault::Failed));
}

#[test]
fn another_store(rt: HostRuntime) {
    let alloc = rt.alloc();
    let mut disk = journal(&rt, alloc, store(&rt, "sd2"), 1, 0);
    let id = store(&rt, "sd1");
    let fault = recovered(alloc, &mut disk, &id).err();
    let why = RecoverFault::Mismatch {
        found: store(&rt, "sd2"),
        wanted: store(&rt, "sd1"),
    };
    assert_eq!(rt; fault, Some(why));
}

/// A record that isn't legal as the first one of a log of version 1.
fn expect_wrong(rt: &impl Abort, alloc: Global, made: &Record)
    requires { IsSpelled 2 made.now }
{
    let mut disk = journal(rt, alloc, store(rt, "sd1"), 1, 0);
    put_one(rt, &mut disk, made);
    let id = store(rt, "sd1");
    let fault = recovered(alloc, &mut disk, &id).err();
    let why = RecoverFault::Damaged {
        sector: 3,
        what: Damage::Record,
        at: 0,
    };
    assert_eq!(rt; fault, Some(why));
}

#[test]
fn records_that_are_not_legal(rt: HostRuntime) {
    let block = BlockNo(2);
    let end = Record::End {
        block,
        key: next_key(Key::never()),
    };
    expect_wrong(&rt, rt.alloc(), &end);
    let run = Record::BeginRun {
        first: BlockNo(2),
        many: 2,
    };
    expect_wrong(&rt, rt.alloc(), &run);
}

#[test]
fn two_gates_and_runs(rt: HostRuntime) {
    // Gate 0 has epoch 8 and version 2, gate 1 has epoch 7. Log sector 0 of area 0 begins, ends and clears runs.
    let alloc = rt.alloc();
    let id = store(&rt, "sd1");
    let mut disk = journal(&rt, alloc, id, 2, 8);
    put_the_gate(&rt, &mut disk, id, 1, 7);
    let mut sector = [0; 512];
    put_log_head(&mut sector, 2, 8, 0, 4);
    let first = BlockNo(4);
    let begin = Record::BeginRun { first, many: 4 };
    put_record(&mut sector, 0, &begin);
    let end = Record::EndRun { first, many: 4 };
    put_record(&mut sector, 1, &end);
    let again = Record::BeginRun {
        first: BlockNo(6),
        many: 10,
    };
    put_record(&mut sector, 2, &again);
    let clear = Record::Clear {
        first: BlockNo(6),
        many: 1,
    };
    put_record(&mut sector, 3, &clear);
    put(&rt, &mut disk, 3, &sector);
    let found = recovered(alloc, &mut disk, &id).expect(&rt, "a journal");
    assert_eq!(rt;
        (found.live.version, found.live.epoch, found.records),
        (2, 8, 4)
    );
    assert_eq!(rt; found.entries.len(), 16);
    let never = Key::never();
    let old = next_key(never);
    let new = next_key(old);
    assert_eq!(rt; found.entries[3], Entry::Settled(never));
    assert_eq!(rt; found.entries[5], Entry::Settled(old));
    assert_eq!(rt; found.entries[6], Entry::Settled(never));
    assert_eq!(rt; found.entries[7], Entry::Pending { old, new });
}
