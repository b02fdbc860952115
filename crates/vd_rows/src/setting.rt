// What a command runs over: a parameter file, a journal and a data file, and what it must print.
use crate::image::image;
use std::alloc::Global;
use std::process::Abort;
use std::sync::Wait;
use std::thread::Threads;
use vd_base::Sector;
use vd_disk::MemDisk;
use vd_outside::{MemClock, MemSink, OpenGate, Text, Turnstile};
use vd_yard::MemYard;
use vdbench_top::vdbench;

/// A parameter file of the store sd1: 16 blocks of 4,096 bytes.
pub const PARAMETERS: &str = "sd=sd1,lun=/d/a,size=64k\nwd=wd1,sd=sd1,xfersize=4k\nrd=rd1,wd=wd1\n";

/// What a gate has behind its epoch: the name sd1, 16 blocks, 4,096 bytes each, 8 log sectors.
pub const STORE: &[u8] = b"sd1\0\0\0\0\0\0\0\0\x10\0\0\x10\0\0\0\0\x08";

/// The first bytes of gate 0, and those of the store's name, blocks, their size and the log sectors: one, or as many as by default.
pub const GATE: Bytes = (0, 0, b"VDJGATE2");

pub const ONE_SECTOR: &[u8] = b"sd1\0\0\0\0\0\0\0\0\x10\0\0\x10\0\0\0\0\x01";

pub const BY_DEFAULT: &[u8] = b"sd1\0\0\0\0\0\0\0\0\x10\0\0\x10\0\0\0\x10\0";

/// A command over the stores of p.
pub const RECOVER: &str = "-jro -f p";

/// What it prints of one store with a created journal.
pub const NOTHING: &str =
    "journal sd1 epoch 0 records 0\nverified sd1 blocks 0 corrupt 0 pending 0 bad 0 faults 0\nstatus 0\n";

pub fn text(rt: &impl Abort, alloc: Global, text: &str) -> Text {
    Text::from_str(alloc, text).expect(rt, "memory")
}

fn words_of(rt: &impl Abort, alloc: Global, line: &str) -> Vec<String> {
    let mut words = Vec::new(alloc);
    for word in line.split_whitespace() {
        words
            .push(String::from_str(alloc, word).expect(rt, "memory"))
            .expect(rt, "memory");
    }
    words
}

/// Bytes of a journal: a sector, a place in it, and what stands there.
pub type Bytes<'a> = (usize, usize, &'a [u8]);

pub fn put(rt: &impl Abort, sectors: &mut Vec<Sector>, bytes: &Bytes) {
    let (sector, at, here) = *bytes;
    assert!(rt; sector < sectors.len() && at <= 512 && here.len() <= 512 - at);
    sectors[sector][at..at + here.len()].copy_from_slice(here);
}

/// Puts a sector whose bytes are all this one at a place.
pub fn put_sector(rt: &impl Abort, sectors: &mut Vec<Sector>, sector: usize, fill: u8) {
    assert!(rt; sector < sectors.len());
    sectors[sector] = [fill; 512];
}

/// The sectors of a journal that is zeros but for these bytes. Of the whole one there are 20: two gates, and twice a map sector and
/// 8 log sectors.
pub fn journal(rt: &impl Abort, alloc: Global, many: usize, parts: &[Bytes]) -> Vec<Sector> {
    let mut sectors = vec![in alloc; [0u8; 512]; many].expect(rt, "memory");
    for bytes in parts {
        put(rt, &mut sectors, bytes);
    }
    sectors
}

/// Some sectors of a block that have the images of a key: the block, the first sector, the one behind the last, and the key.
pub type Stamped = (u32, u32, u32, u8);

fn stamp(rt: &impl Abort, data: &mut Vec<u8>, stamped: &Stamped) {
    let (block, first, end, key) = *stamped;
    assert!(rt; block < 16 && end <= 8);
    for place in first..end {
        let at = (block * 4096 + place * 512) as usize;
        assert!(rt; at + 512 <= data.len());
        data[at..at + 512].copy_from_slice(&image(block, place, key));
    }
}

/// The store's data: each byte is `fill` but for these images.
pub fn data(rt: &impl Abort, alloc: Global, fill: u8, images: &[Stamped]) -> Vec<u8> {
    let mut data = vec![in alloc; fill; 65536].expect(rt, "memory");
    for stamped in images {
        stamp(rt, &mut data, stamped);
    }
    data
}

/// The sectors of a created journal of version 1 and epoch 0, of the store that these bytes of a gate name.
pub fn created(rt: &impl Abort, alloc: Global, store: &[u8]) -> Vec<Sector> {
    journal(rt, alloc, 20, &[(0, 0, b"VDJGATE1"), (0, 16, store)])
}

/// A yard with this parameter file, p, alone.
pub fn yard_of(rt: &impl Abort, alloc: Global, file: &[u8]) -> MemYard {
    let mut yard = MemYard::new(alloc);
    let bytes = file.to_vec(alloc).expect(rt, "memory");
    yard.put_file(text(rt, alloc, "p"), bytes, Vec::new(alloc))
        .expect(rt, "memory");
    yard
}

/// A yard with a parameter file p, a journal, and data.
pub fn yard(rt: &impl Abort, alloc: Global, sectors: Vec<Sector>, data: Vec<u8>) -> MemYard {
    let mut yard = yard_of(rt, alloc, PARAMETERS.as_bytes());
    let disk = MemDisk::of(alloc, sectors, Vec::new(alloc)).expect(rt, "memory");
    yard.put_disk(text(rt, alloc, "sd1.jnl"), disk)
        .expect(rt, "memory");
    yard.put_data(text(rt, alloc, "/d/a"), data, Vec::new(alloc))
        .expect(rt, "memory");
    yard
}

/// A yard with this parameter file, p, and data of so many bytes of zeros. The arms' calls that are listed fail.
pub fn over(
    rt: &impl Abort,
    alloc: Global,
    file: &str,
    bytes: usize,
    failing: &[(u32, u64, u32)],
) -> MemYard {
    let mut yard = yard_of(rt, alloc, file.as_bytes());
    let zeros = vec![in alloc; 0u8; bytes].expect(rt, "memory");
    let calls = Vec::from_slice(alloc, failing).expect(rt, "memory");
    yard.put_data(text(rt, alloc, "/d/a"), zeros, calls)
        .expect(rt, "memory");
    yard
}

/// Puts a journal's disk of these sectors whose listed calls fail.
pub fn put_disk(
    rt: &impl Abort,
    alloc: Global,
    yard: &mut MemYard,
    path: &str,
    sectors: Vec<Sector>,
    failing: &[u64],
) {
    let calls = Vec::from_slice(alloc, failing).expect(rt, "memory");
    let disk = MemDisk::of(alloc, sectors, calls).expect(rt, "memory");
    yard.put_disk(text(rt, alloc, path), disk)
        .expect(rt, "memory");
}

/// Fails where the store's data isn't so many bytes of zeros but for these images.
pub fn holds(
    rt: &impl Abort,
    alloc: Global,
    yard: &MemYard,
    row: &str,
    bytes: usize,
    images: &[Stamped],
) {
    let kept = yard.bytes_at(&text(rt, alloc, "/d/a")).expect(rt, "memory");
    let mut wanted = data(rt, alloc, 0, images);
    wanted.truncate(bytes);
    match kept {
        Some(there) => assert!(rt; there.as_slice() == wanted.as_slice(), "{row}: other data"),
        None => assert!(rt; false, "{row}: no data"),
    }
}

/// Fails where the journal's disk doesn't read as these sectors.
pub fn keeps(
    rt: &impl Abort,
    alloc: Global,
    yard: &MemYard,
    row: &str,
    path: &str,
    wanted: &Vec<Sector>,
) {
    match yard.disk_at(&text(rt, alloc, path)) {
        Some(disk) => {
            assert!(rt;
                disk.contents() == wanted.as_slice(),
                "{row}: another journal"
            );
        }
        None => assert!(rt; false, "{row}: no journal"),
    }
}

/// Fails where besides a stop might leave other sectors. It takes long over many sectors.
pub fn rests(
    rt: &impl Abort,
    alloc: Global,
    yard: &MemYard,
    row: &str,
    path: &str,
    wanted: &Vec<Sector>,
) {
    keeps(rt, alloc, yard, row, path, wanted);
    let Some(disk) = yard.disk_at(&text(rt, alloc, path)) else {
        return;
    };
    for pick in 0..3u64 {
        let image = disk.image(alloc, pick).expect(rt, "memory");
        assert!(rt; image.as_slice() == wanted.as_slice(), "{row}: not at rest");
    }
}

/// Puts the head of a log sector of version 2: its place in the file, its epoch, and how many records it has.
pub fn put_head(rt: &impl Abort, sectors: &mut Vec<Sector>, at: usize, epoch: u8, many: usize) {
    assert!(rt; many <= 30);
    put(rt, sectors, &(at, 0, b"VDJLOGS2"));
    put(rt, sectors, &(at, 15, &[epoch]));
    put(rt, sectors, &(at, 21, &[many as u8]));
}

/// Puts a record of one block at a place of a log sector: its kind, the old key, the new one, and the block.
pub fn put_record(
    rt: &impl Abort,
    sectors: &mut Vec<Sector>,
    at: usize,
    place: usize,
    record: (u8, u8, u8, u8),
) {
    assert!(rt; place < 30);
    let (kind, old, new, block) = record;
    put(
        rt,
        sectors,
        &(at, 32 + 16 * place, &[kind, old, new, 0, 0, 0, 0, block]),
    );
}

/// Runs a command at a gate, and fails where it doesn't print just this text or end with this status.
pub fn expect_at<T: Turnstile>(
    rt: &(impl Abort + Threads + Wait + Sync),
    alloc: Global,
    row: &str,
    line: &str,
    yard: &mut MemYard,
    gate: &T,
    wanted: &str,
    number: u8,
) {
    let words = words_of(rt, alloc, line);
    let mut out = MemSink::new(alloc, Vec::new(alloc));
    let mut clock = MemClock::new(0, 0);
    let status = vdbench(
        rt,
        alloc,
        words.as_slice(),
        yard,
        &mut out,
        &mut clock,
        gate,
    );
    assert!(rt; out.bytes() == wanted.as_bytes(), "{row}: another text");
    assert_eq!(rt; status.number(), number, "{row}");
}

/// The same at a gate at which nobody waits.
pub fn expect(
    rt: &(impl Abort + Threads + Wait + Sync),
    alloc: Global,
    row: &str,
    line: &str,
    yard: &mut MemYard,
    wanted: &str,
    number: u8,
) {
    expect_at(rt, alloc, row, line, yard, &OpenGate, wanted, number);
}

/// Runs a command whose output fails at this write, from 0: it must end with status 6, and what went out is this text.
pub fn expect_failing(
    rt: &(impl Abort + Threads + Wait + Sync),
    alloc: Global,
    line: &str,
    yard: &mut MemYard,
    write: u64,
    wanted: &str,
) {
    let words = words_of(rt, alloc, line);
    let failing = Vec::from_slice(alloc, &[write]).expect(rt, "memory");
    let mut out = MemSink::new(alloc, failing);
    let mut clock = MemClock::new(0, 0);
    let status = vdbench(
        rt,
        alloc,
        words.as_slice(),
        yard,
        &mut out,
        &mut clock,
        &OpenGate,
    );
    assert!(rt;
        out.bytes() == wanted.as_bytes(),
        "write {write}: another text"
    );
    assert_eq!(rt; status.number(), 6, "write {write}");
}

/// What a command printed, and its status.
#[derive(Drop)]
pub struct Ended {
    pub text: Vec<u8>,
    pub number: u8,
}

/// Runs a command whose listed writes of the output fail.
pub fn outcome(
    rt: &(impl Abort + Threads + Wait + Sync),
    alloc: Global,
    line: &str,
    yard: &mut MemYard,
    failing: &[u64],
) -> Ended {
    let words = words_of(rt, alloc, line);
    let failing = Vec::from_slice(alloc, failing).expect(rt, "memory");
    let mut out = MemSink::new(alloc, failing);
    let mut clock = MemClock::new(0, 0);
    let status = vdbench(
        rt,
        alloc,
        words.as_slice(),
        yard,
        &mut out,
        &mut clock,
        &OpenGate,
    );
    Ended {
        text: out.bytes().to_vec(alloc).expect(rt, "memory"),
        number: status.number(),
    }
}

/// Whether a line of a text tells a corrupt block.
pub fn has_corrupt_line(text: &[u8]) -> bool {
    for at in 0..text.len() {
        if (at == 0 || text[at - 1] == b'\n') && text[at..].starts_with(b"corrupt ") {
            return true;
        }
    }
    false
}
