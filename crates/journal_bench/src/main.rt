//! A journal over a real file, for `bench/journal.py` to time: `make FILE BLOCKS SECTORS` makes one with so many log sectors,
//! `append FILE BLOCKS SECTORS RECORDS EACH` opens it and appends so many records, with a flush behind each so many.
#![tactic(auto)]

use journal_core::JournalBook;
use journal_layout::Places;
use journal_recover::recovered;
use key_state::{Book, Entry};
use std::env;
use std::fs::File;
use std::process::ExitCode;
use vd_base::{BlockNo, Geometry, StoreId, StoreName, next_key};
use vd_disk::{Disk, FileDisk};

/// A store of so many blocks.
fn store(blocks: u32) -> Option<StoreId> {
    let name = StoreName::read(b"sd1".as_slice())?;
    let geometry = Geometry::new(blocks, 4096)?;
    Some(StoreId { name, geometry })
}

/// A file with room for a journal of a store, made where it isn't there.
fn disk_at(rt: &HostRuntime, path: &str, id: &StoreId, log_sectors: u32) -> Option<FileDisk> {
    if log_sectors == 0 || log_sectors > 65_536 {
        return None;
    }
    let sectors = Places::new(id.geometry.blocks(), log_sectors).end();
    let file = File::options()
        .read(true)
        .write(true)
        .create(true)
        .truncate(false)
        .open(rt, path)
        .ok()?;
    file.set_len(sectors.checked_mul(512)?).ok()?;
    Some(FileDisk::new(file, sectors))
}

fn make(rt: &HostRuntime, path: &str, blocks: u32, log_sectors: u32) -> Option<()> {
    let id = store(blocks)?;
    let disk = disk_at(rt, path, &id, log_sectors)?;
    if log_sectors == 0
        || log_sectors > 65_536
        || Places::new(id.geometry.blocks(), log_sectors).end() > disk.sectors()
    {
        return None;
    }
    let book = JournalBook::create(rt.alloc(), disk, &id, log_sectors).ok()?;
    book.close().ok()?;
    Some(())
}

/// Begins the next write of a block, or ends the one that was begun.
fn go_on(book: &mut JournalBook<FileDisk>, block: BlockNo) -> Option<()> {
    if block.0 as usize >= book.blocks() {
        return None;
    }
    match book.entry(block) {
        Entry::Settled(old) => book.begin(block, old, next_key(old)).ok(),
        Entry::Pending { new, .. } => book.end(block, new).ok(),
        Entry::Bad => None,
    }
}

fn append(
    rt: &HostRuntime,
    path: &str,
    blocks: u32,
    log_sectors: u32,
    records: u32,
    each: u32,
) -> Option<()> {
    let id = store(blocks)?;
    let mut disk = disk_at(rt, path, &id, log_sectors)?;
    let left = recovered(rt.alloc(), &mut disk, &id).ok()?;
    let live = left.live;
    let mut book = JournalBook::open_after(disk, &live, left.entries).ok()?;
    for i in 0..records {
        go_on(&mut book, BlockNo((i / 2).checked_rem(blocks)?))?;
        if i.checked_rem(each)? == each - 1 {
            book.flush().ok()?;
        }
    }
    book.close().ok()?;
    Some(())
}

/// Does what the words say, and answers whether it was done.
fn bench(rt: &HostRuntime, words: &[String]) -> Option<()> {
    let path = words.get(2)?.as_str();
    let blocks = words.get(3)?.parse::<u32>().ok()?;
    let log_sectors = words.get(4)?.parse::<u32>().ok()?;
    if words.get(1)?.as_str() == "make" {
        return make(rt, path, blocks, log_sectors);
    }
    let records = words.get(5)?.parse::<u32>().ok()?;
    let each = words.get(6)?.parse::<u32>().ok()?;
    append(rt, path, blocks, log_sectors, records, each)
}

fn words_of(rt: &HostRuntime) -> Option<Vec<String>> {
    let mut words = Vec::new(rt.alloc());
    for word in env::args(rt).ok()? {
        words.push(word).ok()?;
    }
    Some(words)
}

fn main(rt: HostRuntime) -> ExitCode {
    let done = words_of(&rt).and_then(|words| bench(&rt, words.as_slice()));
    match done {
        Some(()) => ExitCode::SUCCESS,
        None => ExitCode::FAILURE,
    }
}
