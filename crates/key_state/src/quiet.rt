// A book without a journal.
ghost use Rattle.std.specs.Prelude.{◌≡◌, ◌<◌, ◌^◌, IfOk, replicate};
ghost use Rattle.std.proofs.Props.{props};
ghost use Rattle.key_state.specs.Entries.{AreEntries};
ghost use Rattle.key_state.specs.Facts.{is_entry_prop};
ghost use Rattle.key_state.specs.declared.entry.Entry.TheVariants.{Settled};

use crate::{Book, BookFault, Entry, Record, count_used, take_step};
use std::alloc::{AllocError, Global};
use vd_base::{BlockNo, Key};
use vd_outside::NoMemory;

/// A book in memory alone, for work without a journal: nothing of it outlives a stop, and its calls never fail.
#[derive(Drop)]
pub struct QuietBook {
    entries: Vec<Entry>,
    ends: u64,
    clears: u64,
    ghost valid: { AreEntries entries.items } by { Prim.hlevel (props, is_entry_prop) },
    ghost ends_range: { ends < 2 ^ 64 },
    ghost clears_range: { clears < 2 ^ 64 },
}

fn never_written(alloc: Global, blocks: u32) -> Result<Vec<Entry>, AllocError>
    ensures { IfOk result (λ entries. entries.items ≡ replicate blocks (Settled 0)) }
{
    let mut entries = Vec::new(alloc);
    for _i in 0..blocks {
        let key = Key::never();
        entries.push(Entry::Settled(key))?;
    }
    Ok(entries)
}

impl QuietBook {
    ghost use Rattle.key_state.specs.Quiet.{quiet, quiet_seen};

    /// A book of so many blocks, none of which was ever written.
    pub fn new(alloc: Global, blocks: u32) -> Result<QuietBook, NoMemory>
        ensures { IfOk result (λ book. quiet_seen book ≡ quiet (replicate blocks (Settled 0)) 0 0) }
    {
        let entries = never_written(alloc, blocks)?;
        Ok(QuietBook {
            entries,
            ends: 0,
            clears: 0,
        })
    }
}

impl Book for QuietBook {
    ghost use Rattle.key_state.specs.Quiet.{quiet_seen, quiet_is_book};

    ghost seen = { quiet_seen };

    ghost is_book = { quiet_is_book };

    fn begin(&mut self, block: BlockNo, old: Key, new: Key) -> Result<(), BookFault> {
        take_step(&mut self.entries, &Record::Begin { block, old, new });
        Ok(())
    }

    fn end(&mut self, block: BlockNo, key: Key) -> Result<(), BookFault> {
        take_step(&mut self.entries, &Record::End { block, key });
        self.ends = self.ends.wrapping_add(1);
        Ok(())
    }

    fn bad(&mut self, block: BlockNo) -> Result<(), BookFault> {
        take_step(&mut self.entries, &Record::Bad { block });
        Ok(())
    }

    fn begin_run(&mut self, first: BlockNo, many: u32) -> Result<(), BookFault> {
        take_step(&mut self.entries, &Record::BeginRun { first, many });
        Ok(())
    }

    fn end_run(&mut self, first: BlockNo, many: u32) -> Result<(), BookFault> {
        take_step(&mut self.entries, &Record::EndRun { first, many });
        self.ends = self.ends.wrapping_add(many as u64);
        Ok(())
    }

    fn clear_run(&mut self, first: BlockNo, many: u32) -> Result<(), BookFault> {
        let used = count_used(&self.entries, first, many);
        take_step(&mut self.entries, &Record::Clear { first, many });
        self.clears = self.clears.wrapping_add(used as u64);
        Ok(())
    }

    fn flush(&mut self) -> Result<(), BookFault> {
        Ok(())
    }

    fn entry(&self, block: BlockNo) -> Entry {
        self.entries[block.0 as usize]
    }

    fn ends(&self) -> u64 {
        self.ends
    }
}

#[cfg(test)]
mod tests {
    use super::*;

    #[test]
    fn a_new_book_has_blocks_that_were_never_written(rt: HostRuntime) {
        let mut book = QuietBook::new(rt.alloc(), 4).expect(&rt, "memory");
        assert!(rt; book.flush().is_ok());
        assert_eq!(rt; book.entry(BlockNo(3)), Entry::Settled(Key::never()));
        assert_eq!(rt; book.ends(), 0);
    }
}
