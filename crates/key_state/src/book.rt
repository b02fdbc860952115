// What the operations on blocks rely on in a book of entries.
ghost use Rattle.std.specs.Prelude.{◌≡◌, ◌≤◌, ◌<◌, true, length, OnOk, OnErr};
ghost use Rattle.key_state.specs.Books.{IsBook, MayAppend, Appended, Shuts, Kept, Unsynced, HasBookCause, HasFlushCause};
ghost use Rattle.key_state.specs.Entries.{entry_at};
ghost use Rattle.key_state.specs.declared.record.Record.TheVariants.{Begin, End, Bad as BadRecord, BeginRun, EndRun, Clear};
ghost use Rattle.key_state.specs.declared.seen.BookSeen.{BookSeen};

use crate::{BookFault, Entry};
use vd_base::{BlockNo, Key};

/// The entries of a store's blocks, changed record by record. What a journal has synced outlives a stop.
///
/// The caller of one that appends a record owes that the record is legal at the entry of each of its blocks. At Ok the record is
/// appended; at Err the book is shut from then on, and only where a call of its disk failed the record may be appended all the same. No
/// call of this trait takes memory.
pub trait Book: Drop + Send {
    /// All that contracts see of it: plain data, the same after a move.
    ghost seen: { Self → BookSeen };

    /// A write of the next key begins.
    fn begin(&mut self, block: BlockNo, old: Key, new: Key) -> Result<(), BookFault>
        requires { MayAppend (seen self.old) (Begin block old new) }
        ensures ok { OnOk result (Appended (Begin block old new) (seen self.old) (seen self.new)) }
        ensures err { OnErr result (Shuts (Begin block old new) (seen self.old) (seen self.new)) }
        ensures unsynced { Unsynced (seen self.old) (seen self.new) }
        ensures cause { HasBookCause (seen self.old) (seen self.new) result };

    /// The write of this key is done.
    fn end(&mut self, block: BlockNo, key: Key) -> Result<(), BookFault>
        requires { MayAppend (seen self.old) (End block key) }
        ensures ok { OnOk result (Appended (End block key) (seen self.old) (seen self.new)) }
        ensures err { OnErr result (Shuts (End block key) (seen self.old) (seen self.new)) }
        ensures unsynced { Unsynced (seen self.old) (seen self.new) }
        ensures cause { HasBookCause (seen self.old) (seen self.new) result };

    /// The block is corrupt.
    fn bad(&mut self, block: BlockNo) -> Result<(), BookFault>
        requires { MayAppend (seen self.old) (BadRecord block) }
        ensures ok { OnOk result (Appended (BadRecord block) (seen self.old) (seen self.new)) }
        ensures err { OnErr result (Shuts (BadRecord block) (seen self.old) (seen self.new)) }
        ensures unsynced { Unsynced (seen self.old) (seen self.new) }
        ensures cause { HasBookCause (seen self.old) (seen self.new) result };

    /// A write of the next key of each of these blocks, 2 to 64, begins.
    fn begin_run(&mut self, first: BlockNo, many: u32) -> Result<(), BookFault>
        requires many { (2 ≤ many) × (many ≤ 64) }
        requires legal { MayAppend (seen self.old) (BeginRun first many) }
        ensures ok { OnOk result (Appended (BeginRun first many) (seen self.old) (seen self.new)) }
        ensures err { OnErr result (Shuts (BeginRun first many) (seen self.old) (seen self.new)) }
        ensures unsynced { Unsynced (seen self.old) (seen self.new) }
        ensures cause { HasBookCause (seen self.old) (seen self.new) result };

    /// The write of each of these blocks, 2 to 64, is done.
    fn end_run(&mut self, first: BlockNo, many: u32) -> Result<(), BookFault>
        requires many { (2 ≤ many) × (many ≤ 64) }
        requires legal { MayAppend (seen self.old) (EndRun first many) }
        ensures ok { OnOk result (Appended (EndRun first many) (seen self.old) (seen self.new)) }
        ensures err { OnErr result (Shuts (EndRun first many) (seen self.old) (seen self.new)) }
        ensures unsynced { Unsynced (seen self.old) (seen self.new) }
        ensures cause { HasBookCause (seen self.old) (seen self.new) result };

    /// These blocks, 1 to 64, are as if they were never written.
    fn clear_run(&mut self, first: BlockNo, many: u32) -> Result<(), BookFault>
        requires many { (1 ≤ many) × (many ≤ 64) }
        requires legal { MayAppend (seen self.old) (Clear first many) }
        ensures ok { OnOk result (Appended (Clear first many) (seen self.old) (seen self.new)) }
        ensures err { OnErr result (Shuts (Clear first many) (seen self.old) (seen self.new)) }
        ensures unsynced { Unsynced (seen self.old) (seen self.new) }
        ensures cause { HasBookCause (seen self.old) (seen self.new) result };

    /// Makes all records so far outlive a stop.
    fn flush(&mut self) -> Result<(), BookFault>
        ensures kept { Kept (seen self.old) (seen self.new) }
        ensures ok { OnOk result ((seen self.new).synced ≡ (seen self.new).now) }
        ensures err { OnErr result ((seen self.new).shut ≡ true) }
        ensures cause { HasFlushCause (seen self.old) (seen self.new) result };

    /// The block's entry now.
    fn entry(&self, block: BlockNo) -> Entry
        requires { block.0 < length (seen self.now).now }
        ensures { result ≡ entry_at (seen self.now).now block.0 };

    /// How many writes were ended since the opening, modulo 2^64.
    fn ends(&self) -> u64
        ensures { result ≡ (seen self.now).ends };

    /// What is true of every book.
    ghost is_book: { (book : Self) → IsBook (seen book) };
}
