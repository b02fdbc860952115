// The record of an operation is appended, and the run takes the entries that the book then has.
ghost use Rattle.std.specs.Prelude.{◌≡◌, ◌+◌, ◌<◌, ◌≤◌, ◌⊎◌, List, true, length, map, slice_set, OnOk, OnErr};
ghost use Rattle.key_state.specs.Entries.{begun, ended, entry_at};
ghost use Rattle.key_state.specs.Books.{HasBookCause, Unsynced};
ghost use Rattle.key_state.specs.declared.entry.Entry.{Entry as AnEntry};
ghost use Rattle.key_state.specs.declared.entry.Entry.TheVariants.{Bad};
ghost use Rattle.claim_table.specs.Sums.{Each};
ghost use Rattle.block_ops.specs.Runs.{AreNow, HasRun, IsLive, IsBegun, some_settled};
ghost use Rattle.block_ops.specs.Acts.{Acted};

use claim_table::Run;
use key_state::{Book, BookFault, Entry};
use vd_base::{BlockNo, next_key};

/// Whether some block is settled.
pub(crate) fn has_settled(entries: &[Entry]) -> bool
    ensures { result ≡ some_settled entries.now }
{
    entries
        .iter()
        .any(|entry| matches!(entry, Entry::Settled(_)))
}

/// Appends the beginning of a write of 1 to 64 blocks, of which one at least is settled.
pub(crate) fn append_begin<B: Book>(
    first: BlockNo,
    entries: &[Entry],
    book: &mut B,
) -> Result<(), BookFault>
    requires few { length entries.now ≤ 64 }
    requires settled { some_settled entries.now ≡ true }
    requires live { Each IsLive entries.now }
    requires entries { HasRun (B.seen book.old) first.0 entries.now }
    ensures ok { OnOk result (Acted first.0 entries.now (map begun entries.now) (B.seen book.old) (B.seen book.new)) }
    ensures err { OnErr result (Acted first.0 entries.now (map begun entries.now) (B.seen book.old) (B.seen book.new) ⊎ Acted first.0 entries.now entries.now (B.seen book.old) (B.seen book.new)) }
    ensures shut { OnErr result ((B.seen book.new).shut ≡ true) }
    ensures unsynced { Unsynced (B.seen book.old) (B.seen book.new) }
    ensures cause { HasBookCause (B.seen book.old) (B.seen book.new) result }
{
    if entries.len() > 1 {
        return book.begin_run(first, entries.len() as u32);
    }
    match entries[0] {
        Entry::Settled(old) => book.begin(first, old, next_key(old)),
        // some block is settled, and this is the only one
        _ => unreachable!(),
    }
}

/// Appends the end of a write of 1 to 64 blocks.
pub(crate) fn append_end<B: Book>(
    first: BlockNo,
    entries: &[Entry],
    book: &mut B,
) -> Result<(), BookFault>
    requires some { 0 < length entries.now }
    requires few { length entries.now ≤ 64 }
    requires begun { Each IsBegun entries.now }
    requires entries { HasRun (B.seen book.old) first.0 entries.now }
    ensures ok { OnOk result (Acted first.0 entries.now (map ended entries.now) (B.seen book.old) (B.seen book.new)) }
    ensures err { OnErr result (Acted first.0 entries.now (map ended entries.now) (B.seen book.old) (B.seen book.new) ⊎ Acted first.0 entries.now entries.now (B.seen book.old) (B.seen book.new)) }
    ensures shut { OnErr result ((B.seen book.new).shut ≡ true) }
    ensures unsynced { Unsynced (B.seen book.old) (B.seen book.new) }
    ensures cause { HasBookCause (B.seen book.old) (B.seen book.new) result }
{
    if entries.len() > 1 {
        return book.end_run(first, entries.len() as u32);
    }
    match entries[0] {
        Entry::Pending { new, .. } => book.end(first, new),
        // its write was begun
        _ => unreachable!(),
    }
}

/// The run with the entries that the book has for its blocks.
pub(crate) fn as_in<P: Drop, B: Book>(run: Run<P>, book: &B) -> Run<P>
    requires { run.first.0 + length run.entries.items ≤ length (B.seen book.now).now }
    ensures first { result.first ≡ run.first }
    ensures passes { result.passes.items ≡ run.passes.items }
    ensures exact { (entries : List AnEntry) → length entries ≡ length run.entries.items → AreNow (B.seen book.now) run.first.0 entries → result.entries.items ≡ entries }
{
    let Run {
        first,
        mut entries,
        passes,
    } = run;
    let many = entries.len() as u32;
    entries.clear();
    for k in 0..many {
        entries.push_reserved(book.entry(BlockNo(first.0 + k)));
    }
    Run {
        first,
        entries,
        passes,
    }
}
