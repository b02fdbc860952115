// Lines of a store's verification.
ghost use Rattle.std.specs.Prelude.{◌≡◌, ◌<◌, IfOk};
ghost use Rattle.vd_base.specs.Geometry.{sectors_of};
ghost use Rattle.run_report.specs.Findings.{part_word as word_of_part, holds_word as word_of_verdict, keys_text, place_text, corrupt_text, pending_text, finding_text, counts_text, verified_text, IsPrintable};

use block_verdict::{Finding, Verdict};
use key_state::Entry;
use sector_stamp::Part;
use std::alloc::Global;
use vd_base::{BlockNo, Key, StoreId};
use vd_outside::{NoMemory, Text};

fn part_word(part: Part) -> &'static str
    ensures { result.now ≡ word_of_part part }
{
    match part {
        Part::Name => "name",
        Part::Address => "address",
        Part::Key => "key",
        Part::Pattern => "pattern",
    }
}

fn holds_word(holds: Verdict) -> &'static str
    ensures { result.now ≡ word_of_verdict holds }
{
    match holds {
        Verdict::Old => "old",
        Verdict::New => "new",
        Verdict::Mixed => "mixed",
        Verdict::Clean => "",
        Verdict::Corrupt { .. } => "",
    }
}

fn keys_of(alloc: Global, entry: Entry) -> Result<Text, NoMemory>
    ensures { IfOk result (λ text. text ≡ keys_text entry) }
{
    match entry {
        Entry::Settled(key) => {
            let number = key.get();
            Ok(Text::of(format!(in alloc; "{number}")?))
        }
        Entry::Pending { old, new } => {
            let before = old.get();
            let after = new.get();
            Ok(Text::of(format!(in alloc; "{before} {after}")?))
        }
        Entry::Bad => Text::from_str(alloc, ""),
    }
}

fn place_of(alloc: Global, store: &StoreId, block: BlockNo, sector: u32) -> Result<Text, NoMemory>
    requires block { block.0 < store.now.geometry.blocks }
    requires sector { sector < sectors_of store.now.geometry }
    ensures { IfOk result (λ text. text ≡ place_text store.now block.0 sector) }
{
    let number = block.0;
    let address = store.geometry.address(block, sector);
    Ok(Text::of(format!(in alloc; "block {number} sector {sector} address {address}")?))
}

fn corrupt_line(
    alloc: Global,
    store: &StoreId,
    block: BlockNo,
    entry: Entry,
    sector: u32,
    part: Part,
) -> Result<Text, NoMemory>
    requires block { block.0 < store.now.geometry.blocks }
    requires sector { sector < sectors_of store.now.geometry }
    ensures { IfOk result (λ line. line ≡ corrupt_text store.now block.0 entry sector part) }
{
    let name = &store.name;
    let place = place_of(alloc, store, block, sector)?;
    let word = part_word(part);
    let keys = keys_of(alloc, entry)?;
    Ok(Text::of(format!(in alloc; "corrupt {name} {place} part {word} keys {keys}\n")?))
}

fn pending_line(
    alloc: Global,
    store: &StoreId,
    block: BlockNo,
    old: Key,
    new: Key,
    holds: Verdict,
) -> Result<Text, NoMemory>
    ensures { IfOk result (λ line. line ≡ pending_text store.now block.0 old new holds) }
{
    let name = &store.name;
    let number = block.0;
    let before = old.get();
    let after = new.get();
    let word = holds_word(holds);
    Ok(Text::of(format!(in alloc;
        "pending {name} block {number} keys {before} {after} holds {word}\n"
    )?))
}

/// The line of one finding of a store's verification or of a run.
#[tactic(auto, unfolding(crate::specs::Findings::finding_text))]
pub fn finding_line(alloc: Global, store: &StoreId, finding: &Finding) -> Result<Text, NoMemory>
    requires { IsPrintable store.now finding.now }
    ensures { IfOk result (λ line. line ≡ finding_text store.now finding.now) }
{
    let name = &store.name;
    match finding {
        Finding::Corrupt {
            block,
            entry,
            sector,
            part,
        } => corrupt_line(alloc, store, *block, *entry, *sector, *part),
        Finding::Pending {
            block,
            old,
            new,
            holds,
        } => pending_line(alloc, store, *block, *old, *new, *holds),
        Finding::ReadFault { block } => {
            let number = block.0;
            Ok(Text::of(format!(in alloc; "readfault {name} block {number}\n")?))
        }
        Finding::WriteFault { block } => {
            let number = block.0;
            Ok(Text::of(format!(in alloc; "writefault {name} block {number}\n")?))
        }
    }
}

/// What a store's verification counted.
#[derive(Clone, Copy, Debug, PartialEq, Eq, Drop)]
pub struct Verified {
    /// Blocks that were read well.
    pub blocks: u64,
    /// Corrupt ones among them.
    pub corrupt: u64,
    /// Entries that were recovered as pending.
    pub pending: u64,
    /// Entries that were recovered as bad.
    pub bad: u64,
    /// Blocks that couldn't be read.
    pub faults: u64,
}

fn counts_of(alloc: Global, counted: &Verified) -> Result<Text, NoMemory>
    ensures { IfOk result (λ text. text ≡ counts_text counted.now) }
{
    let blocks = counted.blocks;
    let corrupt = counted.corrupt;
    let pending = counted.pending;
    Ok(Text::of(format!(in alloc; "blocks {blocks} corrupt {corrupt} pending {pending}")?))
}

/// The line that ends a store's verification.
pub fn verified_line(alloc: Global, store: &StoreId, counted: &Verified) -> Result<Text, NoMemory>
    ensures { IfOk result (λ line. line ≡ verified_text store.now.name counted.now) }
{
    let name = &store.name;
    let counts = counts_of(alloc, counted)?;
    let bad = counted.bad;
    let faults = counted.faults;
    Ok(Text::of(format!(in alloc; "verified {name} {counts} bad {bad} faults {faults}\n")?))
}
