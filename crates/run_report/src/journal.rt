// Lines of a journal's opening and recovery.
ghost use Rattle.std.specs.Prelude.{◌≡◌, IfOk};
ghost use Rattle.run_report.specs.Lines.{journal_text, opened_text, epoch_end_text, no_journal_text, id_text, mismatch_text, damaged_text, journal_fault_text};

use std::alloc::Global;
use vd_base::{StoreId, StoreName};
use vd_outside::{NoMemory, Text};

/// The line of a journal that was recovered in this epoch, with this number of stored records.
pub fn journal_line(
    alloc: Global,
    name: &StoreName,
    epoch: u64,
    records: u64,
) -> Result<Text, NoMemory>
    ensures { IfOk result (λ line. line ≡ journal_text name.now epoch records) }
{
    Ok(Text::of(format!(in alloc; "journal {name} epoch {epoch} records {records}\n")?))
}

/// The line of a journal that was created, or opened, in this epoch.
pub fn opened_line(alloc: Global, name: &StoreName, epoch: u64) -> Result<Text, NoMemory>
    ensures { IfOk result (λ line. line ≡ opened_text name.now epoch) }
{
    Ok(Text::of(format!(in alloc; "opened {name} epoch {epoch}\n")?))
}

/// The line of a journal in its last epoch, where a new one is needed.
pub fn epoch_end_line(alloc: Global, name: &StoreName) -> Result<Text, NoMemory>
    ensures { IfOk result (λ line. line ≡ epoch_end_text name.now) }
{
    Ok(Text::of(format!(in alloc; "epoch end {name}\n")?))
}

/// The line of a journal without a valid gate.
pub fn no_journal_line(alloc: Global, name: &StoreName) -> Result<Text, NoMemory>
    ensures { IfOk result (λ line. line ≡ no_journal_text name.now) }
{
    Ok(Text::of(format!(in alloc; "no journal {name}\n")?))
}

fn id_of(alloc: Global, id: &StoreId) -> Result<Text, NoMemory>
    ensures { IfOk result (λ text. text ≡ id_text id.now) }
{
    let name = &id.name;
    let blocks = id.geometry.blocks();
    let size = id.geometry.block_size();
    Ok(Text::of(format!(in alloc; "{name} blocks {blocks} of {size}")?))
}

/// The line of another store's journal.
pub fn mismatch_line(alloc: Global, found: &StoreId, wanted: &StoreId) -> Result<Text, NoMemory>
    ensures { IfOk result (λ line. line ≡ mismatch_text found.now wanted.now) }
{
    let there = id_of(alloc, found)?;
    let here = id_of(alloc, wanted)?;
    Ok(Text::of(format!(in alloc; "mismatch found {there} wanted {here}\n")?))
}

/// The line of a damaged journal: the sector in the file, what is wrong there (one of `missing`, `map`, `header`, `record`, `tail`),
/// and at which place of the sector.
pub fn damaged_line(
    alloc: Global,
    name: &StoreName,
    sector: u64,
    what: &str,
    at: u32,
) -> Result<Text, NoMemory>
    ensures { IfOk result (λ line. line ≡ damaged_text name.now sector what.now at) }
{
    Ok(Text::of(format!(in alloc; "damaged {name} sector {sector} {what} {at}\n")?))
}

/// The line of a journal whose disk failed after so many records.
pub fn journal_fault_line(alloc: Global, name: &StoreName, records: u64) -> Result<Text, NoMemory>
    ensures { IfOk result (λ line. line ≡ journal_fault_text name.now records) }
{
    Ok(Text::of(format!(in alloc; "journalfault {name} record {records}\n")?))
}
