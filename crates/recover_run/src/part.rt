// Verification of some blocks of a store.
ghost use Rattle.std.specs.Prelude.{◌≡◌, ◌≢◌, ◌+◌, ◌<◌, ◌≤◌, ◌++◌, List, Bool, IsTrue, IfOk, OnErr, OnOk, length, map, vec_len, vec_capacity, count_by, [], ◌∷◌};
ghost use Rattle.key_state.specs.Entries.{IsEntry, AreEntries};
ghost use Rattle.recover_run.specs.declared.look.Look.{Look as ALook};
ghost use Rattle.recover_run.specs.Looks.{is_read as is_read_entry, LooksAt, block_findings, findings_of, settled_look, is_seen};
ghost use Rattle.recover_run.specs.Part.{ArePart, Called, Verifies};

use crate::Look;
use block_verdict::{Finding, Verdict, settle, verdict};
use key_state::Entry;
use vd_arm::{Arm, Pass};
use vd_base::{BlockNo, StoreId};
use vd_outside::NoMemory;

/// Whether verification reads a block with this entry: not one that was never written, nor a bad one.
fn is_read(entry: &Entry) -> bool
    ensures { result ≡ is_read_entry entry.now }
{
    match entry {
        Entry::Settled(key) => key.get() != 0,
        Entry::Pending { .. } => true,
        Entry::Bad => false,
    }
}

/// Reads one block, unless it was never written or is bad.
fn look<A: Arm>(store: &StoreId, arm: &mut A, pass: &A::Pass, entry: &Entry, buf: &mut [u8]) -> Look
    requires valid { IsEntry entry.now }
    requires block { (A.Pass.seen pass.now).block < store.now.geometry.blocks }
    requires size { (A.Pass.seen pass.now).size ≡ store.now.geometry.block_size }
    requires room { length buf.old ≡ store.now.geometry.block_size }
    ensures looks { LooksAt store.now (A.Pass.seen pass.now) entry.now result }
    ensures called { Called (result ∷ []) (A.seen arm.old) (A.seen arm.new) }
{
    if !is_read(entry) {
        return Look::Skipped;
    }
    match arm.read(pass, buf) {
        Ok(()) => {
            let seen = verdict(store, pass.block(), *entry, buf);
            Look::Sees(seen)
        }
        Err(_) => Look::Unread,
    }
}

/// The finding of a block that was looked at, if there is one.
fn finding_of(number: u32, entry: &Entry, seen: &Look) -> Option<Finding>
    ensures { findings_of result ≡ block_findings (record { 0 = number }) entry.now seen.now }
{
    let block = BlockNo(number);
    match seen {
        Look::Skipped => None,
        Look::Unread => Some(Finding::ReadFault { block }),
        Look::Sees(Verdict::Corrupt { sector, part }) => Some(Finding::Corrupt {
            block,
            entry: *entry,
            sector: *sector,
            part: *part,
        }),
        Look::Sees(holds) => match entry {
            Entry::Pending { old, new } => Some(Finding::Pending {
                block,
                old: *old,
                new: *new,
                holds: *holds,
            }),
            Entry::Settled(_) => None,
            Entry::Bad => None,
        },
    }
}

fn settled_of(entry: &Entry, seen: &Look) -> Entry
    requires { IsEntry entry.now }
    ensures { result ≡ settled_look entry.now seen.now }
{
    match seen {
        Look::Skipped => *entry,
        Look::Unread => *entry,
        Look::Sees(holds) => settle(*entry, *holds),
    }
}

/// Adds a block's finding, where there is one, without taking memory.
fn note(found: &mut Vec<Finding>, block: u32, entry: &Entry, seen: &Look)
    requires { vec_len found.old < vec_capacity found.old }
    ensures items { found.new.items ≡ found.old.items ++ block_findings (record { 0 = block }) entry.now seen.now }
    ensures len { vec_len found.new ≤ vec_len found.old + 1 }
    ensures room { vec_capacity found.new ≡ vec_capacity found.old }
{
    if let Some(finding) = finding_of(block, entry, seen) {
        found.push_reserved(finding);
    }
}

fn count_of(seen: &Look) -> u64
    ensures { result ≡ count_by is_seen (seen.now ∷ []) }
{
    match seen {
        Look::Skipped => 0,
        Look::Unread => 0,
        Look::Sees(_) => 1,
    }
}

/// Reads, in rising order, each block whose entry is neither settled at 0 nor bad, and answers how many were read well. It appends
/// one finding for each block that is pending, corrupt or not readable, and one settled entry for each block; a block that wasn't
/// readable keeps its entry. `entries` and `passes` are those of the blocks from `first` on. Where memory runs out nothing was read
/// and nothing is changed.
pub fn verify_part<A: Arm>(
    store: &StoreId,
    first: u32,
    entries: &[Entry],
    arm: &mut A,
    passes: &[A::Pass],
    buf: &mut [u8],
    found: &mut Vec<Finding>,
    settled: &mut Vec<Entry>,
) -> Result<u64, NoMemory>
    requires as_many { length passes.now ≡ length entries.now }
    requires in_range { first + length entries.now ≤ store.now.geometry.blocks }
    requires valid { AreEntries entries.now }
    requires part { ArePart first store.now.geometry (map A.Pass.seen passes.now) }
    requires size { length buf.old ≡ store.now.geometry.block_size }
    ensures verifies { IfOk result (λ many. (looks : List ALook)
        × Verifies store.now first entries.now (map A.Pass.seen passes.now) looks found.old.items found.new.items settled.old.items settled.new.items many
        × Called looks (A.seen arm.old) (A.seen arm.new)) }
    ensures refused { OnErr result ((found.new.items ≡ found.old.items) × (settled.new.items ≡ settled.old.items) × (A.seen arm.new ≡ A.seen arm.old)) }
{
    let _limits = store.geometry.blocks();
    found.reserve(entries.len())?;
    settled.reserve(entries.len())?;
    let mut many = 0;
    for i in 0..entries.len() {
        let entry = &entries[i];
        let seen = look(store, arm, &passes[i], entry, buf);
        note(found, first + i as u32, entry, &seen);
        settled.push_reserved(settled_of(entry, &seen));
        many += count_of(&seen);
    }
    Ok(many)
}
