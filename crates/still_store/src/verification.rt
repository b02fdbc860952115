// Verifying one store.
ghost use Rattle.std.specs.Prelude.{◌≡◌, ◌≤◌, ◌<◌, ◌+◌, ◌++◌, ◌^◌, ◌-◌, min, List, ℕ, Bool, true, [], IfOk, OnOk, OnErr, IsErrOf, IsTrue, length, map, take, count_by, slice_get, Some};
ghost use Rattle.vd_arm.specs.Arm.{PassSeen};
ghost use Rattle.key_state.specs.Entries.{AreEntries};
ghost use Rattle.block_verdict.specs.declared.finding.Finding.{Finding as AFinding};
ghost use Rattle.recover_run.specs.declared.look.Look.{Look as ALook};
ghost use Rattle.recover_run.specs.Looks.{AreLooks, findings_from, settled_from, is_unread as is_unread_look};
ghost use Rattle.vd_outside.specs.Causes.{Rose};
ghost use Rattle.vd_yard.specs.Counts.{source_faults, arm_faults, good_reads, good_writes};
ghost use Rattle.vd_yard.specs.Yard.{HasFiles};
ghost use Rattle.vd_yard.specs.Out.{AtPasses, one_more};
ghost use Rattle.still_store.specs.Frame.{Keeps, Stays, BlocksStay};
ghost use Rattle.recover_run.specs.Part.{ArePart, Called};
ghost use Rattle.run_report.specs.Findings.{IsPrintable};
ghost use Rattle.run_report.specs.Says.{Says, printing};
ghost use Rattle.vd_yard.specs.Contents.{AreBlocks};
ghost use Rattle.still_store.specs.Verification.{findings_text, counted_of, lines_of, store_text, ArePassesOf, CountsRose, CameSoFar, StopsCalling, StopsReading, is_pending as pends, is_bad as is_bad_entry};
ghost use Rattle.still_store.specs.Findings.{are_corrupt, are_unread, plus, AreSmall};
ghost use Rattle.still_store.specs.Looking.{Leaves, carried};

use block_verdict::Finding;
use key_state::Entry;
use plan_types::StorePlan;
use recover_run::verify_part;
use run_report::{Printer, Verified, finding_line, verified_line};
use std::alloc::Global;
use vd_arm::Arm;
use vd_base::StoreId;
use vd_outside::{NoMemory, Sink, Text};
use vd_yard::{Yard, YardFault};

/// How many blocks are verified before their lines go out.
const PIECE: usize = 1024;

/// Why a store's verification ends early.
#[derive(Clone, Copy, Debug, PartialEq, Eq, Drop)]
pub enum NotVerified {
    /// The yard can't open the store.
    Yard,
    /// A write of the output has failed.
    Output,
    NoMemory,
}

impl From<NoMemory> for NotVerified {
    ghost use Rattle.std.specs.Prelude.{◌≡◌};
    ghost use Rattle.still_store.specs.declared.verification.NotVerified.TheVariants.{NoMemory};

    ghost from_gives = { λ _ e. e ≡ NoMemory };

    fn from(_: NoMemory) -> NotVerified {
        NotVerified::NoMemory
    }
}

fn is_corrupt(finding: &Finding) -> bool
    ensures { result ≡ are_corrupt finding.now }
{
    match finding {
        Finding::Corrupt { .. } => true,
        Finding::Pending { .. } => false,
        Finding::ReadFault { .. } => false,
        Finding::WriteFault { .. } => false,
    }
}

fn is_unread(finding: &Finding) -> bool
    ensures { result ≡ are_unread finding.now }
{
    match finding {
        Finding::Corrupt { .. } => false,
        Finding::Pending { .. } => false,
        Finding::ReadFault { .. } => true,
        Finding::WriteFault { .. } => false,
    }
}

fn is_pending(entry: &Entry) -> bool
    ensures { result ≡ pends entry.now }
{
    match entry {
        Entry::Settled(_) => false,
        Entry::Pending { .. } => true,
        Entry::Bad => false,
    }
}

fn is_bad(entry: &Entry) -> bool
    ensures { result ≡ is_bad_entry entry.now }
{
    match entry {
        Entry::Settled(_) => false,
        Entry::Pending { .. } => false,
        Entry::Bad => true,
    }
}

fn corrupt_in(found: &[Finding]) -> usize
    ensures { result ≡ count_by are_corrupt found.now }
{
    found.iter().filter(|finding| is_corrupt(finding)).count()
}

fn unread_in(found: &[Finding]) -> usize
    ensures { result ≡ count_by are_unread found.now }
{
    found.iter().filter(|finding| is_unread(finding)).count()
}

fn pending_in(entries: &[Entry]) -> usize
    ensures { result ≡ count_by pends entries.now }
{
    entries.iter().filter(|entry| is_pending(entry)).count()
}

fn bad_in(entries: &[Entry]) -> usize
    ensures { result ≡ count_by is_bad_entry entries.now }
{
    entries.iter().filter(|entry| is_bad(entry)).count()
}

/// The lines of findings, one behind the other.
#[tactic(auto, using(crate::proofs::Pieces::text_more))]
fn text_of(alloc: Global, store: &StoreId, found: &[Finding]) -> Result<Text, NoMemory>
    requires { (i : ℕ) (finding : AFinding) → slice_get found.now i ≡ Some finding → IsPrintable store.now finding }
    ensures { IfOk result (λ text. text ≡ findings_text store.now found.now) }
{
    let mut text = Text::from_str(alloc, "")?;
    for finding in found {
        let line = finding_line(alloc, store, finding)?;
        text.push(line.as_str())?;
    }
    Ok(text)
}

/// What a store is verified with: one block's bytes, the findings of one piece, and settled entries. These are those of all pieces so far
/// where they are collected, else those of one piece.
#[derive(Drop)]
struct Room {
    block: Vec<u8>,
    found: Vec<Finding>,
    settled: Vec<Entry>,
    collects: bool,
}

/// Leaves nothing of the pieces before in the room, but settled entries that are collected.
fn begin_piece(room: &mut Room)
    ensures found { room.new.found.items ≡ [] }
    ensures settled { room.new.settled.items ≡ carried room.old.collects room.old.settled.items }
    ensures size { length room.new.block.items ≡ length room.old.block.items }
    ensures collects { room.new.collects ≡ room.old.collects }
{
    room.found.clear();
    if !room.collects {
        room.settled.clear();
    }
}

/// What a piece counts.
fn counted(entries: &[Entry], many: u64, found: &[Finding]) -> Verified
    requires { length found.now ≤ length entries.now }
    ensures blocks { result.blocks ≡ many }
    ensures corrupt { result.corrupt ≡ count_by are_corrupt found.now }
    ensures pending { result.pending ≡ count_by pends entries.now }
    ensures bad { result.bad ≡ count_by is_bad_entry entries.now }
    ensures faults { result.faults ≡ count_by are_unread found.now }
{
    Verified {
        blocks: many,
        corrupt: corrupt_in(found) as u64,
        pending: pending_in(entries) as u64,
        bad: bad_in(entries) as u64,
        faults: unread_in(found) as u64,
    }
}

fn add(total: &mut Verified, more: &Verified)
    requires { (n : ℕ) × (m : ℕ) × AreSmall total.old n × AreSmall more.now m × (n + m < 2 ^ 64) }
    ensures { total.new ≡ plus total.old more.now }
{
    total.blocks += more.blocks;
    total.corrupt += more.corrupt;
    total.pending += more.pending;
    total.bad += more.bad;
    total.faults += more.faults;
}

/// Verifies some blocks of a store and prints their findings.
fn verify_piece<A: Arm, S: Sink>(
    alloc: Global,
    store: &StoreId,
    first: u32,
    entries: &[Entry],
    arm: &mut A,
    passes: &[A::Pass],
    room: &mut Room,
    printer: &mut Printer,
    out: &mut S,
) -> Result<Verified, NoMemory>
    requires as_many { length passes.now ≡ length entries.now }
    requires in_range { first + length entries.now ≤ store.now.geometry.blocks }
    requires valid { AreEntries entries.now }
    requires part { ArePart first store.now.geometry (map A.Pass.seen passes.now) }
    requires size { length room.old.block.items ≡ store.now.geometry.block_size }
    ensures looks { IfOk result (λ counted. (looks : List ALook)
        × AreLooks store.now entries.now (map A.Pass.seen passes.now) looks
        × (counted ≡ counted_of entries.now looks)
        × Called looks (A.seen arm.old) (A.seen arm.new)
        × Says (printing printer.old.failed (S.taken out.old) (S.faults out.old)) (printing printer.new.failed (S.taken out.new) (S.faults out.new))
        (findings_text store.now (findings_from first entries.now looks))
        × (room.new.settled.items ≡ carried room.old.collects room.old.settled.items ++ settled_from entries.now looks)) }
    ensures collects { room.new.collects ≡ room.old.collects }
    ensures refused { OnErr result ((out.new ≡ out.old) × (printer.new ≡ printer.old)) }
    ensures later { (A.seen arm.old).faults ≤ (A.seen arm.new).faults }
    ensures writes { (A.seen arm.new).good_writes ≡ (A.seen arm.old).good_writes }
    ensures size { length room.new.block.items ≡ store.now.geometry.block_size }
{
    begin_piece(room);
    let many = verify_part(
        store,
        first,
        entries,
        arm,
        passes,
        &mut room.block,
        &mut room.found,
        &mut room.settled,
    )?;
    let text = text_of(alloc, store, &room.found)?;
    printer.say(out, text.as_str());
    Ok(counted(entries, many, &room.found))
}

/// Verifies all blocks of a store, piece by piece, and prints their findings. It ends early where a write of the output has failed.
fn verify_blocks<A: Arm, S: Sink>(
    alloc: Global,
    store: &StoreId,
    entries: &[Entry],
    arm: &mut A,
    passes: &[A::Pass],
    room: &mut Room,
    printer: &mut Printer,
    out: &mut S,
) -> Result<Verified, NotVerified>
    requires one_each { length entries.now ≡ store.now.geometry.blocks }
    requires valid { AreEntries entries.now }
    requires blocks { AreBlocks store.now.geometry (map A.Pass.seen passes.now) }
    requires size { length room.old.block.items ≡ store.now.geometry.block_size }
    requires none { room.old.settled.items ≡ [] }
    ensures looks { IfOk result (λ counted. (looks : List ALook)
        × AreLooks store.now entries.now (map A.Pass.seen passes.now) looks
        × (counted ≡ counted_of entries.now looks)
        × Called looks (A.seen arm.old) (A.seen arm.new)
        × Says (printing printer.old.failed (S.taken out.old) (S.faults out.old)) (printing printer.new.failed (S.taken out.new) (S.faults out.new))
        (lines_of store.now entries.now looks)
        × (IsTrue room.old.collects → room.new.settled.items ≡ settled_from entries.now looks)) }
    ensures front { OnErr result ((n : ℕ) × (looks : List ALook)
        × AreLooks store.now (take n entries.now) (take n (map A.Pass.seen passes.now)) looks
        × (min ((A.seen arm.old).faults + count_by is_unread_look looks) (2 ^ 64 - 1) ≤ (A.seen arm.new).faults)
        × Says (printing printer.old.failed (S.taken out.old) (S.faults out.old)) (printing printer.new.failed (S.taken out.new) (S.faults out.new))
        (lines_of store.now (take n entries.now) looks)) }
    // After a failed write no further piece is read.
    ensures stops { printer.new.failed ≡ true → StopsCalling store.now entries.now (map A.Pass.seen passes.now) (A.seen arm.old) (A.seen arm.new)
        (printing printer.old.failed (S.taken out.old) (S.faults out.old)) (printing printer.new.failed (S.taken out.new) (S.faults out.new)) }
    ensures later { (A.seen arm.old).faults ≤ (A.seen arm.new).faults }
    ensures writes { (A.seen arm.new).good_writes ≡ (A.seen arm.old).good_writes }
    ensures output { IsErrOf result NotVerified.Output → printer.new.failed ≡ true }
    ensures no_yard { IsErrOf result NotVerified.Yard → ⊥ }
{
    let mut total = Verified {
        blocks: 0,
        corrupt: 0,
        pending: 0,
        bad: 0,
        faults: 0,
    };
    let _limits = store.geometry.blocks();
    let mut at = 0;
    while at < entries.len() {
        if printer.failed {
            return Err(NotVerified::Output);
        }
        let end = (at + PIECE).min(entries.len());
        let more = verify_piece(
            alloc,
            store,
            at as u32,
            &entries[at..end],
            arm,
            &passes[at..end],
            room,
            printer,
            out,
        )?;
        add(&mut total, &more);
        at = end;
    }
    Ok(total)
}

/// No entries, with room for so many where they are collected.
fn entries_for(alloc: Global, many: usize, collects: bool) -> Result<Vec<Entry>, NoMemory>
    ensures { IfOk result (λ entries. entries.items ≡ []) }
{
    if !collects {
        return Ok(Vec::new(alloc));
    }
    let entries = Vec::with_capacity(alloc, many)?;
    Ok(entries)
}

fn room_for(alloc: Global, store: &StoreId, collects: bool) -> Result<Room, NoMemory>
    ensures size { IfOk result (λ room. length room.block.items ≡ store.now.geometry.block_size) }
    ensures none { IfOk result (λ room. room.settled.items ≡ []) }
    ensures collects { IfOk result (λ room. room.collects ≡ collects) }
{
    let size = store.geometry.block_size() as usize;
    let settled = entries_for(alloc, store.geometry.blocks() as usize, collects)?;
    Ok(Room {
        block: vec![in alloc; 0u8; size]?,
        found: Vec::new(alloc),
        settled,
        collects,
    })
}

/// What was counted of a store, and the entry that each of its blocks has now, where these are collected.
#[derive(Drop)]
struct Through {
    counted: Verified,
    settled: Vec<Entry>,
}

/// Verifies all blocks of a store through an arm, and prints their findings and the line that ends them.
fn verify_through<A: Arm, S: Sink>(
    alloc: Global,
    store: &StoreId,
    entries: &[Entry],
    arm: &mut A,
    passes: &[A::Pass],
    collects: bool,
    printer: &mut Printer,
    out: &mut S,
) -> Result<Through, NotVerified>
    requires one_each { length entries.now ≡ store.now.geometry.blocks }
    requires valid { AreEntries entries.now }
    requires blocks { AreBlocks store.now.geometry (map A.Pass.seen passes.now) }
    ensures looks { IfOk result (λ through. (looks : List ALook)
        × AreLooks store.now entries.now (map A.Pass.seen passes.now) looks
        × (through.counted ≡ counted_of entries.now looks)
        × Called looks (A.seen arm.old) (A.seen arm.new)
        × Says (printing printer.old.failed (S.taken out.old) (S.faults out.old)) (printing printer.new.failed (S.taken out.new) (S.faults out.new))
        (store_text store.now entries.now looks)
        × (IsTrue collects → through.settled.items ≡ settled_from entries.now looks)) }
    ensures front { OnErr result ((n : ℕ) × (looks : List ALook)
        × AreLooks store.now (take n entries.now) (take n (map A.Pass.seen passes.now)) looks
        × (min ((A.seen arm.old).faults + count_by is_unread_look looks) (2 ^ 64 - 1) ≤ (A.seen arm.new).faults)
        × Says (printing printer.old.failed (S.taken out.old) (S.faults out.old)) (printing printer.new.failed (S.taken out.new) (S.faults out.new))
        (lines_of store.now (take n entries.now) looks)) }
    // After a failed write no further piece is read.
    ensures stops { printer.new.failed ≡ true → StopsCalling store.now entries.now (map A.Pass.seen passes.now) (A.seen arm.old) (A.seen arm.new)
        (printing printer.old.failed (S.taken out.old) (S.faults out.old)) (printing printer.new.failed (S.taken out.new) (S.faults out.new)) }
    ensures later { (A.seen arm.old).faults ≤ (A.seen arm.new).faults }
    ensures writes { (A.seen arm.new).good_writes ≡ (A.seen arm.old).good_writes }
    ensures output { IsErrOf result NotVerified.Output → printer.new.failed ≡ true }
    ensures no_yard { IsErrOf result NotVerified.Yard → ⊥ }
{
    let Ok(mut room) = room_for(alloc, store, collects) else {
        return Err(NotVerified::NoMemory);
    };
    let counted = verify_blocks(alloc, store, entries, arm, passes, &mut room, printer, out)?;
    let Ok(line) = verified_line(alloc, store, &counted) else {
        return Err(NotVerified::NoMemory);
    };
    printer.say(out, line.as_str());
    Ok(Through {
        counted,
        settled: room.settled,
    })
}

/// A store that was verified.
#[derive(Drop)]
pub struct Looked<P> {
    /// What was counted.
    pub counted: Verified,
    /// Its passes, one for each block, in block order.
    pub passes: Vec<P>,
    /// The entry that each block has now, in block order.
    pub settled: Vec<Entry>,
}

/// Opens a store's passes and an arm, verifies all its blocks, and prints their findings and the line that ends them. The arm goes back to
/// the yard, and the passes too unless the answer has them. Settled entries are answered where they are to be collected.
#[tactic(auto, using(vd_yard::specs::Out::one_more_here, vd_yard::specs::Out::one_more_cancel, vd_yard::specs::Out::one_more_swap, vd_yard::specs::Counts::arm_faults_here, vd_yard::specs::Counts::arm_faults_grow, vd_yard::specs::Counts::arm_faults_none, vd_yard::specs::Counts::arm_faults_other, vd_yard::specs::Counts::good_reads_other, vd_yard::specs::Counts::good_writes_other, vd_yard::specs::Counts::good_writes_none, vd_yard::specs::Counts::source_faults_of_arm, crate::proofs::Frames::blocks_same))]
fn look_through<Y: Yard, S: Sink>(
    alloc: Global,
    yard: &mut Y,
    store: &StorePlan,
    entries: &[Entry],
    collects: bool,
    printer: &mut Printer,
    out: &mut S,
) -> Result<Looked<<Y::Arm as Arm>::Pass>, NotVerified>
    requires one_each { length entries.now ≡ store.now.id.geometry.blocks }
    requires valid { AreEntries entries.now }
    ensures stays { Stays (Y.seen yard.old) (Y.seen yard.new) }
    ensures taken { OnOk result ((Y.seen yard.new).out ≡ one_more (Y.seen yard.old).out AtPasses store.now.path) }
    ensures not_taken { OnErr result ((Y.seen yard.new).out ≡ (Y.seen yard.old).out) }
    ensures disks { (Y.seen yard.new).disks ≡ (Y.seen yard.old).disks }
    ensures sources { (q : List ℕ) → source_faults (Y.seen yard.new).counts q ≡ source_faults (Y.seen yard.old).counts q }
    ensures elsewhere { (q : List ℕ) → (q ≡ store.now.path → ⊥) →
        (arm_faults (Y.seen yard.new).counts q ≡ arm_faults (Y.seen yard.old).counts q)
        × (good_reads (Y.seen yard.new).counts q ≡ good_reads (Y.seen yard.old).counts q)
        × (good_writes (Y.seen yard.new).counts q ≡ good_writes (Y.seen yard.old).counts q) }
    ensures contents { OnOk result ((Y.seen yard.new).contents ≡ (Y.seen yard.old).contents) }
    ensures blocks { BlocksStay store.now (Y.seen yard.old).contents (Y.seen yard.new).contents }
    ensures looks { IfOk result (λ looked. (looks : List ALook)
        × Leaves (Y.seen yard.old) (Y.seen yard.new) store.now entries.now (map Y.Arm.Pass.seen looked.passes.items) looks looked.counted
        × Says (printing printer.old.failed (S.taken out.old) (S.faults out.old)) (printing printer.new.failed (S.taken out.new) (S.faults out.new))
        (store_text store.now.id entries.now looks)
        × (IsTrue collects → looked.settled.items ≡ settled_from entries.now looks)) }
    ensures front { OnErr result (CameSoFar (Y.seen yard.old) (Y.seen yard.new) store.now entries.now
        (printing printer.old.failed (S.taken out.old) (S.faults out.old)) (printing printer.new.failed (S.taken out.new) (S.faults out.new))) }
    // After a failed write no further piece is read.
    ensures stops { printer.new.failed ≡ true → StopsReading (Y.seen yard.old) (Y.seen yard.new) store.now entries.now
        (printing printer.old.failed (S.taken out.old) (S.faults out.old)) (printing printer.new.failed (S.taken out.new) (S.faults out.new)) }
    ensures unopened { IsErrOf result NotVerified.Yard → (Rose (Y.seen yard.old).faults (Y.seen yard.new).faults)
        × (printer.new ≡ printer.old) × (out.new ≡ out.old) × ((Y.seen yard.new).counts ≡ (Y.seen yard.old).counts) }
    ensures yard_quiet { (IsErrOf result NotVerified.Yard → ⊥) → (Y.seen yard.new).faults ≡ (Y.seen yard.old).faults }
    ensures willing { IsTrue (Y.seen yard.old).willing → HasFiles (Y.seen yard.old).files store.now → IsErrOf result NotVerified.Yard → ⊥ }
    ensures output { IsErrOf result NotVerified.Output → printer.new.failed ≡ true }
{
    let passes = match yard.passes(store) {
        Ok(passes) => passes,
        Err(YardFault::Failed) => return Err(NotVerified::Yard),
        Err(YardFault::NoMemory) => return Err(NotVerified::NoMemory),
    };
    match yard.arm(store) {
        Ok(mut arm) => {
            let answer = verify_through(
                alloc,
                &store.id,
                entries,
                &mut arm,
                passes.as_slice(),
                collects,
                printer,
                out,
            );
            yard.keep_arm(store, arm);
            match answer {
                Ok(Through { counted, settled }) => Ok(Looked {
                    counted,
                    passes,
                    settled,
                }),
                Err(why) => {
                    yard.keep_passes(store, passes);
                    Err(why)
                }
            }
        }
        Err(fault) => {
            yard.keep_passes(store, passes);
            match fault {
                YardFault::Failed => Err(NotVerified::Yard),
                YardFault::NoMemory => Err(NotVerified::NoMemory),
            }
        }
    }
}

/// Verifies a store as `verify_store` does, but where that goes on the passes stay out of the yard, and are answered with the entry that
/// each block has now: a block that was read has the one that its verdict leaves, any other keeps its own.
pub fn look_at_store<Y: Yard, S: Sink>(
    alloc: Global,
    yard: &mut Y,
    store: &StorePlan,
    entries: &[Entry],
    printer: &mut Printer,
    out: &mut S,
) -> Result<Looked<<Y::Arm as Arm>::Pass>, NotVerified>
    requires one_each { length entries.now ≡ store.now.id.geometry.blocks }
    requires valid { AreEntries entries.now }
    ensures stays { Stays (Y.seen yard.old) (Y.seen yard.new) }
    ensures taken { OnOk result ((Y.seen yard.new).out ≡ one_more (Y.seen yard.old).out AtPasses store.now.path) }
    ensures not_taken { OnErr result ((Y.seen yard.new).out ≡ (Y.seen yard.old).out) }
    ensures disks { (Y.seen yard.new).disks ≡ (Y.seen yard.old).disks }
    ensures sources { (q : List ℕ) → source_faults (Y.seen yard.new).counts q ≡ source_faults (Y.seen yard.old).counts q }
    ensures elsewhere { (q : List ℕ) → (q ≡ store.now.path → ⊥) →
        (arm_faults (Y.seen yard.new).counts q ≡ arm_faults (Y.seen yard.old).counts q)
        × (good_reads (Y.seen yard.new).counts q ≡ good_reads (Y.seen yard.old).counts q)
        × (good_writes (Y.seen yard.new).counts q ≡ good_writes (Y.seen yard.old).counts q) }
    ensures contents { OnOk result ((Y.seen yard.new).contents ≡ (Y.seen yard.old).contents) }
    ensures blocks { BlocksStay store.now (Y.seen yard.old).contents (Y.seen yard.new).contents }
    ensures looks { IfOk result (λ looked. (looks : List ALook)
        × Leaves (Y.seen yard.old) (Y.seen yard.new) store.now entries.now (map Y.Arm.Pass.seen looked.passes.items) looks looked.counted
        × Says (printing printer.old.failed (S.taken out.old) (S.faults out.old)) (printing printer.new.failed (S.taken out.new) (S.faults out.new))
        (store_text store.now.id entries.now looks)
        × (looked.settled.items ≡ settled_from entries.now looks)) }
    ensures front { OnErr result (CameSoFar (Y.seen yard.old) (Y.seen yard.new) store.now entries.now
        (printing printer.old.failed (S.taken out.old) (S.faults out.old)) (printing printer.new.failed (S.taken out.new) (S.faults out.new))) }
    // After a failed write no further piece is read.
    ensures stops { printer.new.failed ≡ true → StopsReading (Y.seen yard.old) (Y.seen yard.new) store.now entries.now
        (printing printer.old.failed (S.taken out.old) (S.faults out.old)) (printing printer.new.failed (S.taken out.new) (S.faults out.new)) }
    ensures unopened { IsErrOf result NotVerified.Yard → (Rose (Y.seen yard.old).faults (Y.seen yard.new).faults)
        × (printer.new ≡ printer.old) × (out.new ≡ out.old) × ((Y.seen yard.new).counts ≡ (Y.seen yard.old).counts) }
    ensures yard_quiet { (IsErrOf result NotVerified.Yard → ⊥) → (Y.seen yard.new).faults ≡ (Y.seen yard.old).faults }
    ensures willing { IsTrue (Y.seen yard.old).willing → HasFiles (Y.seen yard.old).files store.now → IsErrOf result NotVerified.Yard → ⊥ }
    ensures output { IsErrOf result NotVerified.Output → printer.new.failed ≡ true }
{
    look_through(alloc, yard, store, entries, true, printer, out)
}

/// Opens a store's passes and an arm, verifies all its blocks, prints their findings and the line that ends them, and gives back what it opened.
#[tactic(auto, using(vd_yard::specs::Out::one_more_here, vd_yard::specs::Out::one_more_cancel))]
pub fn verify_store<Y: Yard, S: Sink>(
    alloc: Global,
    yard: &mut Y,
    store: &StorePlan,
    entries: &[Entry],
    printer: &mut Printer,
    out: &mut S,
) -> Result<Verified, NotVerified>
    requires one_each { length entries.now ≡ store.now.id.geometry.blocks }
    requires valid { AreEntries entries.now }
    ensures keeps { Keeps (Y.seen yard.old) (Y.seen yard.new) }
    ensures disks { (Y.seen yard.new).disks ≡ (Y.seen yard.old).disks }
    ensures sources { (q : List ℕ) → source_faults (Y.seen yard.new).counts q ≡ source_faults (Y.seen yard.old).counts q }
    ensures elsewhere { (q : List ℕ) → (q ≡ store.now.path → ⊥) →
        (arm_faults (Y.seen yard.new).counts q ≡ arm_faults (Y.seen yard.old).counts q)
        × (good_reads (Y.seen yard.new).counts q ≡ good_reads (Y.seen yard.old).counts q)
        × (good_writes (Y.seen yard.new).counts q ≡ good_writes (Y.seen yard.old).counts q) }
    ensures blocks { BlocksStay store.now (Y.seen yard.old).contents (Y.seen yard.new).contents }
    ensures looks { IfOk result (λ counted. (passes : List PassSeen) × (looks : List ALook)
        × ArePassesOf (Y.seen yard.old) store.now passes
        × AreLooks store.now.id entries.now passes looks
        × (counted ≡ counted_of entries.now looks)
        × CountsRose (Y.seen yard.old) (Y.seen yard.new) store.now.path looks
        × Says (printing printer.old.failed (S.taken out.old) (S.faults out.old)) (printing printer.new.failed (S.taken out.new) (S.faults out.new))
        (store_text store.now.id entries.now looks)) }
    ensures front { OnErr result (CameSoFar (Y.seen yard.old) (Y.seen yard.new) store.now entries.now
        (printing printer.old.failed (S.taken out.old) (S.faults out.old)) (printing printer.new.failed (S.taken out.new) (S.faults out.new))) }
    // After a failed write no further piece is read.
    ensures stops { printer.new.failed ≡ true → StopsReading (Y.seen yard.old) (Y.seen yard.new) store.now entries.now
        (printing printer.old.failed (S.taken out.old) (S.faults out.old)) (printing printer.new.failed (S.taken out.new) (S.faults out.new)) }
    ensures unopened { IsErrOf result NotVerified.Yard → (Rose (Y.seen yard.old).faults (Y.seen yard.new).faults)
        × (printer.new ≡ printer.old) × (out.new ≡ out.old) × ((Y.seen yard.new).counts ≡ (Y.seen yard.old).counts) }
    ensures yard_quiet { (IsErrOf result NotVerified.Yard → ⊥) → (Y.seen yard.new).faults ≡ (Y.seen yard.old).faults }
    ensures willing { IsTrue (Y.seen yard.old).willing → HasFiles (Y.seen yard.old).files store.now → IsErrOf result NotVerified.Yard → ⊥ }
    ensures output { IsErrOf result NotVerified.Output → printer.new.failed ≡ true }
{
    let looked = look_through(alloc, yard, store, entries, false, printer, out)?;
    yard.keep_passes(store, looked.passes);
    Ok(looked.counted)
}
