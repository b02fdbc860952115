// The area of the epoch before.
ghost use Rattle.std.specs.Prelude.{◌≡◌, ◌↔◌, ◌≤◌, IsTrue, IfOk, length, if◌then◌else◌};
ghost use Rattle.vd_disk.specs.Disk.{WhenTold};
ghost use Rattle.journal_layout.specs.Recovery.{blocks_of, gate_of_live};
ghost use Rattle.journal_recover.specs.Causes.{FailsOnly};
ghost use Rattle.journal_recover.specs.Gates.{IsValid, HasValidGate};
ghost use Rattle.journal_list.specs.Lists.{IsBefore, FindsBefore, IsHandover, IsOutside, OutsideOnly, HasBlocks, differs, differing};

use journal_layout::Live;
use journal_recover::{RecoverFault, gate_at, live_of, recover_area};
use key_state::Entry;
use std::alloc::Global;
use vd_disk::Disk;

/// The gate of the other area, where it is of the epoch before and of the same store.
fn gate_before<D: Disk>(disk: &mut D, live: &Live) -> Result<Option<Live>, RecoverFault>
    ensures gives { IfOk result (λ found. WhenTold (D.seen disk.old).told (λ sectors. FindsBefore sectors live.now found)) }
    ensures valid { IfOk result HasValidGate }
    ensures blocks { IfOk result (HasBlocks live.now) }
    ensures outside { OutsideOnly result }
    ensures same { D.seen disk.new ≡ record (D.seen disk.old) { faults = (D.seen disk.new).faults } }
    ensures cause { FailsOnly (D.seen disk.old).faults (D.seen disk.new).faults result RecoverFault.Failed }
    ensures sure { IsTrue (D.seen disk.old).sure → (D.seen disk.new).faults ≡ (D.seen disk.old).faults }
{
    let Some(gate) = gate_at(disk, 1 - (live.epoch % 2) as u8)? else {
        return Ok(None);
    };
    if gate.epoch + 1 == live.epoch && gate.id.is_same(&live.id) {
        Ok(Some(live_of(gate)))
    } else {
        Ok(None)
    }
}

/// Whether two entries differ.
fn differ(one: Entry, other: Entry) -> bool
    ensures { (if result then 1 else 0) ≡ differs (one, other) }
{
    match one {
        Entry::Settled(key) => match other {
            Entry::Settled(there) => key.get() != there.get(),
            Entry::Pending { .. } => true,
            Entry::Bad => true,
        },
        Entry::Pending { old, new } => match other {
            Entry::Settled(_) => true,
            Entry::Pending {
                old: before,
                new: after,
            } => !(old.get() == before.get() && new.get() == after.get()),
            Entry::Bad => true,
        },
        Entry::Bad => match other {
            Entry::Settled(_) => true,
            Entry::Pending { .. } => true,
            Entry::Bad => false,
        },
    }
}

/// How many blocks have another entry in the one list than in the other.
fn count_differing(base: &[Entry], there: &[Entry]) -> u32
    requires few { length base.now ≤ 16777216 }
    requires as_many { length there.now ≡ length base.now }
    ensures { result ≡ differing base.now there.now }
{
    let mut count = 0;
    for i in 0..base.len() {
        if differ(base[i], there[i]) {
            count += 1;
        }
    }
    count
}

/// Whether a fault says nothing of the journal.
fn is_outside(why: &RecoverFault) -> bool
    ensures { IsTrue result ↔ IsOutside why.now }
{
    match why {
        RecoverFault::NoJournal => false,
        RecoverFault::Mismatch { .. } => false,
        RecoverFault::Damaged { .. } => false,
        RecoverFault::Failed => true,
        RecoverFault::NoMemory => true,
    }
}

/// How many blocks have another entry in the area of the epoch before than in the live map, where that area is whole.
pub fn handover<D: Disk>(
    alloc: Global,
    disk: &mut D,
    live: &Live,
    base: &[Entry],
) -> Result<Option<u32>, RecoverFault>
    requires limits { IsValid (gate_of_live live.now) }
    requires one_each { length base.now ≡ blocks_of live.now }
    ensures gives { IfOk result (λ blocks. WhenTold (D.seen disk.old).told (λ sectors. IsHandover sectors live.now base.now blocks)) }
    ensures outside { OutsideOnly result }
    ensures same { D.seen disk.new ≡ record (D.seen disk.old) { faults = (D.seen disk.new).faults } }
    ensures cause { FailsOnly (D.seen disk.old).faults (D.seen disk.new).faults result RecoverFault.Failed }
    ensures sure { IsTrue (D.seen disk.old).sure → (D.seen disk.new).faults ≡ (D.seen disk.old).faults }
{
    let Some(before) = gate_before(disk, live)? else {
        return Ok(None);
    };
    match recover_area(alloc, disk, &before) {
        Ok(found) => Ok(Some(count_differing(base, &found.entries))),
        Err(why) => { if is_outside(&why) { Err(why) } else { Ok(None) } }
    }
}
