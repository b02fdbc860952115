// Recovering the journal of one store.
ghost use Rattle.std.specs.Prelude.{◌≡◌, ◌≤◌, ◌<◌, ◌-◌, ◌^◌, IfOk, OnOk, IsErrOf, Some, None, IsTrue, List, ℕ, length};
ghost use Rattle.journal_recover.specs.declared.fault.RecoverFault.{RecoverFault as AFault};
ghost use Rattle.vd_outside.specs.Causes.{Rose};
ghost use Rattle.vd_disk.specs.Disk.{DiskSeen, WhenTold};
ghost use Rattle.vd_yard.specs.Out.{AtDisk};
ghost use Rattle.vd_yard.specs.Kept.{kept_at};
ghost use Rattle.vd_yard.specs.Yard.{is_there};
ghost use Rattle.key_state.specs.Entries.{AreEntries};
ghost use Rattle.journal_recover.specs.Answers.{IsUsable};
ghost use Rattle.still_store.specs.Frame.{Keeps, JournalsStay};

use journal_layout::gives_once;
use journal_recover::{RecoverFault, Recovered, recovered};
use plan_types::StorePlan;
use std::alloc::Global;
use vd_yard::{Yard, YardFault};

/// Why a store's journal isn't recovered.
#[derive(Clone, Copy, Debug, PartialEq, Eq, Drop)]
pub enum NotRecovered {
    /// The yard can't open it.
    Yard,
    /// Recovery refuses it, or a read of it failed, or memory ran out.
    Refused(RecoverFault),
}

ghost use Rattle.still_store.specs.Recovery.{AnswersFor};
ghost use Rattle.still_store.specs.Recovery.{JournalRefused};

/// Opens a store's journal, recovers it, and gives it back.
#[tactic(auto, using(vd_yard::specs::Out::one_more_here, vd_yard::specs::Out::one_more_cancel, vd_yard::specs::Kept::keep_at_here, crate::proofs::Frames::journals_stay, crate::proofs::Frames::journals_same))]
pub fn recover_store<Y: Yard>(
    alloc: Global,
    yard: &mut Y,
    store: &StorePlan,
) -> Result<Recovered, NotRecovered>
    ensures keeps { Keeps (Y.seen yard.old) (Y.seen yard.new) }
    ensures counts { (Y.seen yard.new).counts ≡ (Y.seen yard.old).counts }
    ensures contents { (Y.seen yard.new).contents ≡ (Y.seen yard.old).contents }
    ensures journals { JournalsStay (Y.seen yard.old).disks (Y.seen yard.new).disks }
    ensures others { (path : List ℕ) → (path ≡ store.now.journal → ⊥) → kept_at (Y.seen yard.new).disks path ≡ kept_at (Y.seen yard.old).disks path }
    ensures recovers { (disk : DiskSeen) → kept_at (Y.seen yard.old).disks store.now.journal ≡ Some disk →
        WhenTold disk.told (λ sectors. AnswersFor sectors store.now.id result) }
    ensures absent { IsTrue (Y.seen yard.old).tells.keeps_disks → kept_at (Y.seen yard.old).disks store.now.journal ≡ None → OnOk result ⊥ }
    ensures absent_refused { IsTrue (Y.seen yard.old).tells.keeps_disks → kept_at (Y.seen yard.old).disks store.now.journal ≡ None →
        (fault : AFault) → IsErrOf result (NotRecovered.Refused fault) → fault ≡ RecoverFault.NoMemory }
    ensures refused { JournalRefused (Y.seen yard.old) store.now → OnOk result ⊥ }
    ensures id { IfOk result (λ found. found.live.id ≡ store.now.id) }
    ensures usable { IfOk result (λ found. (sectors : ℕ) × IsUsable store.now.id sectors found) }
    ensures one_each { IfOk result (λ found. length found.entries.items ≡ store.now.id.geometry.blocks) }
    ensures valid { IfOk result (λ found. AreEntries found.entries.items) }
    ensures yard_fault { IsErrOf result NotRecovered.Yard → Rose (Y.seen yard.old).faults (Y.seen yard.new).faults }
    ensures yard_quiet { (IsErrOf result NotRecovered.Yard → ⊥) → (Y.seen yard.new).faults ≡ (Y.seen yard.old).faults }
    ensures willing { IsTrue (Y.seen yard.old).willing → IsTrue (is_there (Y.seen yard.old).files AtDisk store.now.journal) →
        IsErrOf result NotRecovered.Yard → ⊥ }
    ensures disk_fault { IsErrOf result (NotRecovered.Refused RecoverFault.Failed) → IsTrue (Y.seen yard.old).tells.keeps_disks →
        (disk now : DiskSeen) → kept_at (Y.seen yard.old).disks store.now.journal ≡ Some disk →
        kept_at (Y.seen yard.new).disks store.now.journal ≡ Some now → Rose disk.faults now.faults }
    ensures disk_quiet { (IsErrOf result (NotRecovered.Refused RecoverFault.Failed) → ⊥) → (path : List ℕ) →
        kept_at (Y.seen yard.new).disks path ≡ kept_at (Y.seen yard.old).disks path }
    ensures sure { (disk : DiskSeen) → kept_at (Y.seen yard.old).disks store.now.journal ≡ Some disk → IsTrue disk.sure →
        disk.faults < 2 ^ 64 - 1 → IsErrOf result (NotRecovered.Refused RecoverFault.Failed) → ⊥ }
{
    gives_once();
    let mut disk = match yard.disk(&store.journal) {
        Ok(disk) => disk,
        Err(YardFault::Failed) => return Err(NotRecovered::Yard),
        Err(YardFault::NoMemory) => return Err(NotRecovered::Refused(RecoverFault::NoMemory)),
    };
    let answer = recovered(alloc, &mut disk, &store.id);
    yard.keep_disk(&store.journal, disk);
    match answer {
        Ok(found) => Ok(found),
        Err(fault) => Err(NotRecovered::Refused(fault)),
    }
}
