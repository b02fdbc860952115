// Disks that go back to the yard as they were taken.
ghost use Rattle.std.specs.Prelude.{◌≡◌, ◌≤◌, ℕ, List, IsTrue, length, map, take};
ghost use Rattle.vd_yard.specs.Kept.{kept_at};
ghost use Rattle.vd_yard.specs.Out.{Out};
ghost use Rattle.plan_journals.specs.Growth.{IsNoneOf, LeavesRest};
ghost use Rattle.plan_journals.specs.Open.{JournalsAreOut, out_besides};
ghost use Rattle.plan_reopened.specs.Kept.{AreStillKept, keep_all};

use plan_types::StorePlan;
use vd_yard::Yard;

/// Gives the disks of the journals of the first of the stores back to the yard, in order.
pub fn give_back<Y: Yard>(yard: &mut Y, stores: &[StorePlan], mut disks: Vec<Y::Disk>)
    requires few { length disks.items ≤ length stores.now }
    requires out { JournalsAreOut (Y.seen yard.old).out (take (length disks.items) stores.now) }
    ensures leaves { LeavesRest (Y.seen yard.old) (Y.seen yard.new) }
    ensures faults { (Y.seen yard.new).faults ≡ (Y.seen yard.old).faults }
    ensures back { (before : Out) → (Y.seen yard.old).out ≡ out_besides before (take (length disks.items) stores.now) → (Y.seen yard.new).out ≡ before }
    ensures disks { (Y.seen yard.new).disks ≡ keep_all (Y.seen yard.old).tells.keeps_disks (Y.seen yard.old).disks stores.now (map Y.Disk.seen disks.items) }
    ensures others { (path : List ℕ) → IsNoneOf path (take (length disks.items) stores.now) → kept_at (Y.seen yard.new).disks path ≡ kept_at (Y.seen yard.old).disks path }
    // Where they are as the yard keeps them, each path keeps what it had.
    ensures same { (IsTrue (Y.seen yard.old).tells.keeps_disks → AreStillKept (Y.seen yard.old).disks stores.now (map Y.Disk.seen disks.items))
        → (path : List ℕ) → kept_at (Y.seen yard.new).disks path ≡ kept_at (Y.seen yard.old).disks path }
    ensures none { length disks.items ≡ 0 → Y.seen yard.new ≡ Y.seen yard.old }
{
    if disks.len() == 0 {
        return;
    }
    let [store, ..] = stores else {
        return;
    };
    // There are few disks, so that it doesn't matter that the others move.
    let disk = disks.remove(0);
    yard.keep_disk(&store.journal, disk);
    give_back(yard, &stores[1..], disks);
}
