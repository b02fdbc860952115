// Passes that go back to the yard.
ghost use Rattle.std.specs.Prelude.{◌≡◌, [], length, map};
ghost use Rattle.vd_yard.specs.Out.{Out};
ghost use Rattle.still_plan.specs.Frame.{AreApart, StoresStay};
ghost use Rattle.plan_verified.specs.Back.{AreTheirs, StoresBack};
ghost use Rattle.plan_verified.specs.Stores.{store_seen, stores_out};

use crate::VerifiedStore;
use plan_types::StorePlan;
use vd_arm::Arm;
use vd_yard::Yard;

/// The passes of these stores, one `VerifiedStore` for each in their order, go back to the yard, from the last store on.
pub fn give_back<Y: Yard>(
    yard: &mut Y,
    stores: &[StorePlan],
    verified: &mut Vec<VerifiedStore<<Y::Arm as Arm>::Pass>>,
)
    requires one_each { length verified.old.items ≡ length stores.now }
    requires out { (before : Out) × ((Y.seen yard.old).out ≡ stores_out stores.now before) }
    ensures none { verified.new.items ≡ [] }
    ensures back { StoresBack stores.now (map (store_seen Y.Arm.Pass.seen) verified.old.items) (Y.seen yard.old) (Y.seen yard.new) }
    // Passes that come back as they were opened leave each block as it was.
    ensures same { AreApart stores.now → AreTheirs (Y.seen yard.old) stores.now (map (store_seen Y.Arm.Pass.seen) verified.old.items) →
        StoresStay stores.now (Y.seen yard.old).contents (Y.seen yard.new).contents }
{
    let Some(last) = verified.pop() else { return };
    let many = verified.len();
    yard.keep_passes(&stores[many], last.passes);
    give_back(yard, &stores[..many], verified);
}
