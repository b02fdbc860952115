// Which calls of a store's arms fail.
ghost use Rattle.std.specs.Prelude.{◌≡◌, ◌+◌, ◌-◌, ◌^◌, IfOk, Some, min, unwrap_or, ℕ};
ghost use Rattle.vd_arm.specs.MemArm.{calls_of, mem_arm_seen};
ghost use Rattle.vd_yard.specs.ArmPlan.{calls_of_number, listed, new_arm_seen};
ghost use Rattle.vd_yard.specs.Kept.{kept_at};
ghost use Rattle.vd_yard.specs.PathMap.{map_of};

use crate::path_map::PathMap;
use std::alloc::{AllocError, Global};
use vd_arm::MemArm;
use vd_outside::Text;

/// The calls of a store's arms that fail: the arm's number, the call's number, and how many first sectors a failed write changes.
#[derive(Drop)]
pub struct ArmPlan {
    failing: Vec<(u32, u64, u32)>,
}

impl ArmPlan {
    /// A plan of these calls.
    pub fn new(failing: Vec<(u32, u64, u32)>) -> ArmPlan
        ensures { listed (Some result) ≡ failing.items }
    {
        ArmPlan { failing }
    }
}

/// The calls of the arm of this number that fail.
fn calls_of_arm(
    alloc: Global,
    failing: &[(u32, u64, u32)],
    number: u32,
) -> Result<Vec<(u64, u32)>, AllocError>
    ensures { IfOk result (λ calls. calls.items ≡ calls_of_number number failing.now) }
{
    failing
        .iter()
        .filter(|call| call.0 == number)
        .map(|call| (call.1, call.2))
        .collect(alloc)
}

/// The arm of this number at a path with these listed calls.
fn new_arm(alloc: Global, failing: &[(u32, u64, u32)], number: u32) -> Result<MemArm, AllocError>
    ensures seen { IfOk result (λ arm. mem_arm_seen arm ≡ new_arm_seen failing.now) }
    ensures calls { IfOk result (λ arm. calls_of arm ≡ record { failing = calls_of_number number failing.now; made = 0 }) }
{
    let calls = calls_of_arm(alloc, failing, number)?;
    if failing.is_empty() {
        Ok(MemArm::new(calls))
    } else {
        Ok(MemArm::unsure(calls))
    }
}

/// The arm that is opened next at a path.
pub fn next_arm(
    alloc: Global,
    plans: &PathMap<ArmPlan>,
    opened: &PathMap<u32>,
    path: &Text,
) -> Result<MemArm, AllocError>
    ensures seen { IfOk result (λ arm. mem_arm_seen arm ≡ new_arm_seen (listed (kept_at (map_of plans.now) path.now))) }
    ensures calls { IfOk result (λ arm. calls_of arm ≡ record { failing = calls_of_number (unwrap_or (kept_at (map_of opened.now) path.now) 0) (listed (kept_at (map_of plans.now) path.now)); made = 0 }) }
{
    let number = match opened.get(path.as_bytes()) {
        Some(number) => *number,
        None => 0,
    };
    match plans.get(path.as_bytes()) {
        Some(plan) => new_arm(alloc, &plan.failing, number),
        None => new_arm(alloc, &[], number),
    }
}

/// One arm more was opened at a path.
pub fn count_arm(opened: &mut PathMap<u32>, path: &Text)
    ensures { (count : ℕ) → kept_at (map_of opened.old) path.now ≡ Some count → kept_at (map_of opened.new) path.now ≡ Some (min (count + 1) (2 ^ 32 - 1)) }
{
    if let Some(number) = opened.get(path.as_bytes()) {
        let next = number.saturating_add(1);
        opened.replace(path.as_bytes(), next);
    }
}
