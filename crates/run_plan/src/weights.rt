// The weights of a run's workloads.
ghost use Rattle.std.specs.Prelude.{◌≡◌, ◌<◌, ◌≤◌, ◌+◌, ◌==◌, ◌^◌, nat_le, if◌then◌else◌, IfOk, length};
ghost use Rattle.run_plan.specs.Outcomes.{Gives};
ghost use Rattle.run_plan.specs.Weights.{given, open_many, shared_out, weights_at};

use crate::fault::{PlanFault, PlanKind, PlanRefused};
use std::alloc::{AllocError, Global};
use vd_list::Items;

/// The sum of the weights that are given.
fn given(skews: &[Option<u32>]) -> u64
    requires { length skews.now ≤ 64 }
    ensures value { result ≡ given skews.now }
    ensures small { result < 2 ^ 63 }
{
    let mut sum = 0;
    for skew in skews {
        if let Some(skew) = skew {
            sum += *skew as u64;
        }
    }
    sum
}

/// How many aren't given.
fn open_many(skews: &[Option<u32>]) -> u64
    ensures value { result ≡ open_many skews.now }
    ensures few { result ≤ length skews.now }
{
    let mut many = 0;
    for skew in skews {
        if skew.is_none() {
            many += 1;
        }
    }
    many
}

/// The weights that are given, and for each other one `each`, the first ones one more.
fn shared_out(
    alloc: Global,
    each: u32,
    more: u64,
    skews: &[Option<u32>],
) -> Result<Vec<u32>, AllocError>
    requires { each ≤ 100 }
    ensures { IfOk result (λ weights. weights.items ≡ shared_out each more skews.now) }
{
    let mut ones = more;
    let mut weights = Vec::new(alloc);
    for skew in skews {
        let weight = match skew {
            Some(skew) => *skew,
            None => {
                if ones > 0 {
                    ones -= 1;
                    each + 1
                } else {
                    each
                }
            }
        };
        weights.push(weight)?;
    }
    Ok(weights)
}

fn have_weights(given: u64, left: u64) -> bool
    requires given { given < 2 ^ 63 }
    requires few { left ≤ 64 }
    ensures { result ≡ (if left == 0 then given == 100 else nat_le (given + left) 100) }
{
    if left == 0 {
        given == 100
    } else {
        given + left <= 100
    }
}

/// The weights of workloads, which add up to 100 with each at least 1, or that there are none.
pub(crate) fn weights_at(
    alloc: Global,
    line: u32,
    skews: &[Option<u32>],
) -> Result<Items<u32>, PlanRefused>
    requires { length skews.now ≤ 64 }
    ensures { Gives result (weights_at line skews.now) }
{
    let given = given(skews);
    let left = open_many(skews);
    if !have_weights(given, left) {
        return Err(PlanRefused::Fault(PlanFault {
            line,
            kind: PlanKind::SkewSum,
        }));
    }
    if left == 0 {
        return Ok(Items::of(shared_out(alloc, 0, 0, skews)?));
    }
    let rest = 100 - given;
    Ok(Items::of(shared_out(alloc, (rest / left) as u32, rest % left, skews)?))
}
