// The sizes of files.
ghost use Rattle.std.specs.Prelude.{◌≡◌, ◌<◌, ◌≤◌, ◌==◌, ◌*◌, ◌/◌, ◌^◌, All, IfOk, length, take};
ghost use Rattle.std.specs.List.{list_any, sum_by};
ghost use Rattle.anchor_tree.specs.Limits.{held};
ghost use Rattle.anchor_tree.specs.Shape.{hundred_of, percents_of, size_at};

use std::alloc::{AllocError, Global};

/// Whether some size is 0.
pub(crate) fn has_zero(sizes: &[(u64, u32)]) -> bool
    ensures { result ≡ list_any (λ size. size.0 == 0) sizes.now }
{
    sizes.iter().any(|size| size.0 == 0)
}

/// The percentages, added up and held at the greatest u64.
pub(crate) fn percents(sizes: &[(u64, u32)]) -> u64
    ensures { result ≡ held (percents_of sizes.now) }
{
    let mut sum: u64 = 0;
    for size in sizes {
        sum = sum.saturating_add(u64::from(size.1));
    }
    sum
}

/// The first size with which the percentages, added from the first on, are above `n`.
fn size_at(sizes: &[(u64, u32)], n: u64) -> u64
    requires above { n < percents_of sizes.now }
    requires fits { percents_of sizes.now ≤ 100 }
    requires some { All (λ size. 0 < size.0) sizes.now }
    ensures value { result ≡ size_at sizes.now n }
    ensures some { 0 < result }
{
    let mut percents = 0;
    for size in sizes {
        percents += u64::from(size.1);
        if n < percents {
            return size.0;
        }
    }
    unreachable!()
}

/// The sizes of the first hundred files.
pub(crate) fn hundred(alloc: Global, sizes: &[(u64, u32)]) -> Result<Vec<u64>, AllocError>
    requires whole { percents_of sizes.now ≡ 100 }
    requires some { All (λ size. 0 < size.0) sizes.now }
    ensures value { IfOk result (λ hundred. hundred.items ≡ hundred_of sizes.now) }
    ensures some { IfOk result (λ hundred. All (λ size. 0 < size) hundred.items) }
{
    let mut hundred = Vec::new(alloc);
    for place in 0..100 {
        hundred.push(size_at(sizes, place))?;
    }
    Ok(hundred)
}
