// Blocks of files whose sizes repeat after a hundred.
ghost use Rattle.std.specs.Prelude.{◌≡◌, ◌+◌, ◌*◌, ◌/◌, ◌<◌, ◌≤◌, ◌^◌, length, slice_index, take};
ghost use Rattle.std.specs.List.{sum_by};
ghost use Rattle.anchor_tree.specs.Blocks.{blocks_before, blocks_in};

/// The whole blocks of files of these sizes, added up.
fn blocks_in(sizes: &[u64], block_size: u64) -> u128
    requires few { length sizes.now ≤ 100 }
    requires size { 0 < block_size }
    ensures value { result ≡ sum_by (λ size. size / block_size) sizes.now }
    ensures bound { result ≤ 100 * 2 ^ 64 }
{
    let mut blocks: u128 = 0;
    for size in sizes {
        blocks += u128::from(*size / block_size);
    }
    blocks
}

/// The blocks of the files before one.
pub(crate) fn blocks_before(hundred: &[u64], block_size: u64, file: u32) -> u128
    requires hundred { length hundred.now ≡ 100 }
    requires size { 0 < block_size }
    ensures value { result ≡ blocks_before hundred.now block_size file }
{
    let rest = (file % 100) as usize;
    u128::from(file / 100) * blocks_in(hundred, block_size)
        + blocks_in(&hundred[..rest], block_size)
}

/// The file among those of these sizes in which a block lies, and the block's place in it.
fn place_in(sizes: &[u64], block_size: u64, block: u128) -> (u32, u64)
    requires few { length sizes.now ≤ 100 }
    requires size { 0 < block_size }
    requires fits { sum_by (λ size. size / block_size) sizes.now ≤ 100 * 2 ^ 64 }
    requires block { block < sum_by (λ size. size / block_size) sizes.now }
    ensures file { result.0 < length sizes.now }
    ensures place { result.1 < slice_index sizes.now result.0 / block_size }
    ensures block { block ≡ sum_by (λ size. size / block_size) (take result.0 sizes.now) + result.1 }
{
    let mut before: u128 = 0;
    for (file, size) in sizes.iter().enumerate() {
        let more = u128::from(*size / block_size);
        if block < before + more {
            return (file as u32, (block - before) as u64);
        }
        before += more;
    }
    unreachable!()
}

/// The file in which a block lies, and the block's place in it.
pub(crate) fn place_of(hundred: &[u64], block_size: u64, block: u32) -> (u32, u64)
    requires hundred { length hundred.now ≡ 100 }
    requires size { 0 < block_size }
    requires block { block < 16777216 }
    requires some { 0 < sum_by (λ size. size / block_size) hundred.now }
    ensures place { result.1 < blocks_in hundred.now block_size result.0 }
    ensures block { block ≡ blocks_before hundred.now block_size result.0 + result.1 }
{
    let many = blocks_in(hundred, block_size);
    let rounds = (u128::from(block) / many) as u32;
    let (file, place) = place_in(hundred, block_size, u128::from(block) % many);
    (rounds * 100 + file, place)
}
