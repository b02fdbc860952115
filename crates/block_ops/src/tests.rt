// A run in memory that is read and judged.
ghost use Rattle.std.specs.Prelude.{◌≡◌, ◌≢◌, ◌<◌, ◌∷◌, [], map};
ghost use Rattle.key_state.specs.declared.entry.Entry.TheVariants.{Settled, Pending};
ghost use Rattle.block_ops.specs.Transfers.{ArePassesOf};

use crate::read_block;
use block_verdict::Verdict;
use claim_table::Run;
use key_state::Entry;
use sector_stamp::stamp_block;
use std::alloc::Global;
use std::process::Abort;
use vd_arm::{MemArm, MemPass, Pass};
use vd_base::{BlockNo, Geometry, Key, StoreId, StoreName};

/// The pass of a block of 512 bytes that is stamped with a key.
fn stamped(rt: &impl Abort, alloc: Global, store: &StoreId, block: BlockNo, key: Key) -> MemPass
    requires block { block.0 < store.now.geometry.blocks }
    requires written { key ≢ 0 }
    requires size { store.now.geometry.block_size ≡ 512 }
    ensures block { (⟦<MemPass as Pass>⟧.seen result).block ≡ block.0 }
    ensures size { (⟦<MemPass as Pass>⟧.seen result).size ≡ 512 }
{
    let mut bytes = [0; 512];
    stamp_block(store, block, key, &mut bytes);
    MemPass::new(block, bytes.to_vec(alloc).expect(rt, "memory"))
}

/// Blocks 3 and 4, stamped with keys 1 and 2; the second one's write was begun.
fn two_blocks(rt: &impl Abort, alloc: Global, store: &StoreId) -> Run<MemPass>
    requires { store.now.geometry ≡ record { blocks = 8; block_size = 512 } }
    ensures first { result.first.0 ≡ 3 }
    ensures entries { result.entries.items ≡ Settled 1 ∷ Pending 1 2 ∷ [] }
    ensures passes { ArePassesOf store.now 3 (map ⟦<MemPass as Pass>⟧.seen result.passes.items) }
{
    let one = Key::of(1).expect(rt, "a key");
    let two = Key::of(2).expect(rt, "a key");
    let third = stamped(rt, alloc, store, BlockNo(3), one);
    let fourth = stamped(rt, alloc, store, BlockNo(4), two);
    let Run {
        first: _,
        mut entries,
        mut passes,
    } = Run::new(alloc).expect(rt, "memory");
    entries.push_reserved(Entry::Settled(one));
    entries.push_reserved(Entry::Pending { old: one, new: two });
    passes.push_reserved(third);
    passes.push_reserved(fourth);
    Run {
        first: BlockNo(3),
        entries,
        passes,
    }
}

#[test]
fn a_run_is_read_and_judged(rt: HostRuntime) {
    let alloc = rt.alloc();
    let store = StoreId {
        name: StoreName::read(b"sd1").expect(&rt, "a name"),
        geometry: Geometry::new(8, 512).expect(&rt, "a geometry"),
    };
    let mut held = two_blocks(&rt, alloc, &store);
    let mut arm = MemArm::new(Vec::from_slice(alloc, &[(1, 0)]).expect(&rt, "memory"));
    let mut buf = [0; 1024];
    let mut verdicts = [Verdict::Mixed; 64];
    assert!(rt; read_block(&mut arm, &store, &mut held, &mut buf, &mut verdicts).is_ok());
    assert_eq!(rt;
        (verdicts[0], verdicts[1], verdicts[2]),
        (Verdict::Clean, Verdict::New, Verdict::Mixed)
    );
    // The second call fails, and sets no verdict.
    verdicts[1] = Verdict::Old;
    assert!(rt; read_block(&mut arm, &store, &mut held, &mut buf, &mut verdicts).is_err());
    assert_eq!(rt; (verdicts[0], verdicts[1]), (Verdict::Clean, Verdict::Old));
    assert_eq!(rt; (arm.faults(), arm.good_reads()), (1, 2));
}
