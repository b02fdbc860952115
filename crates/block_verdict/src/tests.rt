// Verdicts of blocks whose bytes are known from elsewhere, and what they leave.
ghost use Rattle.std.specs.Prelude.{◌≡◌, ◌≢◌, ◌<◌, ◌≤◌};
ghost use Rattle.key_state.specs.Entries.{IsEntry};

use crate::{Verdict, settle, verdict, verdict_laws};
use key_state::Entry;
use sector_stamp::{Part, stamp_block};
use vd_base::{BlockNo, Geometry, Key, StoreId, StoreName};

#[test]
fn blocks_and_their_entries(rt: HostRuntime) {
    verdict_laws();
    let store = StoreId {
        name: StoreName::read(b"sd1").expect(&rt, "a name"),
        geometry: Geometry::new(16, 4096).expect(&rt, "a geometry"),
    };
    let one = Key::of(1).expect(&rt, "a key");
    let two = Key::of(2).expect(&rt, "a key");
    let three = Key::of(3).expect(&rt, "a key");
    let four = Key::of(4).expect(&rt, "a key");
    let last = Key::of(126).expect(&rt, "a key");

    let clean = stamped(&store, BlockNo(0), three);
    let stale = patched(&clean, 1024, 1536, &stamped(&store, BlockNo(0), two));
    let mixed = patched(
        &stamped(&store, BlockNo(5), three),
        0,
        2048,
        &stamped(&store, BlockNo(5), four),
    );
    let wrapped = stamped(&store, BlockNo(5), one);
    let unstamped = [170; 4096];
    let never = Key::never();
    let rows = [
        judged(&store, BlockNo(0), Entry::Settled(three), &clean),
        judged(&store, BlockNo(0), Entry::Settled(three), &stale),
        judged(
            &store,
            BlockNo(5),
            Entry::Pending {
                old: three,
                new: four,
            },
            &mixed,
        ),
        judged(
            &store,
            BlockNo(5),
            Entry::Pending {
                old: last,
                new: one,
            },
            &wrapped,
        ),
        judged(
            &store,
            BlockNo(5),
            Entry::Pending {
                old: never,
                new: one,
            },
            &unstamped,
        ),
    ];
    let wanted = [
        (Verdict::Clean, Entry::Settled(three)),
        (
            Verdict::Corrupt {
                sector: 2,
                part: Part::Key,
            },
            Entry::Bad,
        ),
        (
            Verdict::Mixed,
            Entry::Pending {
                old: three,
                new: four,
            },
        ),
        (Verdict::New, Entry::Settled(one)),
        (Verdict::Old, Entry::Settled(never)),
    ];
    for i in 0..5usize {
        assert_eq!(rt; rows[i], wanted[i], "row {i}");
    }
}

/// A block as a write with this key leaves it.
fn stamped(store: &StoreId, block: BlockNo, key: Key) -> [u8; 4096]
    requires block { block.0 < store.now.geometry.blocks }
    requires written { key ≢ 0 }
    requires size { store.now.geometry.block_size ≡ 4096 }
{
    let mut bytes = [0; 4096];
    stamp_block(store, block, key, &mut bytes);
    bytes
}

/// These bytes with a range of other ones.
fn patched(bytes: &[u8; 4096], start: usize, end: usize, other: &[u8; 4096]) -> [u8; 4096]
    requires order { start ≤ end }
    requires room { end ≤ 4096 }
{
    let mut patched = *bytes;
    patched[start..end].copy_from_slice(&other[start..end]);
    patched
}

/// The verdict, and the entry that it leaves.
fn judged(store: &StoreId, block: BlockNo, entry: Entry, bytes: &[u8; 4096]) -> (Verdict, Entry)
    requires block { block.0 < store.now.geometry.blocks }
    requires valid { IsEntry entry }
    requires live { entry ≢ Entry.Bad }
    requires size { store.now.geometry.block_size ≡ 4096 }
{
    let kept = entry;
    let found = verdict(store, block, kept, bytes);
    let left = settle(entry, found);
    (found, left)
}
