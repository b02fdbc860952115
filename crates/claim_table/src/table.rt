// A table and its seats.
ghost use Rattle.std.specs.Prelude.{◌≡◌, ◌+◌, ◌*◌, ◌/◌, ◌≤◌, ◌<◌, [], length};
ghost use Rattle.std.specs.Vec.{vec_capacity};
ghost use Rattle.claim_table.specs.Firsts.{first_of, flaws};

use crate::rule::Rule;
use crate::slot::{Key, Slot};
use crate::view::View;
use atomic_table::{Badge, Seat, Table};
use key_state::Book;
use std::alloc::Global;
use vd_arm::Pass;

/// One worker's way to the table. It has no bytes. What contracts see of it is its view.
#[derive(Drop)]
pub struct ClaimSeat {
    pub(crate) badge: Badge<View>,
    ghost one: { length badge.views ≡ 1 },
    ghost rests: { (first_of badge.views).hand ≡ 0 },
    ghost sound: { flaws (first_of badge.views) ≡ 0 },
}

/// Who holds which block of a store, with the passes of the blocks that nobody holds, and the book while nobody has it.
#[derive(Drop)]
pub struct ClaimTable<P: Pass, B: Book> {
    pub(crate) table: Table<Slot<P, B>, View, Key<P, B>, Rule, Global>,
    pub(crate) blocks: u32,
    // The list in which the passes came, empty, so that closing takes no memory.
    pub(crate) room: Vec<P>,
    ghost words: { table.shared.table_id.words ≡ (blocks + 3) / 4 + 1 },
    ghost slots: { table.shared.table_id.slots ≡ blocks + 1 },
    ghost store: { table.shared.key.store.geometry.blocks ≡ blocks },
    ghost seats: { 1 ≤ table.shared.key.seats },
    ghost roomy: { (room.items ≡ []) × (blocks ≤ vec_capacity room) },
}

/// A seat while a step is made.
pub(crate) type Place<P, B> = Seat<Slot<P, B>, View>;
