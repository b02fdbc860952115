// The word and its seats.
ghost use Rattle.std.specs.Prelude.{◌≡◌, ◌≤◌, []};

use crate::rule::{Noted, Rule, Start};
use atomic_table::{Seat, Table};
use std::alloc::Global;

/// One worker's way to the word: one part of it. It has no bytes.
#[derive(Drop)]
pub struct ErrorSeat {
    pub(crate) seat: Seat<(), Noted>,
    ghost one: { seat.me.0.parts ≡ 1 },
    ghost rests: { seat.me.1 ≡ [] },
}

/// A count of errors that many workers add to.
#[derive(Drop)]
pub struct ErrorWord {
    pub(crate) table: Table<(), Noted, Start, Rule, Global>,
    ghost one: { (table.shared.table_id.words ≡ 1) × (table.shared.table_id.slots ≡ 0) },
    ghost some: { 1 ≤ table.shared.key.seats },
}
