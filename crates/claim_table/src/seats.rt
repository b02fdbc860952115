// Seats are cut in two and joined.
ghost use Rattle.std.specs.Prelude.{◌≡◌, ◌≤◌};
ghost use Rattle.claim_table.specs.Views.{halved, other_half, joined};
ghost use Rattle.claim_table.specs.Seats.{view_of, IsSeatOf, IsIdle};

use crate::rule::{Both, Halve};
use crate::slot::Slot;
use crate::table::{ClaimSeat, ClaimTable};
use atomic_table::Badge;
use key_state::Book;
use std::mem;
use vd_arm::Pass;

impl<P: Pass, B: Book> ClaimTable<P, B> {
    /// Gives half of the seat's parts, rounded down, to a new seat, which holds no block and has empty lists. In the core's words it is
    /// no event. The seat needs at least 2 parts.
    pub fn split(&self, seat: &mut ClaimSeat) -> ClaimSeat
        requires of { IsSeatOf self.now seat.old }
        requires parts { 2 ≤ (view_of seat.old).parts }
        ensures of { IsSeatOf self.now seat.new }
        ensures of_other { IsIdle self.now result }
        ensures view { view_of seat.new ≡ halved (view_of seat.old) }
        ensures other { view_of result ≡ other_half (view_of seat.old) }
    {
        let mut place = mem::replace(&mut seat.badge, Badge::blank()).into_seat::<Slot<P, B>>();
        let other = self.table.shared.split_seat::<Halve>(&mut place);
        seat.badge = place.into_badge();
        ClaimSeat {
            badge: other.into_badge(),
        }
    }

    /// Adds the parts and lists of a seat that holds no block and doesn't have the book to another, and spends it. In the core's words
    /// it is no event. The seat is shut where either was.
    pub fn join(&self, into: &mut ClaimSeat, other: ClaimSeat)
        requires into { IsSeatOf self.now into.old }
        requires other { IsIdle self.now other }
        ensures of { IsSeatOf self.now into.new }
        ensures joined { view_of into.new ≡ joined (view_of into.old) (view_of other) }
    {
        let ClaimSeat { badge } = other;
        let theirs = badge.into_seat::<Slot<P, B>>();
        let mut place = mem::replace(&mut into.badge, Badge::blank()).into_seat::<Slot<P, B>>();
        self.table.shared.join_seat::<Both>(&mut place, theirs);
        into.badge = place.into_badge();
    }
}
