// The book is taken and given back.
ghost use Rattle.std.specs.Prelude.{◌≡◌, ◌↔◌, true, None, IsTrue};
ghost use Rattle.key_state.specs.Entries.{IsPending};
ghost use Rattle.claim_table.specs.Sums.{Each};
ghost use Rattle.claim_table.specs.Views.{blocks_of, now_at, synced_at, with_loan, given};
ghost use Rattle.claim_table.specs.Books.{Lends};
ghost use Rattle.claim_table.specs.Seats.{view_of, IsSeatOf, AtRest, Brings};

use crate::rule::{Borrow, FetchBook, Park, Return};
use crate::slot::Slot;
use crate::table::{ClaimSeat, ClaimTable, Place};
use atomic_table::Badge;
use key_state::Book;
use std::mem;
use std::sync::Wait;
use vd_arm::Pass;

impl<P: Pass, B: Book> ClaimTable<P, B> {
    /// Takes the book, waiting until no other seat has it. It takes no memory. In the core's words it is no event: neither the `fetch_or`
    /// of the lock, which is tried again where it was set, nor the exchanges and the load by which the book comes out.
    pub fn take_book<R: Wait>(&self, rt: &R, seat: &mut ClaimSeat) -> B
        requires of { IsSeatOf self.now seat.old }
        requires free { (view_of seat.old).loan ≡ None }
        ensures of { IsSeatOf self.now seat.new }
        ensures loan { view_of seat.new ≡ with_loan (view_of seat.old) (B.seen result) }
        ensures book { Lends (view_of seat.old) (B.seen result) }
    {
        let mut place = mem::replace(&mut seat.badge, Badge::blank()).into_seat::<Slot<P, B>>();
        let book = self.take_book_at(rt, &mut place);
        seat.badge = place.into_badge();
        book
    }

    fn take_book_at<R: Wait>(&self, rt: &R, place: &mut Place<P, B>) -> B
        requires of { AtRest self.now.table.shared.table_id self.now.table.shared.key.store place.old }
        requires free { place.old.me.0.loan ≡ None }
        ensures of { AtRest self.now.table.shared.table_id self.now.table.shared.key.store place.new }
        ensures loan { place.new.me.0 ≡ with_loan place.old.me.0 (B.seen result) }
        ensures book { Lends place.old.me.0 (B.seen result) }
    {
        let shared = &self.table.shared;
        for _ in rt.forever() {
            if shared.fetch_or::<Borrow>(place, 0, 1) == 0 {
                let mut shelf = match shared.exchange(place, self.blocks as usize, Slot::Empty) {
                    Slot::Book(shelf) => shelf,
                    _ => unreachable!(),
                };
                let book = shelf.take();
                shared.exchange(place, self.blocks as usize, Slot::Book(shelf));
                shared.load::<Park>(place, 0);
                return book;
            }
            shared.park(rt, 0, 1);
        }
        unreachable!()
    }

    /// Gives the book back, which follows the one that was lent: it differs at most at blocks that the seat holds and that weren't bad,
    /// each other block's synced entry is as it was lent or the one now, and its Ends and Clears rose by the held blocks whose write
    /// was ended, and that were cleared.
    ///
    /// One `fetch_and` gives it back, at which the records, syncs and turnovers that were made under the loan take effect. In the core's
    /// words these are its Begin, End, Bad, Clear, Sync and Turnover, with the turnovers that an append made. The load and the exchanges
    /// before it, by which the book goes home, are no events. It neither waits nor takes memory. An item is safe from then on exactly
    /// where the block's entry is pending and is also the synced one.
    pub fn give_book(&self, seat: &mut ClaimSeat, book: B)
        requires of { IsSeatOf self.now seat.old }
        requires loan { Brings (view_of seat.old) (B.seen book) }
        ensures of { IsSeatOf self.now seat.new }
        ensures given { view_of seat.new ≡ given (view_of seat.old) (B.seen book) }
        ensures safe { Each (λ i. IsTrue i.safe ↔ (IsPending (now_at (B.seen book) i.block) × (synced_at (B.seen book) i.block ≡ now_at (B.seen book) i.block))) (view_of seat.new).held }
    {
        let mut place = mem::replace(&mut seat.badge, Badge::blank()).into_seat::<Slot<P, B>>();
        self.give_book_at(&mut place, book);
        seat.badge = place.into_badge();
    }

    fn give_book_at(&self, place: &mut Place<P, B>, book: B)
        requires of { AtRest self.now.table.shared.table_id self.now.table.shared.key.store place.old }
        requires loan { Brings place.old.me.0 (B.seen book) }
        ensures of { AtRest self.now.table.shared.table_id self.now.table.shared.key.store place.new }
        ensures given { place.new.me.0 ≡ given place.old.me.0 (B.seen book) }
    {
        let shared = &self.table.shared;
        shared.load::<FetchBook>(place, 0);
        let mut home = match shared.exchange(place, self.blocks as usize, Slot::Empty) {
            Slot::Book(shelf) => shelf,
            _ => unreachable!(),
        };
        home.put(book);
        shared.exchange(place, self.blocks as usize, Slot::Book(home));
        shared.fetch_and::<Return>(place, 0, u64::MAX - 1);
        shared.wake_one(0);
    }
}
