// The rule of the table, and what each of its steps tells.
ghost use Rattle.claim_table.specs.Views.{start, halved, other_half, without_seat, one_seat, joined, done};
ghost use Rattle.claim_table.specs.Rule.{Kept, made_of};
ghost use Rattle.claim_table.specs.Plays.{claims, looked, parks, fetches_pass, fetches_book, releases, puts_back, takes_book, gives_book};

use crate::slot::{Key, Slot};
use crate::view::View;
use atomic_table::{Join, Play, Split, TableRule};
use key_state::Book;
use vd_arm::Pass;

/// The rule of the table, which holds between any two steps.
pub(crate) struct Rule;

impl<P: Pass, B: Book> TableRule<Slot<P, B>, View, Key<P, B>> for Rule {
    ghost holds = { λ key. Kept P.seen B.seen (made_of P.seen B.seen key) };

    ghost first = { λ key. start (made_of P.seen B.seen key) };
}

/// The `fetch_or` of a block's busy bit: a block that isn't busy or bad is had, and its slot comes out.
pub(crate) struct Take;

impl<P: Pass, B: Book> Play<Slot<P, B>, View> for Take {
    ghost then = { claims P.seen B.seen };
}

/// A load of a block's word.
pub(crate) struct Look;

impl<P, B> Play<Slot<P, B>, View> for Look {
    ghost then = { looked };
}

/// A load, at which the slot that is out goes home.
pub(crate) struct Park;

impl<P, B> Play<Slot<P, B>, View> for Park {
    ghost then = { parks };
}

/// A load of the newest block's word, at which its slot comes out.
pub(crate) struct FetchPass;

impl<P, B> Play<Slot<P, B>, View> for FetchPass {
    ghost then = { fetches_pass };
}

/// A load, at which the book's slot comes out.
pub(crate) struct FetchBook;

impl<P, B> Play<Slot<P, B>, View> for FetchBook {
    ghost then = { fetches_book };
}

/// The `fetch_xor` of the newest block's entry: it isn't busy any more, and its slot goes home.
pub(crate) struct Free;

impl<P, B> Play<Slot<P, B>, View> for Free {
    ghost then = { releases };
}

/// The `fetch_xor` of the busy bit of a block that was found bad.
pub(crate) struct PutBack;

impl<P, B> Play<Slot<P, B>, View> for PutBack {
    ghost then = { puts_back };
}

/// The `fetch_or` of the lock: where it wasn't set, the book's slot comes out.
pub(crate) struct Borrow;

impl<P: Pass, B: Book> Play<Slot<P, B>, View> for Borrow {
    ghost then = { takes_book P.seen B.seen };
}

/// The `fetch_and` of the lock: the book's slot goes home.
pub(crate) struct Return;

impl<P: Pass, B: Book> Play<Slot<P, B>, View> for Return {
    ghost then = { gives_book P.seen B.seen };
}

/// Half of the parts go to a new seat.
pub(crate) struct Halve;

impl Split<View> for Halve {
    ghost left = { halved };

    ghost right = { other_half };
}

/// The parts of one seat go to it.
pub(crate) struct Deal;

impl Split<View> for Deal {
    ghost left = { without_seat };

    ghost right = { one_seat };
}

/// Two seats become one.
pub(crate) struct Both;

impl Join<View> for Both {
    ghost both = { joined };

    ghost spent = { done };
}
