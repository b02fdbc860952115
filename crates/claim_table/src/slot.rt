// What the slots of a table have, and what it is told when it is made.
ghost use Rattle.std.specs.Prelude.{◌≡◌, Some, IfOk, IfErr, IsSome};

use std::alloc::{AllocFailed, Global};
use std::mem;
use std::snapshot::Snapshot;
use vd_base::StoreId;

/// The book's place. It is on the heap, so that the slots of the blocks don't have the book's size.
#[derive(Drop)]
pub(crate) struct Shelf<B> {
    place: Box<Option<B>>,
}

impl<B> Shelf<B> {
    pub(crate) fn new(alloc: Global, book: B) -> Result<Shelf<B>, B>
        ensures ok { IfOk result (λ shelf. shelf.place.value ≡ Some book) }
        ensures err { IfErr result (λ back. back ≡ book) }
    {
        match Box::new(alloc, Some(book)) {
            Ok(place) => Ok(Shelf { place }),
            Err(AllocFailed { value: Some(book) }) => Err(book),
            Err(AllocFailed { value: None }) => unreachable!(),
        }
    }

    /// Takes the book out.
    pub(crate) fn take(&mut self) -> B
        requires { IsSome self.old.place.value }
        ensures { self.old.place.value ≡ Some result }
    {
        match mem::replace(&mut *self.place, None) {
            Some(book) => book,
            None => unreachable!(),
        }
    }
}

impl<B: Drop> Shelf<B> {
    pub(crate) fn put(&mut self, book: B)
        ensures { self.new.place.value ≡ Some book }
    {
        *self.place = Some(book);
    }
}

/// What a slot has. Slot b has the pass of block b, and the last one the book.
#[derive(Drop)]
pub(crate) enum Slot<P, B> {
    Empty,
    Pass(P),
    Book(Shelf<B>),
}

/// What a table is told when it is made.
#[derive(Drop)]
pub(crate) struct Key<P, B> {
    pub(crate) store: StoreId,
    pub(crate) seats: u32,
    pub(crate) passes: Snapshot<Vec<P>>,
    pub(crate) book: Snapshot<B>,
}
