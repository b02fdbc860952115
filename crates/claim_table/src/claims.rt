// Blocks are claimed, released and looked at.
ghost use Rattle.std.specs.Prelude.{◌≡◌, ◌≢◌, ◌<◌, ◌∷◌, length};
ghost use Rattle.key_state.specs.declared.entry.Entry.TheVariants.{Bad};
ghost use Rattle.key_state.specs.Entries.{IsEntry};
ghost use Rattle.claim_table.specs.Sums.{Each};
ghost use Rattle.claim_table.specs.Views.{blocks_of, parts_in, holds, bad_at, LentAs, released};
ghost use Rattle.claim_table.specs.Passes.{IsPassFor};
ghost use Rattle.claim_table.specs.Seats.{view_of, IsSeatOf, AtRest, Answers, IsNewest};

use crate::claim::{Claim, Claimed};
use crate::code::{BAD, BUSY, decode, encode, in_lane, of_lane, word_index};
use crate::rule::{FetchPass, Free, Look, Park, PutBack, Take};
use crate::slot::Slot;
use crate::table::{ClaimSeat, ClaimTable, Place};
use atomic_table::Badge;
use key_state::{Book, Entry};
use std::mem;
use vd_arm::Pass;
use vd_base::BlockNo;

impl<P: Pass, B: Book> ClaimTable<P, B> {
    /// Claims a block above those that the seat holds, of which there are fewer than 64. Busy, exactly where the word that was found had
    /// the block's own busy bit: another seat holds it, with an entry that its claim was answered. BadBlock, exactly where that word had
    /// it bad and not busy. Else it is the seat's, with the entry that the word has and its pass, until `release`. The view notes the
    /// word. A seat that has all parts never meets Busy. To one that has the book, a block is as that book has it.
    ///
    /// One `fetch_or` is the claim: in the core's words a Claim of the block, free or busy, and no event where the block is bad. What
    /// follows it is none: the `exchange` and the load by which the pass comes out, and the `fetch_xor` that puts a bad block's bit back.
    pub fn claim(&self, seat: &mut ClaimSeat, block: BlockNo) -> Claim<P>
        requires of { IsSeatOf self.now seat.old }
        requires block { block.0 < blocks_of (view_of seat.old).made }
        requires above { Each (λ i. i.block < block.0) (view_of seat.old).held }
        requires few { length (view_of seat.old).held < 64 }
        ensures of { IsSeatOf self.now seat.new }
        ensures answer { Answers P.seen (view_of seat.old) block.0 result (view_of seat.new) }
    {
        let mut place = mem::replace(&mut seat.badge, Badge::blank()).into_seat::<Slot<P, B>>();
        let answer = self.claim_at(&mut place, block.0);
        seat.badge = place.into_badge();
        answer
    }

    fn claim_at(&self, place: &mut Place<P, B>, block: u32) -> Claim<P>
        requires of { AtRest self.now.table.shared.table_id self.now.table.shared.key.store place.old }
        requires block { block < blocks_of place.old.me.0.made }
        requires above { Each (λ i. i.block < block) place.old.me.0.held }
        requires few { length place.old.me.0.held < 64 }
        ensures of { AtRest self.now.table.shared.table_id self.now.table.shared.key.store place.new }
        ensures answer { Answers P.seen place.old.me.0 block result place.new.me.0 }
    {
        let shared = &self.table.shared;
        let at = word_index(block);
        let found = shared.fetch_or::<Take>(place, at, in_lane(block, BUSY));
        let code = of_lane(block, found);
        if code >= BUSY {
            return Claim::Busy { word: found };
        }
        if code == BAD {
            shared.fetch_xor::<PutBack>(place, at, in_lane(block, BUSY));
            return Claim::BadBlock;
        }
        let entry = decode(code);
        let pass = match shared.exchange(place, block as usize, Slot::Empty) {
            Slot::Pass(pass) => pass,
            _ => unreachable!(),
        };
        // Of the block's own word, so that claims of other blocks don't meet at one.
        shared.load::<Park>(place, at);
        Claim::Claimed(Claimed {
            block: BlockNo(block),
            entry,
            pass,
        })
    }

    /// Releases the newest block that the seat holds, with its pass and the entry that the book has for it: as the seat last gave the
    /// book back since the claim, or as claimed. Where the table was made over bytes that fitted, the caller owes that the pass's bytes
    /// fit this entry.
    ///
    /// One `fetch_xor` is the release: in the core's words a Release, and before it a Fault where the block's write was begun and not
    /// ended. The load and the `exchange` before it, by which the pass goes home, are no events.
    pub fn release(&self, seat: &mut ClaimSeat, held: Claimed<P>)
        requires of { IsSeatOf self.now seat.old }
        requires newest { IsNewest (view_of seat.old) held.block.0 held.entry }
        requires fits { IsPassFor (view_of seat.old).made held.block.0 held.entry (P.seen held.pass) }
        ensures of { IsSeatOf self.now seat.new }
        ensures gone { (i : _) (others : _) → (view_of seat.old).held ≡ i ∷ others → view_of seat.new ≡ released (view_of seat.old) others }
    {
        let mut place = mem::replace(&mut seat.badge, Badge::blank()).into_seat::<Slot<P, B>>();
        self.release_at(&mut place, held);
        seat.badge = place.into_badge();
    }

    fn release_at(&self, place: &mut Place<P, B>, held: Claimed<P>)
        requires of { AtRest self.now.table.shared.table_id self.now.table.shared.key.store place.old }
        requires newest { IsNewest place.old.me.0 held.block.0 held.entry }
        requires fits { IsPassFor place.old.me.0.made held.block.0 held.entry (P.seen held.pass) }
        ensures of { AtRest self.now.table.shared.table_id self.now.table.shared.key.store place.new }
        ensures gone { (i : _) (others : _) → place.old.me.0.held ≡ i ∷ others → place.new.me.0 ≡ released place.old.me.0 others }
    {
        let Claimed { block, entry, pass } = held;
        let shared = &self.table.shared;
        let at = word_index(block.0);
        let found = of_lane(block.0, shared.load::<FetchPass>(place, at));
        match shared.exchange(place, block.0 as usize, Slot::Pass(pass)) {
            Slot::Empty => {}
            _ => unreachable!(),
        }
        let turn = found ^ encode(entry);
        shared.fetch_xor::<Free>(place, at, in_lane(block.0, turn));
    }

    /// The entry in a block's word, by one load: of a block that the seat holds the one that it was claimed with; of one that it ever
    /// met as bad, `Bad`; and where the seat has all parts and the book, of a block that it doesn't hold the book's. Of another block
    /// it says only that the entry is a valid one. In the core's words it is no event.
    pub fn look(&self, seat: &mut ClaimSeat, block: BlockNo) -> Entry
        requires of { IsSeatOf self.now seat.old }
        requires block { block.0 < blocks_of (view_of seat.old).made }
        ensures of { IsSeatOf self.now seat.new }
        ensures same { view_of seat.new ≡ view_of seat.old }
        ensures valid { IsEntry result }
        ensures held { Each (λ i. i.block ≡ block.0 → result ≡ i.was) (view_of seat.old).held }
        ensures bad { 0 < bad_at block.0 (view_of seat.old) → result ≡ Bad }
        ensures lent { (view_of seat.old).parts ≡ parts_in (view_of seat.old).made → holds block.0 (view_of seat.old) ≡ 0 → LentAs (view_of seat.old) block.0 result }
    {
        let mut place = mem::replace(&mut seat.badge, Badge::blank()).into_seat::<Slot<P, B>>();
        let entry = self.look_at(&mut place, block.0);
        seat.badge = place.into_badge();
        entry
    }

    fn look_at(&self, place: &mut Place<P, B>, block: u32) -> Entry
        requires of { AtRest self.now.table.shared.table_id self.now.table.shared.key.store place.old }
        requires block { block < blocks_of place.old.me.0.made }
        ensures of { AtRest self.now.table.shared.table_id self.now.table.shared.key.store place.new }
        ensures same { place.new.me ≡ place.old.me }
        ensures valid { IsEntry result }
        ensures held { Each (λ i. i.block ≡ block → result ≡ i.was) place.old.me.0.held }
        ensures bad { 0 < bad_at block place.old.me.0 → result ≡ Bad }
        ensures lent { place.old.me.0.parts ≡ parts_in place.old.me.0.made → holds block place.old.me.0 ≡ 0 → LentAs place.old.me.0 block result }
    {
        let word = self.table.shared.load::<Look>(place, word_index(block));
        decode(of_lane(block, word) % BUSY)
    }
}
