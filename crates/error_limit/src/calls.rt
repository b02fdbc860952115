// The calls on the word.
ghost use Rattle.std.specs.Prelude.{◌≡◌, ◌∷◌, ℕ, ◌+◌, ◌*◌, ◌^◌, ◌<◌, ◌≤◌, [], length, All, sum_by, IfOk};
ghost use Rattle.std.specs.Vec.{vec_capacity};
ghost use Rattle.error_limit.specs.Rule.{seat as seat_view};
ghost use Rattle.error_limit.specs.Sums.{times};
ghost use Rattle.error_limit.specs.Seats.{IsSeatOf, IsNew, before_of, seats_of, answers_of, notes_of, last_of, times_of, Lasts, AnsweredOnce};

use crate::rule::{Both, Cut, Note, Noted, Rule, Start};
use crate::word::{ErrorSeat, ErrorWord};
use atomic_table::{Seat, Table};
use std::alloc::Global;
use vd_outside::NoMemory;

impl ErrorWord {
    /// A word with so many errors from before, and so many seats, 1 to 65,536, none of which has noted.
    pub fn new(
        alloc: Global,
        before: u32,
        seats: u32,
    ) -> Result<(ErrorWord, Vec<ErrorSeat>), NoMemory>
        requires { (1 ≤ seats) × (seats ≤ 65536) }
        ensures word { IfOk result (λ made. (before_of made.0 ≡ before) × (seats_of made.0 ≡ seats)) }
        ensures seats { IfOk result (λ made. (length made.1.items ≡ seats) × All (IsNew made.0) made.1.items) }
    {
        let start = Start { before, seats };
        let room = Vec::with_capacity(alloc, seats as usize)?;
        let (table, seat) = Table::of_words(alloc, &[before as u64], &start)?;
        let word = ErrorWord { table };
        let seats = word.deal(seat, room, seats);
        Ok((word, seats))
    }

    /// One part of the seat goes to each of so many seats.
    fn deal(&self, mut all: Seat<(), Noted>, mut seats: Vec<ErrorSeat>, many: u32) -> Vec<ErrorSeat>
        requires all { (all.table_id ≡ self.now.table.shared.table_id) × (all.me.1 ≡ []) × (all.me.0 ≡ seat_view many [] self.now.table.shared.key) }
        requires room { (1 ≤ many) × (seats.items ≡ []) × (many ≤ vec_capacity seats) }
        ensures many { length result.items ≡ many }
        ensures each { All (IsNew self.now) result.items }
    {
        for _ in 1..many {
            let seat = self.table.shared.split_seat::<Cut>(&mut all);
            seats.push_reserved(ErrorSeat { seat });
        }
        seats.push_reserved(ErrorSeat { seat: all });
        seats
    }

    /// Adds one error, and answers the count with it: the errors from before and all notes up to this one. It is one `fetch_add`,
    /// so no other note gets this answer.
    pub fn note(&self, seat: &mut ErrorSeat) -> u64
        requires of { IsSeatOf self.now seat.old }
        requires few { notes_of seat.old < 2 ^ 32 }
        ensures of { IsSeatOf self.now seat.new }
        ensures answers { answers_of seat.new ≡ result ∷ answers_of seat.old }
        ensures noted { notes_of seat.new ≡ notes_of seat.old + 1 }
        ensures last { last_of seat.new ≡ result }
        ensures later { last_of seat.old < result }
        ensures own { before_of self.now + notes_of seat.new ≤ result }
        ensures alone { seats_of self.now ≡ 1 → result ≡ before_of self.now + notes_of seat.new }
    {
        self.table.shared.fetch_add::<Note>(&mut seat.seat, 0, 1) + 1
    }

    /// The final count: the errors from before and all notes of its seats, which are all handed in. Each count above those from
    /// before, up to this one, was answered to exactly one note.
    pub fn close(self, seats: Vec<ErrorSeat>) -> u64
        requires of { All (IsSeatOf self) seats.items }
        requires all { length seats.items ≡ seats_of self }
        ensures sum { result ≡ before_of self + sum_by notes_of seats.items }
        ensures last { All (Lasts result) seats.items }
        ensures once { AnsweredOnce (before_of self) result seats.items }
    {
        let seat = self.gather(seats);
        let ErrorWord { table } = self;
        let closed = table.close_with(seat);
        let count = closed.word(0);
        closed.free();
        count
    }

    /// All seats in one.
    fn gather(&self, mut seats: Vec<ErrorSeat>) -> Seat<(), Noted>
        requires of { All (IsSeatOf self.now) seats.items }
        requires all { length seats.items ≡ seats_of self.now }
        ensures all { (result.table_id ≡ self.now.table.shared.table_id) × (result.me.0.parts ≡ seats_of self.now) }
        ensures notes { length result.me.0.answers ≡ sum_by notes_of seats.items }
        ensures answers { (n : ℕ) → times n result.me.0.answers ≡ sum_by (times_of n) seats.items }
    {
        let Some(ErrorSeat { seat: mut all }) = seats.pop() else {
            unreachable!()
        };
        while let Some(ErrorSeat { seat }) = seats.pop() {
            self.table.shared.join_seat::<Both>(&mut all, seat);
        }
        seats.destroy_empty();
        all
    }
}
