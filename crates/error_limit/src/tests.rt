// Notes of seats one after another, and of eight threads at once.
ghost use Rattle.std.specs.Prelude.{◌≡◌, ◌+◌, ◌≤◌, ◌<◌, [], All};
ghost use Rattle.error_limit.specs.Seats.{IsSeatOf, answers_of};

use crate::{ErrorSeat, ErrorWord};
use std::thread;

#[test]
fn two_seats_from_seven(rt: HostRuntime) {
    let (word, mut seats) = ErrorWord::new(rt.alloc(), 7, 2).expect(&rt, "memory");
    let mut second = seats.pop().expect(&rt, "the second seat");
    let mut first = seats.pop().expect(&rt, "the first seat");
    assert_eq!(rt; word.note(&mut first), 8);
    assert_eq!(rt; word.note(&mut second), 9);
    assert_eq!(rt; word.note(&mut first), 10);
    seats.push(first).expect(&rt, "memory");
    seats.push(second).expect(&rt, "memory");
    assert_eq!(rt; word.close(seats), 10);
}

/// A thousand notes.
fn note_often(word: &ErrorWord, seat: &mut ErrorSeat)
    requires { IsSeatOf word.now seat.old × (answers_of seat.old ≡ []) }
    ensures { IsSeatOf word.now seat.new }
{
    for i in 0..1000u32 {
        let _count = word.note(seat);
        let _i = i;
    }
}

#[test]
fn eight_threads(rt: HostRuntime) {
    let (word, mut seats) = ErrorWord::new(rt.alloc(), 5, 8).expect(&rt, "memory");
    thread::for_each_mut(&rt, &mut seats, 8, &|_, seat| note_often(&word, seat));
    assert_eq!(rt; word.close(seats), 8005);
}
