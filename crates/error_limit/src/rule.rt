// The rule of the word, and what a step on it tells.
ghost use Rattle.error_limit.specs.Rule.{Counted, first, answers, cut_left, cut_right, both, spent};

use atomic_table::{Join, Play, Split, TableRule};
use std::collections::LinkedList;

/// What a word is made with: the errors from before, and how many seats.
#[derive(Clone, Copy, Drop)]
pub(crate) struct Start {
    pub before: u32,
    pub seats: u32,
}

/// What contracts see of a seat. No value of it is made.
pub(crate) struct Noted {
    /// How many of the word's seats it stands for.
    pub parts: u64,
    /// What its notes answered, the newest first. Where another seat was joined to it, the answers of that one stand behind its own.
    pub answers: LinkedList<u64>,
    /// What the word was made with.
    pub made: Start,
}

/// The word is the errors from before and the notes of all seats, and each count up to it was answered to one note.
pub(crate) struct Rule;

impl<S> TableRule<S, Noted, Start> for Rule {
    ghost holds = { Counted };

    ghost first = { first };
}

/// One `fetch_add`.
pub(crate) struct Note;

impl<S> Play<S, Noted> for Note {
    ghost then = { answers };
}

/// One part goes to a new seat.
pub(crate) struct Cut;

impl Split<Noted> for Cut {
    ghost left = { cut_left };

    ghost right = { cut_right };
}

/// Two seats become one.
pub(crate) struct Both;

impl Join<Noted> for Both {
    ghost both = { both };

    ghost spent = { spent };
}
