// What a record adds to a book's counts.
ghost use Rattle.std.specs.Prelude.{◌≡◌, ◌≤◌};
ghost use Rattle.key_state.specs.Books.{clears_of};
ghost use Rattle.key_state.specs.Entries.{ends_of, first_of, many_of, IsLegalOn};
ghost use Rattle.std.specs.Prelude.{◌+◌, length};

use key_state::{Entry, Record, count_used};

/// How many writes a record ends.
pub fn ended_by(made: &Record) -> u64
    ensures { result ≡ ends_of made.now }
{
    match made {
        Record::End { .. } => 1,
        Record::EndRun { many, .. } => *many as u64,
        Record::Begin { .. }
        | Record::Bad { .. }
        | Record::BeginRun { .. }
        | Record::Clear { .. } => 0,
    }
}

/// How many blocks a record clears that weren't settled at 0.
pub fn cleared_by(entries: &[Entry], made: &Record) -> u64
    requires { first_of made.now + many_of made.now ≤ length entries.now }
    ensures { result ≡ clears_of entries.now made.now }
{
    match made {
        Record::Clear { first, many } => count_used(entries, *first, *many) as u64,
        Record::Begin { .. }
        | Record::End { .. }
        | Record::Bad { .. }
        | Record::BeginRun { .. }
        | Record::EndRun { .. } => 0,
    }
}
