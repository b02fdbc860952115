// What the head of a log sector says.

/// The head of a log sector, at its version, epoch and place.
#[derive(Clone, Copy, Debug, PartialEq, Eq, Drop)]
pub enum Head {
    /// It is of another version, epoch or place, or no log sector: the log ended before it.
    Foreign,
    /// It is of this version, epoch and place, and wrong.
    BadHeader,
    /// It has so many records, 1 to 30.
    Count(u8),
}
