// What can be wrong with a journal.

/// What is wrong with a journal of the right store.
#[derive(Clone, Copy, Debug, PartialEq, Eq, Drop)]
pub enum Damage {
    /// The disk has too few sectors.
    Missing,
    /// A place of the map has no entry.
    Map,
    /// The header of a log sector is wrong.
    Header,
    /// A record isn't spelled right, or isn't legal where it stands.
    Record,
    /// Bytes behind the last record of a log sector aren't zeros.
    Tail,
}
