// What a schedule came to.

/// The counts of a schedule.
#[derive(Clone, Copy, Debug, PartialEq, Eq, Drop)]
pub struct Summary {
    /// The steps whose event was enabled.
    pub taken: u64,
    /// The other steps.
    pub idle: u64,
    /// The beginnings that were ended.
    pub ends: u64,
    /// The stops, each with its recovery.
    pub stops: u64,
    /// The sectors, those of bad blocks aside, that fitted no key of their block's entry after a stop, over all stops.
    pub wrong: u64,
}
