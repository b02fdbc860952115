// Where files stand.

/// Which directories of a tree have files.
#[derive(Clone, Copy, Debug, PartialEq, Eq, Drop)]
pub enum Distribution {
    /// Those of the last level.
    Bottom,
    /// All.
    All,
}
