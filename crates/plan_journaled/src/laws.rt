// What follows of journals that were closed.
ghost use Rattle.plan_journaled.specs.Laws.{ClosedRecovers};

/// A law of closed journals: what a stop may leave of the disk recovers to the epoch and the entries of the book that was closed, with all its
/// records. It does nothing.
pub fn journaled_laws()
    ensures recovers { ClosedRecovers }
{}
