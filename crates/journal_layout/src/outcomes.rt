// What holds of what a journal gives.
ghost use Rattle.journal_layout.specs.Recovery.{GivesOnce};

/// The sectors of a journal give one outcome for a store: a refusal with its place, or the live area, its stored records and
/// the entries after them.
pub fn gives_once()
    ensures { GivesOnce }
{}
