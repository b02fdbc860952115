// What follows of open and closed journals.
ghost use Rattle.plan_journals.specs.Laws.{ApartByPaths, ClosedIsJournaled, FaultBehindClosing, FollowOn, FollowThemselves, FollowersAreFrom, HandedAtRest, HandedReads, OpenedAreFrom, OutInAnyOrder, OutInTurn, WellBehindClosing};

/// Laws of open and closed journals: books that follow theirs were opened as those were, over what the yard keeps where that was just now;
/// no two stores of a valid plan have one journal; a disk at rest is so as it is handed out; what is out with journals is so in any order; what a status behind closing says of
/// closing; a journal that stands closed keeps the history of its book. It does nothing.
pub fn journal_laws()
    ensures themselves { FollowThemselves }
    ensures on { FollowOn }
    ensures from { FollowersAreFrom }
    ensures opened { OpenedAreFrom }
    ensures apart { ApartByPaths }
    ensures at_rest { HandedAtRest }
    ensures handed_reads { HandedReads }
    ensures out_in_turn { OutInTurn }
    ensures out_in_any_order { OutInAnyOrder }
    ensures well { WellBehindClosing }
    ensures fault { FaultBehindClosing }
    ensures closed { ClosedIsJournaled }
{}
