// What follows of journals that were recovered and opened again.
ghost use Rattle.plan_reopened.specs.Laws.{RecoveredAreAsMany, RecoveredAreKept, RecoveredAreReady, RecoveredAreSettled, StandingAreOut};

/// Laws of recovered journals: they can be opened after whatever valid entries of their blocks, as those that were recovered; there
/// are as many as stores, and their disks are as the yard keeps them; and those that stand open then can be closed. It does nothing.
pub fn reopen_laws()
    ensures ready { RecoveredAreReady }
    ensures as_many { RecoveredAreAsMany }
    ensures settled { RecoveredAreSettled }
    ensures kept { RecoveredAreKept }
    ensures standing { StandingAreOut }
{}
