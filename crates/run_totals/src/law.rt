// What a run's totals add up to, and what they have to do with the draws of its workers.
ghost use Rattle.run_totals.specs.Drawn.{AllTurnsAddUp, OneWorkerDoesItsDraw, StillRunsMakeAllTurns, TotalsAreDrawn, TurnsAreFew};
ghost use Rattle.run_totals.specs.Sentences.{CorruptAreBad, EndsHaveCauses, ErrorsAreFindings, FaultsAreArmFaults, FittingStaysSo, OneForEach, OtherPathsStay, PassesComeBack, ReadsAreGoodReads, SourcesStay, StillClocksDontEnd, SureArmsDontFail, WritesAreEnds, WritesAreGoodWrites};

use key_state::Book;
use slave_worker::{draws_add_up, turns_add_up};
use vd_arm::Pass;

/// What the totals of every run have to do with its stores' books, with the counts of their paths, and with its errors.
pub fn run_adds_up<P: Pass, B: Book>()
    ensures writes { WritesAreEnds P.seen B.seen }
    ensures reads { ReadsAreGoodReads P.seen B.seen }
    ensures faults { FaultsAreArmFaults P.seen B.seen }
    ensures good_writes { WritesAreGoodWrites P.seen B.seen }
    ensures corrupt { CorruptAreBad P.seen B.seen }
    ensures fits { FittingStaysSo P.seen B.seen }
    ensures passes { PassesComeBack P.seen B.seen }
    ensures others { OtherPathsStay P.seen B.seen }
    ensures sources { SourcesStay P.seen B.seen }
    ensures errors { ErrorsAreFindings P.seen B.seen }
    ensures sure { SureArmsDontFail P.seen B.seen }
    ensures one_each { OneForEach P.seen B.seen }
    ensures ends { EndsHaveCauses P.seen B.seen }
    ensures still { StillClocksDontEnd P.seen B.seen }
{
    turns_add_up();
}

/// What the totals of every run have to do with the turns that its workers drew.
pub fn run_is_drawn<P: Pass, B: Book>()
    ensures drawn { TotalsAreDrawn P.seen B.seen }
    ensures one_worker { OneWorkerDoesItsDraw P.seen B.seen }
    ensures few { TurnsAreFew P.seen B.seen }
    ensures all_turns { AllTurnsAddUp P.seen B.seen }
    ensures still { StillRunsMakeAllTurns P.seen B.seen }
{
    turns_add_up();
    draws_add_up();
}
