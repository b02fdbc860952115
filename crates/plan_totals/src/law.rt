// What all runs of a plan add up to, and what they have to do with the draws of their workers.
ghost use Rattle.plan_totals.specs.Drawn.{LinesAreDrawn, SlavesTellTurns, StillRunsMakeAllTurns};
ghost use Rattle.plan_totals.specs.Sentences.{ContentsStay, CorruptAreBad, ErrorsAreFindings, FaultsAreArmFaults, FindingsAreTold, FirstAreMade, FittingStaysSo, NoneIsCorrupt, NoneIsLeftOut, OneForEach, OtherPathsStay, ReadsAreGoodReads, RefusedIsTold, SourcesStay, StartBelowLimit, StatusIsFound, StoresStay, SureArmsDontFail, TextIsTheirs, UnwrittenFit, UnwrittenPlansFit, WritesAreEnds, WritesAreGoodWrites};

use key_state::Book;
use run_totals::{run_adds_up, run_is_drawn};
use vd_arm::Pass;

/// Which runs of a plan were made, and what they have to do with its text, its errors, its stores' books, and the counts of their paths.
pub fn runs_add_up<P: Pass, B: Book>()
    ensures first { FirstAreMade P.seen B.seen }
    ensures one_each { OneForEach P.seen B.seen }
    ensures text { TextIsTheirs P.seen B.seen }
    ensures refused { RefusedIsTold P.seen B.seen }
    ensures status { StatusIsFound P.seen B.seen }
    ensures left_out { NoneIsLeftOut P.seen B.seen }
    ensures below { StartBelowLimit P.seen B.seen }
    ensures findings { FindingsAreTold P.seen B.seen }
    ensures errors { ErrorsAreFindings P.seen B.seen }
    ensures stores { StoresStay P.seen B.seen }
    ensures writes { WritesAreEnds P.seen B.seen }
    ensures reads { ReadsAreGoodReads P.seen B.seen }
    ensures faults { FaultsAreArmFaults P.seen B.seen }
    ensures good_writes { WritesAreGoodWrites P.seen B.seen }
    ensures corrupt { CorruptAreBad P.seen B.seen }
    ensures others { OtherPathsStay P.seen B.seen }
    ensures sources { SourcesStay P.seen B.seen }
    ensures contents { ContentsStay P.seen B.seen }
    ensures sure { SureArmsDontFail P.seen B.seen }
    ensures fits { FittingStaysSo P.seen B.seen }
    ensures clean { NoneIsCorrupt P.seen B.seen }
    ensures unwritten { UnwrittenFit }
    ensures unwritten_plans { UnwrittenPlansFit P.seen B.seen }
{
    run_adds_up::<P, B>();
}

/// What the total lines of a plan's runs have to do with the turns that their workers drew.
pub fn runs_are_drawn<P: Pass, B: Book>()
    ensures drawn { LinesAreDrawn P.seen B.seen }
    ensures turns { SlavesTellTurns P.seen B.seen }
    ensures still { StillRunsMakeAllTurns P.seen B.seen }
{
    run_adds_up::<P, B>();
    run_is_drawn::<P, B>();
}
