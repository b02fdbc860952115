// Data that fits its journals.
ghost use Rattle.plan_kept.specs.Laws.{NewDataFits, NewEnds, NewIsSound, NewIsSure, NewJournalsCount, OldDataFits, OldEnds, OldIsSound, OldIsSure, OldJournalsCount, QuietEnds, QuietIsSound, QuietIsSure, StillIsSound, ValidAreRecovered};

use journal_layout::gives_once;
use key_state::Book;
use plan_journaled::journaled_laws;
use plan_totals::runs_add_up;
use plan_verified::verified_laws;
use vd_arm::Pass;

/// Where the yard tells the data that it keeps, no command has a line of a corrupt block, or ends by its status, over bytes that fit:
/// whatever they are where no block counts as written, and, over journals that are recovered, where they fit what these give. It does nothing.
pub fn sound_laws<P: Pass, B: Book>()
    ensures quiet { QuietIsSound P.seen B.seen }
    ensures anew { NewIsSound P.seen B.seen }
    ensures again { OldIsSound P.seen B.seen }
    ensures still { StillIsSound }
{
    runs_add_up::<P, B>();
    verified_laws();
}

/// How commands over a plan's runs end: none by a status of words, of a parameter file or of a source; over sure arms none by that of a failed
/// device; and over valid journals none by that of a journal which is missing, damaged or another store's. It does nothing.
pub fn ending_laws<P: Pass, B: Book>()
    ensures quiet { QuietEnds P.seen B.seen }
    ensures anew { NewEnds P.seen B.seen }
    ensures again { OldEnds P.seen B.seen }
    ensures quiet_sure { QuietIsSure P.seen B.seen }
    ensures anew_sure { NewIsSure P.seen B.seen }
    ensures again_sure { OldIsSure P.seen B.seen }
    ensures valid { ValidAreRecovered P.seen B.seen }
{
    runs_add_up::<P, B>();
    verified_laws();
    gives_once();
}

/// What is kept of each store with a status of 0, 1 or 2, where the yard tells the data and the disks that it keeps: each image that a stop
/// may leave of its journal gives entries that its bytes fit. Over recovered journals that is so of a store whose bytes fitted what its journal
/// gave, or whose arms are sure. It does nothing.
pub fn kept_laws<P: Pass, B: Book>()
    ensures anew { NewDataFits P.seen B.seen }
    ensures again { OldDataFits P.seen B.seen }
{
    runs_add_up::<P, B>();
    verified_laws();
    journaled_laws();
}

/// What is stored in each closed journal with a status of 0, 1 or 2, where the yard tells the disks that it keeps: each image that a stop may
/// leave of it, where it is in the epoch in which the journal was made or opened, has as many ends as the total lines of its store have
/// writes, modulo 2^64. It does nothing.
pub fn count_laws<P: Pass, B: Book>()
    ensures anew { NewJournalsCount P.seen B.seen }
    ensures again { OldJournalsCount P.seen B.seen }
{
    runs_add_up::<P, B>();
    journaled_laws();
}
