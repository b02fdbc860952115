// What a worker's turns add up to, and what they have to do with its draw.
ghost use Rattle.slave_worker.specs.Drawn.{AllTurnsAddUp, BadSkipsAreNone, BlocksAreUsed, NoMoreThanDrawn, OneBlockTurnsAddUp, OneWorkerDoesItsDraw, OneWorkerIsNeverBusy, RereadsAreWrites, StillRunsMakeAllTurns, TurnsAreDrawn, TurnsAreFew};
ghost use Rattle.slave_worker.specs.Sentences.{BytesAreMoved, CorruptAreBad, FaultsAreCounted, FaultsAreFound, NoMoreCorrupt, NotedOnce, PrereadsOfTurns, ReadsAreGood, ReadsOfTurns, RefusalsAreMet, RereadsOfTurns, RowsAddUp, RowsHaveTurns, RowsMissOne, WritesAreEnded, WritesAreGood};

use worker_tally::rows_add_up;

/// What a worker's numbers, lists and calls have to do with each other, whatever its turns were: by the list of turns that `work` and
/// `one_turn` tell of.
pub fn turns_add_up()
    ensures writes { WritesAreEnded }
    ensures corrupt { CorruptAreBad }
    ensures no_more { NoMoreCorrupt }
    ensures reads { ReadsAreGood }
    ensures good_writes { WritesAreGood }
    ensures faults { FaultsAreCounted }
    ensures findings { FaultsAreFound }
    ensures notes { NotedOnce }
    ensures rows { RowsHaveTurns }
    ensures rows_but_one { RowsMissOne }
    ensures sums { RowsAddUp }
    ensures read_turns { ReadsOfTurns }
    ensures preread_turns { PrereadsOfTurns }
    ensures reread_turns { RereadsOfTurns }
    ensures refusals { RefusalsAreMet }
    ensures bytes { BytesAreMoved }
{
    rows_add_up();
}

/// What a worker's numbers have to do with the turns of its draw, by what `work` tells of it; and what those of all workers of a store,
/// whose table was closed, have to do with the blocks that were drawn.
pub fn draws_add_up()
    ensures drawn { TurnsAreDrawn }
    ensures few { TurnsAreFew }
    ensures still { StillRunsMakeAllTurns }
    ensures all_turns { AllTurnsAddUp }
    ensures rereads { RereadsAreWrites }
    ensures one_block { OneBlockTurnsAddUp }
    ensures no_more { NoMoreThanDrawn }
    ensures never_busy { OneWorkerIsNeverBusy }
    ensures whole_draw { OneWorkerDoesItsDraw }
    ensures no_badskips { BadSkipsAreNone }
    ensures used { BlocksAreUsed }
{
    rows_add_up();
}
