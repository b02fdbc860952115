// What any number of calls keeps.
ghost use Rattle.worker_tally.specs.Laws.{DoneAddsUp, DoneIsOneMore, DoneTurns, EmptyAddsUp, EmptyIsUpTo, FewAreSmall, FindingAddsUp, FindingIsNone, FindingTurns, RefusalAddsUp, RefusalIsOneMore, RefusalTurns, RowsFit};

/// Each turn adds at most 2^28 to each number, so a tally of at most 2^32 turns may always take one more.
pub fn turns_stay_small()
    ensures small { FewAreSmall }
    ensures empty { EmptyIsUpTo }
    ensures done { DoneIsOneMore }
    ensures refusal { RefusalIsOneMore }
    ensures finding { FindingIsNone }
{}

/// The rows have together the reads, writes and bytes of the numbers, and one turn for each one that called its device.
pub fn rows_add_up()
    ensures empty { EmptyAddsUp }
    ensures done { DoneAddsUp }
    ensures refusal { RefusalAddsUp }
    ensures finding { FindingAddsUp }
    ensures done_turns { DoneTurns }
    ensures refusal_turns { RefusalTurns }
    ensures finding_turns { FindingTurns }
{}

/// There are never more rows than intervals.
pub fn rows_fit()
    ensures { RowsFit }
{}
