// Which of two statuses a command ends with.
ghost use Rattle.std.specs.Prelude.{◌≡◌, nat_lt};
ghost use Rattle.std.specs.List.{list_any};
ghost use Rattle.plan_runs.specs.Statuses.{tallies_status, weight_of, worse as worse_of};

use run_report::Status;
use worker_tally::Tally;

fn weight(status: Status) -> u8
    ensures { result ≡ weight_of status }
{
    match status {
        Status::Good => 0,
        Status::Corrupt => 1,
        Status::Device => 2,
        Status::EpochEnd => 3,
        Status::Journal => 4,
        _ => 5,
    }
}

/// The status of two parts of a command, one after the other.
pub fn worse(first: Status, rest: Status) -> Status
    ensures { result ≡ worse_of first rest }
{
    if weight(first) < weight(rest) {
        rest
    } else {
        first
    }
}

fn some_failed(tallies: &[Tally]) -> bool
    ensures { result ≡ list_any (λ tally. nat_lt 0 tally.numbers.faults) tallies.now }
{
    tallies.iter().any(|tally| tally.numbers().faults > 0)
}

fn some_corrupt(tallies: &[Tally]) -> bool
    ensures { result ≡ list_any (λ tally. nat_lt 0 tally.numbers.corrupt) tallies.now }
{
    tallies.iter().any(|tally| tally.numbers().corrupt > 0)
}

/// What the tallies of a run's workers say.
pub(crate) fn status_of(tallies: &[Tally]) -> Status
    ensures { result ≡ tallies_status tallies.now }
{
    if some_failed(tallies) {
        return Status::Device;
    }
    if some_corrupt(tallies) {
        return Status::Corrupt;
    }
    Status::Good
}
