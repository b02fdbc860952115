// What holds of every list of records.
ghost use Rattle.key_state.specs.Books.{StepsAreStates};
ghost use Rattle.key_state.specs.Entries.{HistoryIsLegal, StatesAppend, EntriesStay};

/// A list of records is legal block by block exactly where it is legal record by record.
pub fn history_is_legal()
    ensures { HistoryIsLegal }
{}

/// The states after two lists are those of the second one from the states of the first, and one legal history behind another
/// is a legal history.
pub fn states_append()
    ensures { StatesAppend }
{}

/// The states of a legal history are valid entries, one for each block.
pub fn entries_stay()
    ensures { EntriesStay }
{}

/// Where each block of a legal record took its step, and no other block did, these are the states after that record.
pub fn steps_are_states()
    ensures { StepsAreStates }
{}
