// What recovery finds.
use journal_layout::Live;
use key_state::Entry;

/// What a journal gives for its store.
#[derive(Drop)]
pub struct Recovered {
    /// What the gate of its live area says.
    pub live: Live,
    /// How many records its log has.
    pub records: u64,
    /// The entry of each block, in block order.
    pub entries: Vec<Entry>,
}
