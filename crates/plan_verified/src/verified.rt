// A store that was verified.
use key_state::Entry;

/// A store that was verified and whose passes are out.
#[derive(Drop)]
pub struct VerifiedStore<P> {
    /// Its passes, one for each block, in block order.
    pub passes: Vec<P>,
    /// The entry that each block has now, in block order.
    pub settled: Vec<Entry>,
}
