// What is listed of a journal.
use journal_layout::Live;
use journal_recover::RecoverFault;
use key_state::{Entry, Record};

/// All that stands in a journal.
#[derive(Drop)]
pub struct Listing {
    /// What the gate of its live area says.
    pub live: Live,
    /// The entry of each block by the live map, in block order: before the records.
    pub base: Vec<Entry>,
    /// The stored records, each with its sector and its place there, 0 to 29.
    pub records: Vec<(u64, u32, Record)>,
    /// The sectors of the live log past the end of the stored records that are headed for their place in the live epoch.
    pub unused: Vec<u64>,
    /// Where the other area is whole and of the epoch before: how many blocks have another entry there than in the live map.
    pub handover: Option<u32>,
}

/// Why a journal isn't listed.
#[derive(Drop)]
pub struct ListFault {
    /// The records before the damage, as in `Listing`.
    pub records: Vec<(u64, u32, Record)>,
    /// What recovery answers.
    pub why: RecoverFault,
}
