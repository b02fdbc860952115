// What is reported of a block.
use crate::Verdict;
use key_state::Entry;
use sector_stamp::Part;
use vd_base::{BlockNo, Key};

/// What was found at a block that isn't settled and clean.
#[derive(Clone, Copy, Debug, PartialEq, Eq, Drop)]
pub enum Finding {
    /// Its bytes don't fit the entry that it had.
    Corrupt {
        block: BlockNo,
        entry: Entry,
        sector: u32,
        part: Part,
    },
    /// A write of it is pending; `holds` says which of both keys its bytes have.
    Pending {
        block: BlockNo,
        old: Key,
        new: Key,
        holds: Verdict,
    },
    /// It couldn't be read.
    ReadFault {
        block: BlockNo,
    },
    /// It couldn't be written.
    WriteFault {
        block: BlockNo,
    },
}
