// What contracts see of a book of entries. No value of these types is made: they are plain data that clauses speak of.
use crate::Entry;
use std::collections::LinkedList;
use vd_base::{Sector, StoreId};

/// What a book was opened over, and how. Only a turnover that is asked for changes it, and that changes `turned_over` alone.
pub struct Origin {
    /// The moments of its disk as the opening began, the oldest first: each gives for each sector the contents that a stop could
    /// leave. Empty where the disk tells nothing.
    pub began: LinkedList<LinkedList<LinkedList<Sector>>>,
    /// The moments as the opening ended.
    pub opened: LinkedList<LinkedList<LinkedList<Sector>>>,
    /// The disk's sectors as read as the opening began, where it tells them.
    pub told: Option<LinkedList<Sector>>,
    /// The disk's count of faults as the opening began.
    pub faults: u64,
    /// The store that the book is of, where it is a journal.
    pub id: Option<StoreId>,
    /// The log sectors of an area; 0 without a journal.
    pub log_sectors: u32,
    /// The epoch that was opened; 0 without a journal.
    pub epoch: u64,
    /// The entries that it was opened with.
    pub entries: LinkedList<Entry>,
    /// Whether a turnover was asked for since.
    pub turned_over: bool,
}

/// A book as contracts see it.
pub struct BookSeen {
    pub origin: Origin,
    /// The epoch now; 0 without a journal.
    pub epoch: u64,
    /// Its count of faults: that of its disk, where it has one.
    pub faults: u64,
    /// How many records the epoch had when a call of the book failed, where one did.
    pub stopped: Option<u64>,
    /// Whether it takes no more records: it is stopped, or its log is full in the last epoch.
    pub shut: bool,
    /// The entry of each block now.
    pub now: LinkedList<Entry>,
    /// An entry of each block that a stop can't take back; more may outlive it. A book without a journal has its entries here, and
    /// promises nothing of a stop.
    pub synced: LinkedList<Entry>,
    /// How many writes were ended since the opening, modulo 2^64.
    pub ends: u64,
    /// How many blocks that weren't settled at 0 were cleared since the opening, modulo 2^64.
    pub clears: u64,
}
