// General parameters, and hosts.
use vd_list::Items;
use vd_outside::Text;

/// The general parameters of a file.
#[derive(Drop)]
pub struct General {
    /// `yes` or `no`.
    pub create_anchors: Text,
    /// The number of errors that ends the work, 1 to 10,000.
    pub data_errors: u64,
    /// The log sectors of one area of a new journal, 1 to 65,536.
    pub journal_sectors: u64,
    /// `yes` or `no`, without effect.
    pub messagescan: Text,
    /// Of `yes`, `no_preread` and `read_after_write`, those that are given.
    pub validate: Items<Text>,
}

/// A host: always this machine.
#[derive(Drop)]
pub struct HdDef {
    /// Its first line, from 1.
    pub line: u32,
    pub name: Text,
    /// Its slaves, 1 to 16.
    pub jvms: u64,
    /// A path, or empty; without effect.
    pub shell: Text,
    /// `localhost`.
    pub system: Text,
    /// A path, or empty; without effect.
    pub user: Text,
    /// A path, or empty; without effect.
    pub vdbench: Text,
}
