// Stores, and workloads over them.
use vd_list::Items;
use vd_outside::Text;

/// A storage definition: a file or a device.
#[derive(Drop)]
pub struct SdDef {
    /// Its first line, from 1.
    pub line: u32,
    /// With its number, where it was counted.
    pub name: Text,
    /// Empty: a counted definition stands in the list once for each of its numbers.
    pub count: Items<u64>,
    /// Patterns of hosts.
    pub host: Items<Text>,
    /// The path of its journal.
    pub journal: Text,
    /// The bytes of a block: a multiple of 512 up to 1,048,576.
    pub keyblock: Option<u64>,
    /// The path of its data.
    pub lun: Option<Text>,
    /// Kept and printed, without another effect.
    pub openflags: Items<Text>,
    /// Its bytes.
    pub size: Option<u64>,
    /// Its workers, 1 to 256.
    pub threads: u64,
}

/// A workload over storage definitions.
#[derive(Drop)]
pub struct WdDef {
    /// Its first line, from 1.
    pub line: u32,
    pub name: Text,
    /// Patterns of hosts.
    pub host: Items<Text>,
    /// Of 100 turns, so many read.
    pub rdpct: u64,
    /// Patterns of stores.
    pub sd: Items<Text>,
    /// Of 100 turns, so many go to a random block.
    pub seekpct: u64,
    /// Its weight, 1 to 100.
    pub skew: Option<u64>,
    /// The bytes of a transfer: a multiple of 512 up to 1,048,576.
    pub xfersize: u64,
}
