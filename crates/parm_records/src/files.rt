// File systems, and workloads over them.
use vd_list::Items;
use vd_outside::Text;

/// A file system definition: a tree of directories and files.
#[derive(Drop)]
pub struct FsdDef {
    /// Its first line, from 1.
    pub line: u32,
    /// With its number, where it was counted.
    pub name: Text,
    /// The path of the tree's root.
    pub anchor: Option<Text>,
    /// Empty: a counted definition stands in the list once for each of its numbers.
    pub count: Items<u64>,
    /// The levels of directories, 1 to 1,048,576.
    pub depth: Option<u64>,
    /// `bottom` or `all`.
    pub distribution: Text,
    /// The files of a directory, 1 to 1,048,576.
    pub files: Option<u64>,
    /// The path of its journal.
    pub journal: Text,
    /// The bytes of a block: a multiple of 512 up to 1,048,576.
    pub keyblock: Option<u64>,
    /// Kept and printed, without another effect.
    pub openflags: Items<Text>,
    /// `no`; without effect.
    pub shared: Text,
    /// One size, or sizes and percentages in turn; empty where it isn't given.
    pub sizes: Items<u64>,
    /// The directories in a directory, 1 to 1,048,576.
    pub width: Option<u64>,
}

/// A workload over file systems.
#[derive(Drop)]
pub struct FwdDef {
    /// Its first line, from 1.
    pub line: u32,
    pub name: Text,
    /// `random` or `sequential`.
    pub fileio: Text,
    /// `random` or `sequential`, without effect.
    pub fileselect: Text,
    /// Patterns of file systems.
    pub fsd: Items<Text>,
    /// Patterns of hosts.
    pub host: Items<Text>,
    /// `read` or `write`.
    pub operation: Text,
    /// Of 100 turns, so many read; where it isn't given, `operation` says which: 100 for `read`, 0 for `write`.
    pub rdpct: u64,
    /// Its weight, 1 to 100.
    pub skew: Option<u64>,
    /// Its workers, 1 to 256.
    pub threads: u64,
    /// The bytes of a transfer: a multiple of 512 up to 1,048,576.
    pub xfersize: u64,
}
