// Run definitions.
use vd_list::Items;
use vd_outside::Text;

/// A run definition.
#[derive(Drop)]
pub struct RdDef {
    /// Its first line, from 1.
    pub line: u32,
    pub name: Text,
    /// Seconds, 1 to 8,640,000.
    pub elapsed: u64,
    /// `no`, `yes` or `only`.
    pub format: Text,
    /// Percentages, in order.
    pub forrdpct: Items<u64>,
    /// Numbers of workers, 1 to 256, in order.
    pub forthreads: Items<u64>,
    /// Bytes of a transfer, multiples of 512 up to 1,048,576, in order.
    pub forxfersize: Items<u64>,
    /// Patterns of workloads over files.
    pub fwd: Items<Text>,
    /// As `iorate`, for a run with `fwd`.
    pub fwdrate: u64,
    /// Seconds, 1 to 8,640,000.
    pub interval: u64,
    /// Turns a second, 1 to 10,000,000, or 0 for `max`.
    pub iorate: u64,
    /// Kept, without effect.
    pub openflags: Items<Text>,
    /// The turns of each worker, 1 to 4,294,967,295.
    pub turns: u64,
    /// Patterns of workloads.
    pub wd: Items<Text>,
    /// Of `forthreads`, `forxfersize` and `forrdpct` those that it has, from the outermost loop on.
    pub loops: Items<Text>,
}
