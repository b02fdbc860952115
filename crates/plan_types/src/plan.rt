// A whole plan.
use crate::run::RunPlan;
use crate::store::StorePlan;
use vd_list::Items;

/// What a parameter file asks for.
#[derive(Drop)]
pub struct Plan {
    /// In order of definition.
    pub stores: Items<StorePlan>,
    /// By their numbers.
    pub runs: Items<RunPlan>,
    /// Whether a block that was written before is read and checked before it is written again.
    pub preread: bool,
    /// Whether a block is read and checked after it was written.
    pub reread: bool,
    /// The number of errors that ends the work.
    pub data_errors: u32,
    /// The log sectors of one area of a new journal.
    pub journal_sectors: u32,
    /// Whether the directory of a tree is made where it isn't there.
    pub create_anchors: bool,
}
