// The live area.
use vd_base::StoreId;

/// What the gate of the live area says: that of the valid gate with the greater epoch.
#[derive(Clone, Copy, Debug, PartialEq, Eq, Drop)]
pub struct Live {
    /// 1 or 2: which records its log may have.
    pub version: u8,
    /// Below 2^63. Its remainder by 2 is the area.
    pub epoch: u64,
    /// The store.
    pub id: StoreId,
    /// How many sectors each log has: 1 to 65,536.
    pub log_sectors: u32,
}
