// A store of a plan.
use vd_base::StoreId;
use vd_outside::Text;

/// One store: a file or a device whose contents are blocks of one size.
#[derive(Drop)]
pub struct StorePlan {
    /// Its name and geometry.
    pub id: StoreId,
    /// Where its data is.
    pub path: Text,
    /// Where its journal is.
    pub journal: Text,
    /// How many workers it has, unless a run says otherwise.
    pub threads: u32,
    /// Kept and printed, without another effect.
    pub openflags: Text,
}
