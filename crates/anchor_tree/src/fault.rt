// Why there is no tree.
use std::alloc::AllocError;

/// Why a tree is refused.
#[derive(Clone, Copy, Debug, PartialEq, Eq, Drop)]
pub enum TreeFault {
    /// There is no level, directory, file or size, or a size is 0.
    Empty,
    /// The percentages don't add up to 100 but to this, held at the greatest u64.
    Percent { sum: u64 },
    /// There are more than 65,536 directories or 1,048,576 files; both counts are held at the greatest u64.
    TooLarge { directories: u64, files: u64 },
    /// Memory ran out.
    NoMemory,
}

impl From<AllocError> for TreeFault {
    ghost use Rattle.std.specs.Prelude.{◌≡◌};
    ghost use Rattle.anchor_tree.specs.declared.fault.TreeFault.TheVariants.{NoMemory};

    ghost from_gives = { λ _ fault. fault ≡ NoMemory };

    fn from(_: AllocError) -> TreeFault {
        TreeFault::NoMemory
    }
}
