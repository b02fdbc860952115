// What a block's bytes can be.
use sector_stamp::Part;

/// What a block's bytes are beside its entry.
#[derive(Clone, Copy, Debug, PartialEq, Eq, Drop)]
pub enum Verdict {
    /// All sectors match the settled key.
    Clean,
    /// All sectors match the old key of a pending block, and not all match the new one.
    Old,
    /// All sectors match the new key of a pending block.
    New,
    /// Each sector of a pending block matches one of its keys, and neither key is that of all.
    Mixed,
    /// A sector matches no key that the entry permits: the first such one, counted from 0 in the block, and the first
    /// part in which it differs from the image of the settled or the new key.
    Corrupt { sector: u32, part: Part },
}
