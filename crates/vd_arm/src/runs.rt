// Transfers of runs of blocks whose bytes are in memory.
ghost use Rattle.std.specs.Prelude.{◌≡◌, ◌++◌, ◌*◌, ◌≤◌, drop, length, map, take};
ghost use Rattle.vd_arm.specs.Held.{AreSized, Held, TookSectors, telling};
ghost use Rattle.vd_arm.specs.Transfers.{SameBlocks, TellParts, TookParts};

/// A pass whose block's bytes are in memory.
pub trait Holder: Drop {
    ghost held: { Self → Held };

    /// The bytes of its block.
    fn held_bytes(&self) -> &[u8]
        ensures { result.now ≡ (held self.now).bytes };

    /// Takes these bytes in the place of its own.
    fn put(&mut self, bytes: &[u8])
        requires { length bytes.now ≡ length (held self.old).bytes }
        ensures { held self.new ≡ record (held self.old) { bytes = bytes.now } };

    /// Takes these bytes in the place of its own, up to an end.
    fn put_front(&mut self, bytes: &[u8], end: usize)
        requires long { length bytes.now ≡ length (held self.old).bytes }
        requires within { end ≤ length (held self.old).bytes }
        ensures { held self.new ≡ record (held self.old) { bytes = take end bytes.now ++ drop end (held self.old).bytes } };
}

/// Reads the blocks of passes, which have this size, one behind the other.
pub fn read_each<P: Holder>(passes: &[P], size: usize, out: &mut [u8])
    requires sized { AreSized size (map (λ pass. telling (P.held pass)) passes.now) }
    requires long { length out.old ≡ length passes.now * size }
    ensures { TellParts (map (λ pass. telling (P.held pass)) passes.now) out.new }
{
    let Some((first, others)) = passes.split_first() else {
        return;
    };
    let (part, rest) = out.split_at_mut(size);
    part.copy_from_slice(first.held_bytes());
    read_each(others, size, rest);
}

/// Writes the blocks of passes, which have this size, one behind the other.
pub fn write_each<P: Holder>(passes: &mut [P], size: usize, bytes: &[u8])
    requires sized { AreSized size (map (λ pass. telling (P.held pass)) passes.old) }
    requires long { length bytes.now ≡ length passes.old * size }
    ensures blocks { SameBlocks (map (λ pass. telling (P.held pass)) passes.old) (map (λ pass. telling (P.held pass)) passes.new) }
    ensures took { TookParts bytes.now (map (λ pass. telling (P.held pass)) passes.old) (map (λ pass. telling (P.held pass)) passes.new) }
{
    let Some((first, others)) = passes.split_first_mut() else {
        return;
    };
    let (part, rest) = bytes.split_at(size);
    first.put(part);
    write_each(others, size, rest);
}

/// Writes so many first sectors of the blocks of passes, which have this size, one behind the other.
pub fn write_first_sectors<P: Holder>(passes: &mut [P], size: usize, bytes: &[u8], many: usize)
    requires sized { AreSized size (map (λ pass. telling (P.held pass)) passes.old) }
    requires long { length bytes.now ≡ length passes.old * size }
    ensures blocks { SameBlocks (map (λ pass. telling (P.held pass)) passes.old) (map (λ pass. telling (P.held pass)) passes.new) }
    ensures took { TookSectors many bytes.now (map (λ pass. telling (P.held pass)) passes.old) (map (λ pass. telling (P.held pass)) passes.new) }
{
    let Some((first, others)) = passes.split_first_mut() else {
        return;
    };
    let (part, rest) = bytes.split_at(size);
    let here = many.min(size / 512);
    first.put_front(part, 512 * here);
    write_first_sectors(others, size, rest, many - here);
}
