// Passes and an arm in memory that answers Ok and lies.
ghost use Rattle.std.specs.Prelude.{◌≡◌, ◌+◌, ◌*◌, ◌/◌, ◌^◌, ◌≤◌, ◌<◌, ℕ, None, length, map, true};
ghost use Rattle.vd_arm.specs.Addressed.{addressed};
ghost use Rattle.vd_arm.specs.Held.{AreSized};
ghost use Rattle.vd_arm.specs.LiarArm.{DidWrite, TookAddresses, inner_seen, lie_now, liar_arm_seen, liar_pass_held, liar_pass_seen, one_more_write, writes_of};
ghost use Rattle.vd_arm.specs.MemArm.{mem_pass_seen};
ghost use Rattle.vd_arm.specs.Transfers.{SameBlocks, sector_in};

use crate::memory::MemPass;
use crate::runs::{Holder, read_each, write_each, write_first_sectors};
use crate::{Arm, Pass};
use vd_base::BlockNo;
use vd_outside::Failed;

/// What a write does in the place of what it was asked, though it answers Ok.
#[derive(Clone, Copy, Debug, PartialEq, Eq, Drop)]
pub enum Lie {
    /// Nothing is written.
    Drop,
    /// The sectors are written with the addresses of the blocks from this one on, in their bytes 0 to 7.
    Swap(u32),
    /// So many first sectors alone are written.
    Tear(u32),
}

/// A pass that owns the bytes of its block and tells nothing.
#[derive(Drop)]
pub struct LiarPass {
    inner: MemPass,
}

impl LiarPass {
    /// The pass of the inner one's block.
    pub fn new(inner: MemPass) -> LiarPass
        ensures inner { inner_seen result ≡ mem_pass_seen inner }
        ensures seen { liar_pass_seen result ≡ record (mem_pass_seen inner) { told = None } }
    {
        LiarPass { inner }
    }

    /// Gives the inner pass back.
    pub fn into_inner(self) -> MemPass
        ensures { mem_pass_seen result ≡ inner_seen self }
    {
        self.inner
    }

    /// Takes these bytes in the place of its own, with the address of the first sector, and of each that follows.
    fn put_addressed(&mut self, bytes: &[u8], address: u64)
        requires { length bytes.now ≡ length (liar_pass_held self.old).bytes }
        ensures block { (liar_pass_held self.new).block ≡ (liar_pass_held self.old).block }
        ensures many { length (liar_pass_held self.new).bytes ≡ length bytes.now }
        ensures each { (j : ℕ) → j < length bytes.now / 512 → sector_in (liar_pass_held self.new).bytes j ≡ addressed (address + 512 * j) (sector_in bytes.now j) }
    {
        self.inner.put(bytes);
        self.inner.put_addresses(address);
    }
}

impl Pass for LiarPass {
    ghost use Rattle.vd_arm.specs.LiarArm.{liar_pass_seen, liar_pass_tells};

    ghost seen = { liar_pass_seen };

    ghost as_many = { liar_pass_tells };

    fn block(&self) -> BlockNo {
        self.inner.block()
    }
}

impl Holder for LiarPass {
    ghost use Rattle.vd_arm.specs.LiarArm.{liar_pass_held};

    ghost held = { liar_pass_held };

    fn held_bytes(&self) -> &[u8] {
        self.inner.held_bytes()
    }

    fn put(&mut self, bytes: &[u8]) {
        self.inner.put(bytes);
    }

    fn put_front(&mut self, bytes: &[u8], end: usize) {
        self.inner.put_front(bytes, end);
    }
}

/// An arm in memory no call of which fails, and whose listed writes lie.
#[derive(Drop)]
pub struct LiarArm {
    lies: Vec<(u64, Lie)>,
    writes: u64,
    good_reads: u64,
    good_writes: u64,
}

impl LiarArm {
    /// An arm whose writes with these numbers lie, counted from 0.
    pub fn new(lies: Vec<(u64, Lie)>) -> LiarArm
        ensures seen { liar_arm_seen result ≡ record { faults = 0; good_reads = 0; good_writes = 0; sure = true } }
        ensures writes { writes_of result ≡ record { lies = lies.items; made = 0 } }
    {
        LiarArm {
            lies,
            writes: 0,
            good_reads: 0,
            good_writes: 0,
        }
    }

    /// How many blocks were read well, modulo 2^64.
    pub fn good_reads(&self) -> u64
        ensures { result ≡ (liar_arm_seen self.now).good_reads }
    {
        self.good_reads
    }

    /// How many blocks were written well by its answers, modulo 2^64.
    pub fn good_writes(&self) -> u64
        ensures { result ≡ (liar_arm_seen self.now).good_writes }
    {
        self.good_writes
    }

    /// Counts a write, and gives its lie, if it is listed.
    fn next_lie(&mut self) -> Option<Lie>
        ensures lie { result ≡ lie_now (writes_of self.old) }
        ensures writes { writes_of self.new ≡ one_more_write (writes_of self.old) }
        ensures seen { liar_arm_seen self.new ≡ liar_arm_seen self.old }
    {
        let write = self.writes;
        self.writes = write.saturating_add(1);
        match self.lies.iter().find(|(number, _)| *number == write) {
            Some((_, lie)) => Some(*lie),
            None => None,
        }
    }
}

/// Writes the blocks of passes, which have this size, one behind the other, with the addresses of the blocks from another one on.
fn write_addressed(passes: &mut [LiarPass], size: usize, bytes: &[u8], other: u64)
    requires sized { AreSized size (map inner_seen passes.old) }
    requires long { length bytes.now ≡ length passes.old * size }
    requires few { other + length passes.old < 2 ^ 64 }
    ensures blocks { SameBlocks (map inner_seen passes.old) (map inner_seen passes.new) }
    ensures took { TookAddresses other bytes.now (map inner_seen passes.old) (map inner_seen passes.new) }
{
    let Some((first, others)) = passes.split_first_mut() else {
        return;
    };
    let (part, rest) = bytes.split_at(size);
    first.put_addressed(part, other.wrapping_mul(size as u64));
    write_addressed(others, size, rest, other + 1);
}

/// Writes the blocks of passes, which have this size, as this lie says, or as it was asked.
fn write_as(passes: &mut [LiarPass], size: usize, bytes: &[u8], lie: Option<Lie>)
    requires sized { AreSized size (map inner_seen passes.old) }
    requires long { length bytes.now ≡ length passes.old * size }
    requires few { length passes.old ≤ 64 }
    ensures blocks { SameBlocks (map inner_seen passes.old) (map inner_seen passes.new) }
    ensures did { DidWrite lie bytes.now (map inner_seen passes.old) (map inner_seen passes.new) }
{
    match lie {
        None => write_each(passes, size, bytes),
        Some(Lie::Drop) => {}
        Some(Lie::Swap(other)) => write_addressed(passes, size, bytes, other as u64),
        Some(Lie::Tear(many)) => write_first_sectors(passes, size, bytes, many as usize),
    }
}

impl Arm for LiarArm {
    ghost use Rattle.std.specs.Prelude.{IsOk, List, OnErr, OnOk, Some};
    ghost use Rattle.vd_arm.specs.Arm.{Reads};
    ghost use Rattle.vd_arm.specs.Transfers.{IsTransfer, TellParts, TookParts, TornParts, Writes};
    ghost use Rattle.vd_outside.specs.Causes.{HasCause, StaysSure};

    type Pass = LiarPass;

    ghost seen = { liar_arm_seen };

    fn read(&mut self, pass: &LiarPass, out: &mut [u8]) -> Result<(), Failed>
        requires { length out.old ≡ (liar_pass_seen pass.now).size }
        ensures gives { (bytes : List ℕ) → (liar_pass_seen pass.now).told ≡ Some bytes → OnOk result (out.new ≡ bytes) }
        ensures cause { HasCause (liar_arm_seen self.old).faults (liar_arm_seen self.new).faults result }
        ensures counts { Reads 1 (liar_arm_seen self.old) (liar_arm_seen self.new) result }
        ensures sure { StaysSure (liar_arm_seen self.old).sure (liar_arm_seen self.new).sure (liar_arm_seen self.old).faults (liar_arm_seen self.new).faults }
        ensures ok { IsOk result }
        ensures inner { (inner_seen pass.now).told ≡ Some out.new }
        ensures writes { writes_of self.new ≡ writes_of self.old }
    {
        out.copy_from_slice(pass.held_bytes());
        self.good_reads = self.good_reads.wrapping_add(1);
        Ok(())
    }

    fn read_run(&mut self, passes: &mut [LiarPass], out: &mut [u8]) -> Result<(), Failed>
        requires many { (1 ≤ length passes.old) × (length passes.old ≤ 64) }
        requires transfer { IsTransfer (map liar_pass_seen passes.old) (length out.old) }
        ensures same { passes.new ≡ passes.old }
        ensures gives { OnOk result (TellParts (map liar_pass_seen passes.old) out.new) }
        ensures cause { HasCause (liar_arm_seen self.old).faults (liar_arm_seen self.new).faults result }
        ensures counts { Reads (length passes.old) (liar_arm_seen self.old) (liar_arm_seen self.new) result }
        ensures sure { StaysSure (liar_arm_seen self.old).sure (liar_arm_seen self.new).sure (liar_arm_seen self.old).faults (liar_arm_seen self.new).faults }
        ensures ok { IsOk result }
        ensures inner { TellParts (map inner_seen passes.old) out.new }
        ensures writes { writes_of self.new ≡ writes_of self.old }
    {
        let size = passes[0].held_bytes().len();
        read_each(passes, size, out);
        self.good_reads = self.good_reads.wrapping_add(passes.len() as u64);
        Ok(())
    }

    /// What it writes is said by the lie that is listed for it.
    fn write_run(&mut self, passes: &mut [LiarPass], bytes: &[u8]) -> Result<(), Failed>
        requires many { (1 ≤ length passes.old) × (length passes.old ≤ 64) }
        requires transfer { IsTransfer (map liar_pass_seen passes.old) (length bytes.now) }
        ensures blocks { SameBlocks (map liar_pass_seen passes.old) (map liar_pass_seen passes.new) }
        ensures written { OnOk result (TookParts bytes.now (map liar_pass_seen passes.old) (map liar_pass_seen passes.new)) }
        ensures torn { OnErr result (TornParts bytes.now (map liar_pass_seen passes.old) (map liar_pass_seen passes.new)) }
        ensures cause { HasCause (liar_arm_seen self.old).faults (liar_arm_seen self.new).faults result }
        ensures counts { Writes (length passes.old) (liar_arm_seen self.old) (liar_arm_seen self.new) result }
        ensures sure { StaysSure (liar_arm_seen self.old).sure (liar_arm_seen self.new).sure (liar_arm_seen self.old).faults (liar_arm_seen self.new).faults }
        ensures ok { IsOk result }
        ensures inner { SameBlocks (map inner_seen passes.old) (map inner_seen passes.new) }
        ensures did { DidWrite (lie_now (writes_of self.old)) bytes.now (map inner_seen passes.old) (map inner_seen passes.new) }
        ensures writes { writes_of self.new ≡ one_more_write (writes_of self.old) }
    {
        let size = passes[0].held_bytes().len();
        let lie = self.next_lie();
        write_as(passes, size, bytes, lie);
        self.good_writes = self.good_writes.wrapping_add(passes.len() as u64);
        Ok(())
    }
}

#[cfg(test)]
mod tests {
    use super::*;
    use std::process::Abort;

    /// A pass of twos in the place of ones, written by this lie.
    fn written<R: Abort + AllocGlobal>(rt: &R, lie: Lie) -> MemPass {
        let alloc = rt.alloc();
        let bytes = Vec::from_slice(alloc, &[1; 1024]).expect(rt, "memory");
        let mut passes = [LiarPass::new(MemPass::new(BlockNo(2), bytes))];
        let lies = Vec::from_slice(alloc, &[(0, lie)]).expect(rt, "memory");
        let mut arm = LiarArm::new(lies);
        assert!(rt; arm.write_run(&mut passes, &[2; 1024]).is_ok());
        assert_eq!(rt; (arm.good_reads(), arm.good_writes()), (0, 1));
        let [pass] = passes;
        pass.into_inner()
    }

    #[test]
    fn each_lie_is_told(rt: HostRuntime) {
        assert_eq!(rt; written(&rt, Lie::Drop).bytes(), [1; 1024].as_slice());
        let mut torn = [1; 1024];
        torn[..512].fill(2);
        assert_eq!(rt; written(&rt, Lie::Tear(1)).bytes(), torn.as_slice());
        let mut swapped = [2; 1024];
        // Block 7 begins at 7168, which is 28 times 256.
        swapped[..8].copy_from_slice(&[0, 0, 0, 0, 0, 0, 28, 0]);
        swapped[512..520].copy_from_slice(&[0, 0, 0, 0, 0, 0, 30, 0]);
        assert_eq!(rt; written(&rt, Lie::Swap(7)).bytes(), swapped.as_slice());
    }
}
