// Passes and an arm in memory.
ghost use Rattle.std.specs.Prelude.{◌≡◌, ◌*◌, ◌+◌, ◌++◌, ◌/◌, ◌<◌, ◌≤◌, Some, drop, false, length, map, take, ℕ};
ghost use Rattle.vd_arm.specs.Held.{TookSectors};
ghost use Rattle.vd_arm.specs.Addressed.{addressed};
ghost use Rattle.vd_arm.specs.MemArm.{mem_pass_held, mem_pass_seen};
ghost use Rattle.vd_arm.specs.Transfers.{SameBlocks, TellParts, TookParts, sector_in};
ghost use Rattle.vd_outside.specs.Causes.{Rose};
ghost use Rattle.vd_outside.specs.Streams.{is_empty};

use crate::runs::{Holder, read_each, write_each, write_first_sectors};
use crate::{Arm, Pass};
use vd_base::BlockNo;
use vd_outside::Failed;

/// A pass that owns the bytes of its block.
#[derive(Drop)]
pub struct MemPass {
    block: BlockNo,
    bytes: Vec<u8>,
}

impl MemPass {
    /// The pass of a block that holds these bytes, whose number is its size.
    pub fn new(block: BlockNo, bytes: Vec<u8>) -> MemPass
        ensures { ⟦<MemPass as Pass>⟧.seen result ≡ record { block = block.0; size = length bytes.items; told = Some bytes.items } }
    {
        MemPass { block, bytes }
    }

    /// Gives back the bytes of its block.
    pub fn into_bytes(self) -> Vec<u8>
        ensures { (⟦<MemPass as Pass>⟧.seen self).told ≡ Some result.items }
    {
        self.bytes
    }

    /// The bytes of its block.
    pub fn bytes(&self) -> &[u8]
        ensures { (⟦<MemPass as Pass>⟧.seen self.now).told ≡ Some result.now }
    {
        &self.bytes
    }

    /// Puts the address of the first sector, and of each that follows, into the sectors' bytes 0 to 7.
    pub(crate) fn put_addresses(&mut self, address: u64)
        ensures block { (mem_pass_held self.new).block ≡ (mem_pass_held self.old).block }
        ensures many { length (mem_pass_held self.new).bytes ≡ length (mem_pass_held self.old).bytes }
        ensures each { (j : ℕ) → j < length (mem_pass_held self.old).bytes / 512 →
            sector_in (mem_pass_held self.new).bytes j ≡ addressed (address + 512 * j) (sector_in (mem_pass_held self.old).bytes j) }
    {
        put_addresses(&mut self.bytes, address);
    }
}

impl Holder for MemPass {
    ghost use Rattle.vd_arm.specs.MemArm.{mem_pass_held};

    ghost held = { mem_pass_held };

    fn held_bytes(&self) -> &[u8] {
        &self.bytes
    }

    fn put(&mut self, bytes: &[u8]) {
        self.bytes.copy_from_slice(bytes);
    }

    fn put_front(&mut self, bytes: &[u8], end: usize) {
        copy_front(&mut self.bytes, bytes, end);
    }
}

/// Puts the address of the first sector, and of each that follows, into the sectors' bytes 0 to 7.
fn put_addresses(bytes: &mut [u8], address: u64)
    ensures many { length bytes.new ≡ length bytes.old }
    ensures each { (j : ℕ) → j < length bytes.old / 512 → sector_in bytes.new j ≡ addressed (address + 512 * j) (sector_in bytes.old j) }
{
    if bytes.len() < 512 {
        return;
    }
    let (sector, rest) = bytes.split_at_mut(512);
    let (head, _) = sector.split_at_mut(8);
    head.copy_from_slice(&address.to_be_bytes());
    put_addresses(rest, address.wrapping_add(512));
}

/// Copies the first bytes of others, of which there are as many.
fn copy_front(out: &mut [u8], bytes: &[u8], end: usize)
    requires long { length bytes.now ≡ length out.old }
    requires within { end ≤ length out.old }
    ensures { out.new ≡ take end bytes.now ++ drop end out.old }
{
    out[..end].copy_from_slice(&bytes[..end]);
}

impl Pass for MemPass {
    ghost use Rattle.vd_arm.specs.MemArm.{mem_pass_seen, mem_pass_tells};

    ghost seen = { mem_pass_seen };

    ghost as_many = { mem_pass_tells };

    fn block(&self) -> BlockNo {
        self.block
    }
}

/// An arm in memory, whose listed calls fail.
#[derive(Drop)]
pub struct MemArm {
    failing: Vec<(u64, u32)>,
    calls: u64,
    faults: u64,
    good_reads: u64,
    good_writes: u64,
    tells_sure: bool,
}

impl MemArm {
    ghost use Rattle.vd_arm.specs.MemArm.{calls_of, fails_now, mem_arm_seen, one_more, torn_now};

    /// An arm whose calls with these first numbers fail, counted from 0. The second number is that of first sectors that a failed
    /// write changes.
    pub fn new(failing: Vec<(u64, u32)>) -> MemArm
        ensures seen { mem_arm_seen result ≡ record { faults = 0; good_reads = 0; good_writes = 0; sure = is_empty failing.items } }
        ensures calls { calls_of result ≡ record { failing = failing.items; made = 0 } }
    {
        MemArm {
            failing,
            calls: 0,
            faults: 0,
            good_reads: 0,
            good_writes: 0,
            tells_sure: true,
        }
    }

    /// As `new`, but the arm doesn't tell whether it is sure.
    pub fn unsure(failing: Vec<(u64, u32)>) -> MemArm
        ensures seen { mem_arm_seen result ≡ record { faults = 0; good_reads = 0; good_writes = 0; sure = false } }
        ensures calls { calls_of result ≡ record { failing = failing.items; made = 0 } }
    {
        MemArm {
            failing,
            calls: 0,
            faults: 0,
            good_reads: 0,
            good_writes: 0,
            tells_sure: false,
        }
    }

    /// How often a call failed.
    pub fn faults(&self) -> u64
        ensures { result ≡ (mem_arm_seen self.now).faults }
    {
        self.faults
    }

    /// How many blocks were read well, modulo 2^64.
    pub fn good_reads(&self) -> u64
        ensures { result ≡ (mem_arm_seen self.now).good_reads }
    {
        self.good_reads
    }

    /// How many blocks were written well, modulo 2^64.
    pub fn good_writes(&self) -> u64
        ensures { result ≡ (mem_arm_seen self.now).good_writes }
    {
        self.good_writes
    }

    /// Counts a call, and says whether it fails.
    fn next_fails(&mut self) -> bool
        ensures answer { result ≡ fails_now (calls_of self.old) }
        ensures calls { calls_of self.new ≡ one_more (calls_of self.old) }
        ensures seen { mem_arm_seen self.new ≡ mem_arm_seen self.old }
    {
        let call = self.calls;
        self.calls = call.saturating_add(1);
        self.failing.iter().any(|(number, _)| *number == call)
    }

    /// Counts a fault.
    fn fault(&mut self) -> Failed
        ensures later { (mem_arm_seen self.old).faults ≤ (mem_arm_seen self.new).faults }
        ensures rose { Rose (mem_arm_seen self.old).faults (mem_arm_seen self.new).faults }
        ensures others { mem_arm_seen self.new ≡ record (mem_arm_seen self.old) { faults = (mem_arm_seen self.new).faults } }
        ensures calls { calls_of self.new ≡ calls_of self.old }
    {
        self.faults = self.faults.saturating_add(1);
        Failed
    }

    /// How many first sectors the next call changes, where it is a write and fails.
    fn next_torn(&self) -> u32
        ensures { result ≡ torn_now (calls_of self.now) }
    {
        let call = self.calls;
        match self.failing.iter().find(|(number, _)| *number == call) {
            Some((_, sectors)) => *sectors,
            None => 0,
        }
    }
}

impl Arm for MemArm {
    ghost use Rattle.std.specs.Prelude.{◌↔◌, IsErr, IsTrue, List, OnErr, OnOk, ℕ};
    ghost use Rattle.vd_arm.specs.Arm.{Reads};
    ghost use Rattle.vd_arm.specs.MemArm.{calls_of, fails_now, mem_arm_seen, one_more, torn_now};
    ghost use Rattle.vd_arm.specs.Transfers.{IsTransfer, TornParts, Writes};
    ghost use Rattle.vd_outside.specs.Causes.{HasCause, StaysSure};

    type Pass = MemPass;

    ghost seen = { mem_arm_seen };

    fn read(&mut self, pass: &MemPass, out: &mut [u8]) -> Result<(), Failed>
        requires { length out.old ≡ (⟦<MemPass as Pass>⟧.seen pass.now).size }
        ensures gives { (bytes : List ℕ) → (⟦<MemPass as Pass>⟧.seen pass.now).told ≡ Some bytes → OnOk result (out.new ≡ bytes) }
        ensures cause { HasCause (mem_arm_seen self.old).faults (mem_arm_seen self.new).faults result }
        ensures counts { Reads 1 (mem_arm_seen self.old) (mem_arm_seen self.new) result }
        ensures sure { StaysSure (mem_arm_seen self.old).sure (mem_arm_seen self.new).sure (mem_arm_seen self.old).faults (mem_arm_seen self.new).faults }
        ensures fails { IsErr result ↔ IsTrue (fails_now (calls_of self.old)) }
        ensures calls { calls_of self.new ≡ one_more (calls_of self.old) }
    {
        if self.next_fails() {
            return Err(self.fault());
        }
        out.copy_from_slice(&pass.bytes);
        self.good_reads = self.good_reads.wrapping_add(1);
        Ok(())
    }

    fn read_run(&mut self, passes: &mut [MemPass], out: &mut [u8]) -> Result<(), Failed>
        requires many { (1 ≤ length passes.old) × (length passes.old ≤ 64) }
        requires transfer { IsTransfer (map mem_pass_seen passes.old) (length out.old) }
        ensures same { passes.new ≡ passes.old }
        ensures gives { OnOk result (TellParts (map mem_pass_seen passes.old) out.new) }
        ensures cause { HasCause (mem_arm_seen self.old).faults (mem_arm_seen self.new).faults result }
        ensures counts { Reads (length passes.old) (mem_arm_seen self.old) (mem_arm_seen self.new) result }
        ensures sure { StaysSure (mem_arm_seen self.old).sure (mem_arm_seen self.new).sure (mem_arm_seen self.old).faults (mem_arm_seen self.new).faults }
        ensures fails { IsErr result ↔ IsTrue (fails_now (calls_of self.old)) }
        ensures calls { calls_of self.new ≡ one_more (calls_of self.old) }
    {
        if self.next_fails() {
            return Err(self.fault());
        }
        let size = passes[0].bytes.len();
        read_each(passes, size, out);
        self.good_reads = self.good_reads.wrapping_add(passes.len() as u64);
        Ok(())
    }

    /// A failed write changes so many first sectors of the run as the listed pair says.
    fn write_run(&mut self, passes: &mut [MemPass], bytes: &[u8]) -> Result<(), Failed>
        requires many { (1 ≤ length passes.old) × (length passes.old ≤ 64) }
        requires transfer { IsTransfer (map mem_pass_seen passes.old) (length bytes.now) }
        ensures blocks { SameBlocks (map mem_pass_seen passes.old) (map mem_pass_seen passes.new) }
        ensures written { OnOk result (TookParts bytes.now (map mem_pass_seen passes.old) (map mem_pass_seen passes.new)) }
        ensures torn { OnErr result (TornParts bytes.now (map mem_pass_seen passes.old) (map mem_pass_seen passes.new)) }
        ensures sectors { OnErr result (TookSectors (torn_now (calls_of self.old)) bytes.now (map mem_pass_seen passes.old) (map mem_pass_seen passes.new)) }
        ensures cause { HasCause (mem_arm_seen self.old).faults (mem_arm_seen self.new).faults result }
        ensures counts { Writes (length passes.old) (mem_arm_seen self.old) (mem_arm_seen self.new) result }
        ensures sure { StaysSure (mem_arm_seen self.old).sure (mem_arm_seen self.new).sure (mem_arm_seen self.old).faults (mem_arm_seen self.new).faults }
        ensures fails { IsErr result ↔ IsTrue (fails_now (calls_of self.old)) }
        ensures calls { calls_of self.new ≡ one_more (calls_of self.old) }
    {
        let size = passes[0].bytes.len();
        let sectors = self.next_torn();
        if self.next_fails() {
            write_first_sectors(passes, size, bytes, sectors as usize);
            return Err(self.fault());
        }
        write_each(passes, size, bytes);
        self.good_writes = self.good_writes.wrapping_add(passes.len() as u64);
        Ok(())
    }
}

#[cfg(test)]
mod tests {
    use super::*;

    #[test]
    fn listed_calls_fail(rt: HostRuntime) {
        let alloc = rt.alloc();
        let bytes = Vec::from_slice(alloc, b"four").expect(&rt, "memory");
        let pass = MemPass::new(BlockNo(3), bytes);
        assert_eq!(rt; (pass.block().0, pass.bytes()), (3, b"four".as_slice()));
        let failing = Vec::from_slice(alloc, &[(1, 0)]).expect(&rt, "memory");
        let mut arm = MemArm::new(failing);
        let mut out = [0; 4];
        assert!(rt; arm.read(&pass, &mut out).is_ok());
        assert_eq!(rt; &out, b"four");
        assert!(rt; arm.read(&pass, &mut out).is_err());
        assert!(rt; arm.read(&pass, &mut out).is_ok());
        assert_eq!(rt;
            (arm.faults(), arm.good_reads(), arm.good_writes()),
            (1, 2, 0)
        );
        assert_eq!(rt; pass.into_bytes().as_slice(), b"four".as_slice());
    }

    #[test]
    fn a_run_is_read_and_written_in_one_call(rt: HostRuntime) {
        let alloc = rt.alloc();
        let four = Vec::from_slice(alloc, b"four").expect(&rt, "memory");
        let five = Vec::from_slice(alloc, b"five").expect(&rt, "memory");
        let mut passes = [
            MemPass::new(BlockNo(4), four),
            MemPass::new(BlockNo(5), five),
        ];
        let mut arm = MemArm::new(Vec::new(alloc));
        let mut out = [0; 8];
        assert!(rt; arm.read_run(&mut passes, &mut out).is_ok());
        assert_eq!(rt; &out, b"fourfive");
        assert!(rt; arm.write_run(&mut passes, b"FIVEFOUR").is_ok());
        assert_eq!(rt;
            (passes[0].bytes(), passes[1].bytes()),
            (b"FIVE".as_slice(), b"FOUR".as_slice())
        );
        assert_eq!(rt;
            (arm.faults(), arm.good_reads(), arm.good_writes()),
            (0, 2, 2)
        );
    }

    #[test]
    fn a_failed_write_changes_first_sectors(rt: HostRuntime) {
        let alloc = rt.alloc();
        let first = Vec::from_slice(alloc, &[1; 1024]).expect(&rt, "memory");
        let second = Vec::from_slice(alloc, &[1; 1024]).expect(&rt, "memory");
        let mut passes = [
            MemPass::new(BlockNo(4), first),
            MemPass::new(BlockNo(5), second),
        ];
        let failing = Vec::from_slice(alloc, &[(0, 3)]).expect(&rt, "memory");
        let mut arm = MemArm::new(failing);
        assert!(rt; arm.write_run(&mut passes, &[2; 2048]).is_err());
        // Two of the three sectors are those of the first block.
        assert_eq!(rt; passes[0].bytes(), [2; 1024].as_slice());
        let mut torn = [1; 1024];
        torn[..512].fill(2);
        assert_eq!(rt; passes[1].bytes(), torn.as_slice());
        assert_eq!(rt; (arm.faults(), arm.good_writes()), (1, 0));
    }
}
