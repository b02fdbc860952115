// The right to one block, and one worker's way to a device.
ghost use Rattle.std.specs.Prelude.{◌≡◌, ◌≤◌, List, ℕ, Some, OnErr, OnOk, length, map};
ghost use Rattle.vd_outside.specs.Causes.{HasCause, StaysSure};
ghost use Rattle.vd_arm.specs.Arm.{PassSeen, ArmSeen, Reads};
ghost use Rattle.vd_arm.specs.Transfers.{IsTransfer, SameBlocks, TellParts, TookParts, TornParts, Writes};

use vd_base::BlockNo;
use vd_outside::Failed;

/// The right to one block of a store. There is one pass for each block, made when the store is opened.
pub trait Pass: Drop + Send + Sync {
    /// All that contracts see of it: its block, its size in bytes, and the bytes that the block holds, where it tells.
    ghost seen: { Self → PassSeen };

    /// The block's number in its store.
    fn block(&self) -> BlockNo
        ensures { result.0 ≡ (seen self.now).block };

    /// What it tells is as many bytes as its size.
    ghost as_many: { (pass : Self) (bytes : List ℕ) → (seen pass).told ≡ Some bytes → length bytes ≡ (seen pass).size };
}

/// One worker's way to a device.
pub trait Arm: Drop + Send {
    type Pass: Pass;

    /// All that contracts see of it: how often a call failed, how many blocks were read and written well (modulo 2^64), and whether
    /// it tells that no call fails.
    ghost seen: { Self → ArmSeen };

    /// The bytes of one block. A failed read leaves `out` unsaid.
    fn read(&mut self, pass: &Self::Pass, out: &mut [u8]) -> Result<(), Failed>
        requires { length out.old ≡ (Self.Pass.seen pass.now).size }
        ensures gives { (bytes : List ℕ) → (Self.Pass.seen pass.now).told ≡ Some bytes → OnOk result (out.new ≡ bytes) }
        ensures cause { HasCause (seen self.old).faults (seen self.new).faults result }
        ensures counts { Reads 1 (seen self.old) (seen self.new) result }
        ensures sure { StaysSure (seen self.old).sure (seen self.new).sure (seen self.old).faults (seen self.new).faults };

    /// Reads 1 to 64 blocks one after another into a slice that has the bytes of all of them. It leaves the passes as they are; a
    /// failed read leaves `out` unsaid.
    fn read_run(&mut self, passes: &mut [Self::Pass], out: &mut [u8]) -> Result<(), Failed>
        requires many { (1 ≤ length passes.old) × (length passes.old ≤ 64) }
        requires transfer { IsTransfer (map Self.Pass.seen passes.old) (length out.old) }
        ensures same { passes.new ≡ passes.old }
        ensures gives { OnOk result (TellParts (map Self.Pass.seen passes.old) out.new) }
        ensures cause { HasCause (seen self.old).faults (seen self.new).faults result }
        ensures counts { Reads (length passes.old) (seen self.old) (seen self.new) result }
        ensures sure { StaysSure (seen self.old).sure (seen self.new).sure (seen self.old).faults (seen self.new).faults };

    /// Writes 1 to 64 blocks one after another, from a slice that has the bytes of all of them. After Ok each pass that tells tells its
    /// part of the bytes; after a failed write each sector is the old one or that of the bytes.
    fn write_run(&mut self, passes: &mut [Self::Pass], bytes: &[u8]) -> Result<(), Failed>
        requires many { (1 ≤ length passes.old) × (length passes.old ≤ 64) }
        requires transfer { IsTransfer (map Self.Pass.seen passes.old) (length bytes.now) }
        ensures blocks { SameBlocks (map Self.Pass.seen passes.old) (map Self.Pass.seen passes.new) }
        ensures written { OnOk result (TookParts bytes.now (map Self.Pass.seen passes.old) (map Self.Pass.seen passes.new)) }
        ensures torn { OnErr result (TornParts bytes.now (map Self.Pass.seen passes.old) (map Self.Pass.seen passes.new)) }
        ensures cause { HasCause (seen self.old).faults (seen self.new).faults result }
        ensures counts { Writes (length passes.old) (seen self.old) (seen self.new) result }
        ensures sure { StaysSure (seen self.old).sure (seen self.new).sure (seen self.old).faults (seen self.new).faults };
}
