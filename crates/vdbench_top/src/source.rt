// Reading a whole file of the yard.
ghost use Rattle.std.specs.Prelude.{◌≡◌, ◌≤◌, ◌<◌, ◌-◌, ◌^◌, ℕ, List, take, IfOk, OnErr, OnOk, IsErrOf, Some, IsTrue};
ghost use Rattle.vd_outside.specs.Causes.{Rose};
ghost use Rattle.vd_yard.specs.Out.{AtSource};
ghost use Rattle.vd_yard.specs.Counts.{source_faults, arm_faults, good_reads, good_writes};
ghost use Rattle.vd_yard.specs.Yard.{is_there};
ghost use Rattle.vdbench_top.specs.Bytes.{AllUpTo};
ghost use Rattle.still_store.specs.Frame.{Keeps};

use std::alloc::Global;
use vd_outside::{Source, Text};
use vd_yard::{Yard, YardFault};

/// A parameter file has at most 1,048,576 bytes, and one more decides that it has not.
pub const LIMIT: usize = 1_048_577;

/// Why a parameter file isn't read.
#[derive(Clone, Copy, Debug, PartialEq, Eq, Drop)]
pub enum Unread {
    /// The yard can't open it.
    Yard,
    /// A read of it failed.
    Source,
    NoMemory,
}

/// All that is left of a source, up to the limit.
fn read_all<S: Source>(alloc: Global, source: &mut S) -> Result<Vec<u8>, Unread>
    ensures bytes { IfOk result (λ v. AllUpTo 1048577 (S.left source.old) (S.left source.new) v.items) }
    ensures later { S.faults source.old ≤ S.faults source.new }
    ensures kept { OnOk result (S.faults source.new ≡ S.faults source.old) }
    ensures kept_memory { IsErrOf result Unread.NoMemory → S.faults source.new ≡ S.faults source.old }
    ensures fault { IsErrOf result Unread.Source → Rose (S.faults source.old) (S.faults source.new) }
    ensures sure { IsTrue (S.sure source.old) → S.faults source.new ≡ S.faults source.old }
    ensures no_yard { IsErrOf result Unread.Yard → ⊥ }
{
    let mut bytes = Vec::new(alloc);
    let mut buffer = [0u8; 4096];
    while bytes.len() < LIMIT {
        let room = (LIMIT - bytes.len()).min(4096);
        let Ok(count) = source.read(&mut buffer[..room]) else {
            return Err(Unread::Source);
        };
        if count == 0 {
            return Ok(bytes);
        }
        if bytes.extend_from_slice(&buffer[..count]).is_err() {
            return Err(Unread::NoMemory);
        }
    }
    Ok(bytes)
}

/// All bytes of a file of the yard, up to the limit.
#[tactic(auto, using(vd_yard::specs::Out::one_more_here, vd_yard::specs::Out::one_more_cancel, vd_yard::specs::Counts::source_faults_here, vd_yard::specs::Counts::source_faults_none, vd_yard::specs::Counts::source_faults_grow, vd_yard::specs::Counts::arm_faults_of_source, vd_yard::specs::Counts::good_reads_of_source, vd_yard::specs::Counts::good_writes_of_source))]
pub fn read_file<Y: Yard>(alloc: Global, yard: &mut Y, path: &Text) -> Result<Vec<u8>, Unread>
    ensures keeps { Keeps (Y.seen yard.old) (Y.seen yard.new) }
    ensures disks { (Y.seen yard.new).disks ≡ (Y.seen yard.old).disks }
    ensures contents { (Y.seen yard.new).contents ≡ (Y.seen yard.old).contents }
    ensures arms { (q : List ℕ) → arm_faults (Y.seen yard.new).counts q ≡ arm_faults (Y.seen yard.old).counts q }
    ensures reads { (q : List ℕ) → good_reads (Y.seen yard.new).counts q ≡ good_reads (Y.seen yard.old).counts q }
    ensures writes { (q : List ℕ) → good_writes (Y.seen yard.new).counts q ≡ good_writes (Y.seen yard.old).counts q }
    ensures exact { (bytes : List ℕ) → (Y.seen yard.old).tells.bytes path.now ≡ Some bytes → IfOk result (λ v. v.items ≡ take 1048577 bytes) }
    ensures yard_fault { IsErrOf result Unread.Yard → Rose (Y.seen yard.old).faults (Y.seen yard.new).faults }
    ensures willing { IsTrue (Y.seen yard.old).willing → IsTrue (is_there (Y.seen yard.old).files AtSource path.now) → IsErrOf result Unread.Yard → ⊥ }
    ensures source_fault { IsErrOf result Unread.Source →
        Rose (source_faults (Y.seen yard.old).counts path.now) (source_faults (Y.seen yard.new).counts path.now) }
    ensures quiet { OnOk result ((q : List ℕ) → source_faults (Y.seen yard.new).counts q ≡ source_faults (Y.seen yard.old).counts q) }
    ensures quiet_yard { IsErrOf result Unread.Yard → (q : List ℕ) → source_faults (Y.seen yard.new).counts q ≡ source_faults (Y.seen yard.old).counts q }
    ensures yard_quiet { (IsErrOf result Unread.Yard → ⊥) → (Y.seen yard.new).faults ≡ (Y.seen yard.old).faults }
    ensures sure { IsTrue ((Y.seen yard.old).tells.sure AtSource path.now) → IsErrOf result Unread.Source → ⊥ }
{
    let mut source = match yard.source(path) {
        Ok(source) => source,
        Err(YardFault::Failed) => return Err(Unread::Yard),
        Err(YardFault::NoMemory) => return Err(Unread::NoMemory),
    };
    let read = read_all(alloc, &mut source);
    yard.keep_source(path, source);
    read
}
