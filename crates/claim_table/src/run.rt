// Runs of blocks.
ghost use Rattle.std.specs.Prelude.{◌≡◌, ◌+◌, ◌^◌, ◌≤◌, ◌<◌, [], ◌∷◌, ◌++◌, IfOk, length};
ghost use Rattle.std.specs.Vec.{vec_capacity, vec_len};

use crate::claim::Claimed;
use key_state::Entry;
use std::alloc::Global;
use vd_base::BlockNo;
use vd_outside::NoMemory;

/// Blocks one after another that a seat holds, at most 64: the number of the first, and the entry and the pass of each.
#[derive(Drop)]
pub struct Run<P> {
    pub first: BlockNo,
    pub entries: Vec<Entry>,
    pub passes: Vec<P>,
    ghost even: { vec_len passes ≡ vec_len entries },
    ghost few: { vec_len entries ≤ 64 },
    ghost numbered: { first.0 + vec_len entries ≤ 2 ^ 32 },
    ghost room: { (64 ≤ vec_capacity entries) × (64 ≤ vec_capacity passes) },
}

/// What a claim of a run answers.
#[derive(Drop)]
pub enum RunClaim<P> {
    Claimed(Run<P>),
    /// Another seat holds this block; the word that was found. The room is empty.
    Busy {
        room: Run<P>,
        block: BlockNo,
        word: u64,
    },
    /// This block is corrupt. The room is empty.
    BadBlock {
        room: Run<P>,
        block: BlockNo,
    },
}

impl<P: Drop> Run<P> {
    /// An empty run, with room for 64 blocks.
    pub fn new(alloc: Global) -> Result<Run<P>, NoMemory>
        ensures { IfOk result (λ run. (run.entries.items ≡ []) × (run.passes.items ≡ [])) }
    {
        let entries = Vec::with_capacity(alloc, 64)?;
        let passes = Vec::with_capacity(alloc, 64)?;
        Ok(Run {
            first: BlockNo(0),
            entries,
            passes,
        })
    }

    /// The empty run, which begins at this block.
    pub(crate) fn at(self, first: BlockNo) -> Run<P>
        requires { self.entries.items ≡ [] }
        ensures { (result.first ≡ first) × (result.entries.items ≡ []) × (result.passes.items ≡ []) }
    {
        let Run {
            first: _,
            entries,
            passes,
        } = self;
        Run {
            first,
            entries,
            passes,
        }
    }

    /// The run with one more block behind its last.
    pub(crate) fn with(self, held: Claimed<P>) -> Run<P>
        requires few { length self.entries.items < 64 }
        requires numbered { self.first.0 + length self.entries.items < 2 ^ 32 }
        ensures first { result.first ≡ self.first }
        ensures entries { result.entries.items ≡ self.entries.items ++ held.entry ∷ [] }
        ensures passes { result.passes.items ≡ self.passes.items ++ held.pass ∷ [] }
    {
        let Run {
            first,
            mut entries,
            mut passes,
        } = self;
        entries.push_reserved(held.entry);
        passes.push_reserved(held.pass);
        Run {
            first,
            entries,
            passes,
        }
    }

    /// The run without its last block, and that block.
    pub(crate) fn split_last(self) -> (Run<P>, Claimed<P>)
        requires { 0 < length self.entries.items }
        ensures first { result.0.first ≡ self.first }
        ensures block { result.1.block.0 ≡ self.first.0 + length result.0.entries.items }
        ensures entries { self.entries.items ≡ result.0.entries.items ++ result.1.entry ∷ [] }
        ensures passes { self.passes.items ≡ result.0.passes.items ++ result.1.pass ∷ [] }
        ensures even { length result.0.passes.items ≡ length result.0.entries.items }
    {
        let Run {
            first,
            mut entries,
            mut passes,
        } = self;
        let (Some(entry), Some(pass)) = (entries.pop(), passes.pop()) else {
            unreachable!()
        };
        let block = BlockNo(first.0 + entries.len() as u32);
        let left = Run {
            first,
            entries,
            passes,
        };
        (left, Claimed { block, entry, pass })
    }
}
