// The world, which no order of events breaks.
ghost use Rattle.std.specs.Prelude.{◌≡◌, ◌<◌, ◌≤◌, ◌*◌, length, IfOk, OnErr};
ghost use Rattle.interleave_core.specs.Event.{Appends, Does, Enabled};
ghost use Rattle.interleave_core.specs.Sound.{Sound};
ghost use Rattle.interleave_core.specs.World.{entry_of, first_world};

use crate::Event;
use crate::machine::Machine;
use key_state::Entry;
use std::alloc::Global;
use std::marker::Model;
use vd_base::BlockNo;
use vd_outside::NoMemory;

/// Workers, a journal and a device as one machine, which is sound at all times. Contracts see its parts.
#[derive(Drop)]
pub struct World {
    machine: Machine,
}

impl Model for World {
    ghost use Rattle.interleave_core.specs.World.{World};

    ghost Value = { World };

    ghost use Rattle.interleave_core.specs.Sound.{Sound};

    ghost view = { λ w. w.machine };

    ghost invariant = { λ w. Sound w.machine };
}

impl World {
    /// A world of so many blocks, sectors a block, and workers, as it begins: no block was ever written, and nobody holds one.
    pub fn new(alloc: Global, blocks: u32, sectors: u32, workers: u32) -> Result<World, NoMemory>
        requires blocks { 1 ≤ blocks }
        requires sectors { 1 ≤ sectors }
        requires workers { 1 ≤ workers }
        requires size { blocks * sectors ≤ 1048576 }
        ensures value { IfOk result (λ w. w ≡ first_world blocks sectors workers) }
        ensures sound { IfOk result (λ w. Sound w) }
    {
        Ok(World {
            machine: Machine::new(alloc, blocks, sectors, workers)?,
        })
    }

    /// Takes one event. True where it may happen, and then the world changes as the event says; false where it may not, and then
    /// nothing changes. Where memory runs out nothing changes.
    pub fn step(&mut self, event: &Event) -> Result<bool, NoMemory>
        ensures ok { IfOk result (λ taken. Does self.old event.now taken self.new) }
        ensures err { OnErr result (self.new ≡ self.old) }
        ensures memory { OnErr result (Enabled self.old event.now × Appends self.old event.now) }
        ensures sound { Sound self.new }
    {
        self.machine.step(event)
    }

    /// How many blocks there are.
    pub fn blocks(&self) -> u32
        ensures { result ≡ length self.now.base }
    {
        self.machine.blocks()
    }

    /// The block's entry.
    pub fn entry(&self, block: BlockNo) -> Entry
        requires { block.0 < length self.now.base }
        ensures { result ≡ entry_of self.now block.0 }
    {
        self.machine.entry(block)
    }

    /// How many records there are since the journal began anew.
    pub fn records(&self) -> u64
        ensures { result ≡ length self.now.records }
    {
        self.machine.records()
    }

    /// How many of the records are synced.
    pub fn synced(&self) -> u64
        ensures { result ≡ self.now.synced }
    {
        self.machine.synced()
    }
}
