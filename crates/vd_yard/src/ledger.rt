// What is out, and the counts of what was kept, by path.
ghost use Rattle.std.specs.Prelude.{◌≡◌, ◌≤◌, IfNone, IfSome, OnErr, OnOk, Some, slice_get, true};
ghost use Rattle.vd_yard.specs.Counts.{add_arm, add_source, no_counts};
ghost use Rattle.vd_yard.specs.Ledger.{is_such, kept_counts, kind_of, ledger_counts, ledger_out, outs};
ghost use Rattle.vd_yard.specs.Out.{AtArm, AtDisk, AtPasses, AtSource, nothing_out, one_more, out_at};
ghost use Rattle.vd_yard.specs.declared.ledger.Opening.{Opening as Entry};

use std::alloc::Global;
use vd_outside::{NoMemory, Text};

/// What a yard hands out.
#[derive(Clone, Copy, Debug, PartialEq, Eq, Drop)]
pub enum Thing {
    Source,
    Disk,
    Passes,
    Arm,
}

/// One opening: what, at which path, and the counts with which it was kept, once it was.
#[derive(Drop)]
pub struct Opening {
    thing: Thing,
    path: Text,
    is_out: bool,
    faults: u64,
    reads: u64,
    writes: u64,
}

/// The openings in order. Keeping takes no memory.
#[derive(Drop)]
pub struct Ledger {
    openings: Vec<Opening>,
}

impl Ledger {
    /// Nothing is out, and nothing was kept.
    #[tactic(auto, using(crate::proofs::Openings::none_open, crate::proofs::Openings::none_counted))]
    pub fn new(alloc: Global) -> Ledger
        ensures out { ledger_out result ≡ nothing_out }
        ensures counts { ledger_counts result ≡ no_counts }
    {
        Ledger {
            openings: Vec::new(alloc),
        }
    }

    /// One more of this thing is out at this path.
    #[tactic(auto, using(crate::proofs::Openings::outs_more, crate::proofs::Openings::counts_more))]
    pub fn open(&mut self, alloc: Global, thing: Thing, path: &Text) -> Result<(), NoMemory>
        ensures out { OnOk result (ledger_out self.new ≡ one_more (ledger_out self.old) (kind_of thing) path.now) }
        ensures counts { ledger_counts self.new ≡ ledger_counts self.old }
        ensures err { OnErr result (ledger_out self.new ≡ ledger_out self.old) }
    {
        let path = Text::from_str(alloc, path.as_str())?;
        let opening = Opening {
            thing,
            path,
            is_out: true,
            faults: 0,
            reads: 0,
            writes: 0,
        };
        match self.openings.push(opening) {
            Ok(()) => Ok(()),
            Err(_) => Err(NoMemory),
        }
    }

    /// A source is back, with its count of faults.
    pub fn close_source(&mut self, path: &Text, faults: u64)
        requires { 1 ≤ out_at (ledger_out self.old) AtSource path.now }
        ensures out { ledger_out self.old ≡ one_more (ledger_out self.new) AtSource path.now }
        ensures counts { ledger_counts self.new ≡ add_source (ledger_counts self.old) path.now faults }
    {
        self.close(Thing::Source, path, faults, 0, 0);
    }

    /// An arm is back, with its counts.
    pub fn close_arm(&mut self, path: &Text, faults: u64, reads: u64, writes: u64)
        requires { 1 ≤ out_at (ledger_out self.old) AtArm path.now }
        ensures out { ledger_out self.old ≡ one_more (ledger_out self.new) AtArm path.now }
        ensures counts { ledger_counts self.new ≡ add_arm (ledger_counts self.old) path.now faults reads writes }
    {
        self.close(Thing::Arm, path, faults, reads, writes);
    }

    /// A disk is back.
    pub fn close_disk(&mut self, path: &Text)
        requires { 1 ≤ out_at (ledger_out self.old) AtDisk path.now }
        ensures out { ledger_out self.old ≡ one_more (ledger_out self.new) AtDisk path.now }
        ensures counts { ledger_counts self.new ≡ ledger_counts self.old }
    {
        self.close(Thing::Disk, path, 0, 0, 0);
    }

    /// A store's passes are back.
    pub fn close_passes(&mut self, path: &Text)
        requires { 1 ≤ out_at (ledger_out self.old) AtPasses path.now }
        ensures out { ledger_out self.old ≡ one_more (ledger_out self.new) AtPasses path.now }
        ensures counts { ledger_counts self.new ≡ ledger_counts self.old }
    {
        self.close(Thing::Passes, path, 0, 0, 0);
    }

    /// Marks the first opening of this thing at this path that is out as kept, with its counts.
    #[tactic(auto, using(crate::proofs::Openings::none_out, crate::proofs::Openings::closed_one, crate::proofs::Openings::closed_counts))]
    fn close(&mut self, thing: Thing, path: &Text, faults: u64, reads: u64, writes: u64)
        requires { 1 ≤ out_at (ledger_out self.old) (kind_of thing) path.now }
        ensures out { ledger_out self.old ≡ one_more (ledger_out self.new) (kind_of thing) path.now }
        ensures counts { ledger_counts self.new ≡ kept_counts thing (ledger_counts self.old) path.now faults reads writes }
    {
        let Some(at) = out_index(&self.openings, thing, path.as_bytes()) else {
            return;
        };
        let opening = &mut self.openings[at];
        opening.is_out = false;
        opening.faults = faults;
        opening.reads = reads;
        opening.writes = writes;
    }
}

impl Thing {
    ghost use Rattle.vd_yard.specs.Out.{same_kind};

    fn is(self, other: Thing) -> bool
        ensures { result ≡ same_kind (kind_of self) (kind_of other) }
    {
        match (self, other) {
            (Thing::Source, Thing::Source) => true,
            (Thing::Disk, Thing::Disk) => true,
            (Thing::Passes, Thing::Passes) => true,
            (Thing::Arm, Thing::Arm) => true,
            _ => false,
        }
    }
}

/// Whether this is an opening of this thing at this path, and is out.
fn is_out_at(opening: &Opening, thing: Thing, path: &[u8]) -> bool
    ensures { result ≡ is_such (kind_of thing) path.now opening.now }
{
    opening.is_out && opening.thing.is(thing) && opening.path.as_bytes() == path
}

/// The first opening of this thing at this path that is out.
#[tactic(auto, using(crate::proofs::Openings::outs_next))]
fn out_index(openings: &Vec<Opening>, thing: Thing, path: &[u8]) -> Option<usize>
    ensures found { IfSome result (λ i. (opening : Entry) × (slice_get openings.now.items i ≡ Some opening) × (is_such (kind_of thing) path.now opening ≡ true)) }
    ensures none { IfNone result (outs openings.now.items (kind_of thing) path.now ≡ 0) }
{
    for at in 0..openings.len() {
        if is_out_at(&openings[at], thing, path) {
            return Some(at);
        }
    }
    None
}
