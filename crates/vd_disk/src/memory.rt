// A disk in memory. It keeps what it began with and each write and sync since, so it can tell each moment.
ghost use Rattle.std.specs.Prelude.{◌≡◌, ◌<◌, ◌≤◌, ◌^◌, ◌++◌, [], ◌∷◌, IfOk, OnErr, OnOk, Some, None, length, replicate, slice_index_or, slice_set, true, false};
ghost use Rattle.std.proofs.Props.{props};
ghost use Rattle.vd_disk.specs.Disk.{IsImage, Sectors, Table, lengthened, longer, longer_table, present, settled, written};
ghost use Rattle.vd_disk.specs.Step.{HasRow, now_after, now_next, table_next, tables_from};
ghost use Rattle.vd_disk.specs.Tale.{IsPicked};

use crate::Disk;
use crate::calls::{CallCounts, CallPlan};
use std::alloc::{AllocError, Global};
use vd_base::Sector;
use vd_outside::{Failed, NoMemory};

/// What was done to a disk that bears on what a stop may leave.
#[derive(Clone, Copy)]
pub enum Step {
    Write(u64, Sector),
    /// A write that answered no: a read doesn't give it, and a stop may leave it.
    FailedWrite(u64, Sector),
    Sync,
    /// The disk has so many sectors, the new ones of zeros.
    Lengthen(u64),
}

/// A disk in memory. Calls with listed numbers fail, and all once a fuse has burnt down; a write or sync whose note finds no memory
/// fails too, and changes nothing.
#[derive(Drop)]
pub struct MemDisk {
    first: Vec<Sector>,
    content: Vec<Sector>,
    steps: Vec<Step>,
    plan: CallPlan,
    counts: CallCounts,
    faults: u64,
    ghost replays: { content.items ≡ now_after first.items steps.items } by { Prim.hlevel props },
}

fn zeros(alloc: Global, sectors: u64) -> Result<Vec<Sector>, AllocError>
    ensures { IfOk result (λ all. all.items ≡ replicate sectors (replicate 512 0)) }
{
    let mut all = Vec::new(alloc);
    for _i in 0..sectors {
        all.push([0; 512])?;
    }
    Ok(all)
}

fn copied(alloc: Global, sectors: &[Sector]) -> Result<Vec<Sector>, AllocError>
    ensures { IfOk result (λ copy. copy.items ≡ sectors.now) }
{
    Vec::from_slice(alloc, sectors)
}

fn copied_steps(alloc: Global, steps: &[Step]) -> Result<Vec<Step>, AllocError>
    ensures { IfOk result (λ copy. copy.items ≡ steps.now) }
{
    let mut copy = Vec::new(alloc);
    for step in steps {
        copy.push(*step)?;
    }
    Ok(copy)
}

/// What one sector may have after a stop, the oldest first, and what it has: none where there are no more than `end` sectors.
#[derive(Drop)]
struct Row {
    held: Vec<Sector>,
    current: Sector,
    end: u64,
}

/// The row of a sector as the disk began.
fn first_row(alloc: Global, first: &[Sector], place: u64) -> Result<Row, AllocError>
    requires { length first.now < 2 ^ 63 }
    ensures { IfOk result (λ row. HasRow place (settled first.now) first.now row.held.items row.current row.end) }
{
    let end = first.len() as u64;
    let mut held = Vec::new(alloc);
    if place >= end {
        return Ok(Row {
            held,
            current: [0; 512],
            end,
        });
    }
    let current = first[place as usize];
    held.push(current)?;
    Ok(Row { held, current, end })
}

impl Row {
    /// A write of these bytes.
    fn write(&mut self, place: u64, at: u64, bytes: &Sector) -> Result<(), AllocError>
        ensures { OnOk result ((table : Table) (now : Sectors) → HasRow place table now self.old.held.items self.old.current self.old.end →
            HasRow place (written at bytes.now table) (slice_set now at bytes.now) self.new.held.items self.new.current self.new.end) }
    {
        if at != place || place >= self.end {
            return Ok(());
        }
        self.held.push(*bytes)?;
        self.current = *bytes;
        Ok(())
    }

    /// A write of these bytes that answered no.
    fn write_failed(&mut self, place: u64, at: u64, bytes: &Sector) -> Result<(), AllocError>
        ensures { OnOk result ((table : Table) (now : Sectors) → HasRow place table now self.old.held.items self.old.current self.old.end →
            HasRow place (written at bytes.now table) now self.new.held.items self.new.current self.new.end) }
    {
        if at != place || place >= self.end {
            return Ok(());
        }
        self.held.push(*bytes)?;
        Ok(())
    }

    fn sync(&mut self, place: u64) -> Result<(), AllocError>
        ensures { OnOk result ((table : Table) (now : Sectors) → HasRow place table now self.old.held.items self.old.current self.old.end →
            HasRow place (settled now) now self.new.held.items self.new.current self.new.end) }
    {
        if place >= self.end {
            return Ok(());
        }
        self.held.clear();
        self.held.push(self.current)?;
        Ok(())
    }

    fn lengthen(&mut self, place: u64, size: u64) -> Result<(), AllocError>
        ensures { OnOk result ((table : Table) (now : Sectors) → HasRow place table now self.old.held.items self.old.current self.old.end →
            HasRow place (longer_table size table) (longer size now) self.new.held.items self.new.current self.new.end) }
    {
        if self.end <= place && place < size {
            self.held.push([0; 512])?;
            self.end = self.end.max(size);
            return Ok(());
        }
        self.end = self.end.max(size);
        Ok(())
    }

    /// One step more.
    fn step(&mut self, place: u64, step: &Step) -> Result<(), AllocError>
        ensures { OnOk result ((table : Table) (now : Sectors) → HasRow place table now self.old.held.items self.old.current self.old.end →
            HasRow place (table_next table now step.now) (now_next now step.now) self.new.held.items self.new.current self.new.end) }
    {
        match step {
            Step::Write(at, bytes) => self.write(place, *at, bytes),
            Step::FailedWrite(at, bytes) => self.write_failed(place, *at, bytes),
            Step::Sync => self.sync(place),
            Step::Lengthen(size) => self.lengthen(place, *size),
        }
    }
}

/// The contents that a sector may have after a stop, the oldest first.
fn held_at(
    alloc: Global,
    first: &[Sector],
    steps: &[Step],
    place: u64,
) -> Result<Vec<Sector>, AllocError>
    requires few { length first.now < 2 ^ 63 }
    requires within { place < length (now_after first.now steps.now) }
    ensures row { IfOk result (λ held. held.items ≡ slice_index_or (present (tables_from first.now steps.now)) place []) }
    ensures some { IfOk result (λ held. 0 < length held.items) }
{
    let mut row = first_row(alloc, first, place)?;
    for step in steps {
        row.step(place, step)?;
    }
    Ok(row.held)
}

/// Of the contents that each of so many sectors may have after a stop the one of its number.
fn picked(
    alloc: Global,
    first: &[Sector],
    steps: &[Step],
    sectors: usize,
    pick: u64,
) -> Result<Vec<Sector>, AllocError>
    requires few { length first.now < 2 ^ 63 }
    requires all { sectors ≡ length (now_after first.now steps.now) }
    ensures picked { IfOk result (λ image. IsPicked pick (present (tables_from first.now steps.now)) image.items) }
    ensures possible { IfOk result (λ image. IsImage (present (tables_from first.now steps.now)) image.items) }
{
    let mut image = Vec::new(alloc);
    for i in 0..sectors {
        let held = held_at(alloc, first, steps, i as u64)?;
        let place = (i as u64 + 1).wrapping_mul(pick) % held.len() as u64;
        image.push(held[place as usize])?;
    }
    Ok(image)
}

/// These sectors, and as many of zeros as there are too few.
fn made_longer(alloc: Global, sectors: &[Sector], size: u64) -> Result<Vec<Sector>, AllocError>
    requires { length sectors.now ≤ size }
    ensures { IfOk result (λ all. all.items ≡ longer size sectors.now) }
{
    let mut all = copied(alloc, sectors)?;
    for _i in sectors.len() as u64..size {
        all.push([0; 512])?;
    }
    Ok(all)
}

/// Adds a step, and says whether memory was found for it.
fn is_noted(steps: &mut Vec<Step>, step: Step) -> bool
    ensures yes { result ≡ true → steps.new.items ≡ steps.old.items ++ step ∷ [] }
    ensures no { result ≡ false → steps.new.items ≡ steps.old.items }
{
    match steps.push(step) {
        Ok(()) => true,
        Err(_) => false,
    }
}

impl MemDisk {
    ghost use Rattle.vd_disk.specs.Calls.{no_calls};
    ghost use Rattle.vd_disk.specs.MemDisk.{mem_disk_seen, calls_of, counts_of, at_rest};

    /// A disk of zeros, at rest. The reads, writes and syncs with these numbers, counted together from 0, fail.
    pub fn new(alloc: Global, sectors: u64, failing: Vec<u64>) -> Result<MemDisk, NoMemory>
        ensures seen { IfOk result (λ disk. mem_disk_seen disk ≡ at_rest (replicate sectors (replicate 512 0)) failing.items) }
        ensures calls { IfOk result (λ disk. calls_of disk ≡ record { failing = failing.items; made = 0; fuse = None }) }
        ensures counts { IfOk result (λ disk. counts_of disk ≡ no_calls) }
    {
        let content = zeros(alloc, sectors)?;
        MemDisk::of(alloc, content, failing)
    }

    /// A disk of these sectors, at rest. The reads, writes and syncs with these numbers, counted together from 0, fail.
    pub fn of(alloc: Global, sectors: Vec<Sector>, failing: Vec<u64>) -> Result<MemDisk, NoMemory>
        ensures seen { IfOk result (λ disk. mem_disk_seen disk ≡ at_rest sectors.items failing.items) }
        ensures calls { IfOk result (λ disk. calls_of disk ≡ record { failing = failing.items; made = 0; fuse = None }) }
        ensures counts { IfOk result (λ disk. counts_of disk ≡ no_calls) }
    {
        let first = copied(alloc, &sectors)?;
        Ok(MemDisk {
            first,
            content: sectors,
            steps: Vec::new(alloc),
            plan: CallPlan::new(failing),
            counts: CallCounts::new(),
            faults: 0,
        })
    }

    /// Another disk that is seen as this one, and whose further calls fail as those of this one would.
    pub fn copy(&self, alloc: Global) -> Result<MemDisk, NoMemory>
        ensures seen { IfOk result (λ disk. mem_disk_seen disk ≡ mem_disk_seen self.now) }
        ensures calls { IfOk result (λ disk. calls_of disk ≡ calls_of self.now) }
        ensures counts { IfOk result (λ disk. counts_of disk ≡ counts_of self.now) }
    {
        let first = copied(alloc, &self.first)?;
        let content = copied(alloc, &self.content)?;
        let steps = copied_steps(alloc, &self.steps)?;
        let plan = self.plan.copy(alloc)?;
        Ok(MemDisk {
            first,
            content,
            steps,
            plan,
            counts: self.counts,
            faults: self.faults,
        })
    }

    /// Makes a shorter disk so long, by sectors of zeros, which is one moment; a longer one stays. Where memory runs out nothing changes.
    pub fn lengthen(&mut self, alloc: Global, sectors: u64) -> Result<(), NoMemory>
        ensures long_enough { sectors ≤ (mem_disk_seen self.old).sectors → OnOk result (mem_disk_seen self.new ≡ mem_disk_seen self.old) }
        ensures longer { (mem_disk_seen self.old).sectors < sectors → OnOk result (mem_disk_seen self.new ≡ lengthened sectors (mem_disk_seen self.old)) }
        ensures calls { calls_of self.new ≡ calls_of self.old }
        ensures counts { counts_of self.new ≡ counts_of self.old }
        ensures err { OnErr result (mem_disk_seen self.new ≡ mem_disk_seen self.old) }
    {
        if sectors <= self.content.len() as u64 {
            return Ok(());
        }
        let Ok(content) = made_longer(alloc, &self.content, sectors) else {
            return Err(NoMemory);
        };
        if !is_noted(&mut self.steps, Step::Lengthen(sectors)) {
            return Err(NoMemory);
        }
        self.content = content;
        Ok(())
    }

    /// Lets so many more reads, writes and syncs go on, and makes every later one fail.
    pub fn fuse(&mut self, calls: u64)
        ensures seen { mem_disk_seen self.new ≡ record (mem_disk_seen self.old) { sure = false } }
        ensures calls { calls_of self.new ≡ record (calls_of self.old) { fuse = Some calls } }
        ensures counts { counts_of self.new ≡ counts_of self.old }
    {
        self.plan.set_fuse(calls);
    }

    /// How many reads, writes and syncs were made, in this order, each held at the greatest u64.
    pub fn calls(&self) -> (u64, u64, u64)
        ensures { result ≡ ((counts_of self.now).reads, (counts_of self.now).writes, (counts_of self.now).syncs) }
    {
        let CallCounts {
            reads,
            writes,
            syncs,
        } = self.counts;
        (reads, writes, syncs)
    }

    /// The sectors as a read gives them.
    pub fn contents(&self) -> &[Sector]
        ensures { (mem_disk_seen self.now).told ≡ Some result.now }
    {
        &self.content
    }

    /// What a stop now may leave: of the contents that sector i may have, the oldest first, the one numbered `(i + 1) * pick`, modulo
    /// 2^64 and then modulo how many there are.
    pub fn image(&self, alloc: Global, pick: u64) -> Result<Vec<Sector>, NoMemory>
        ensures picked { IfOk result (λ image. IsPicked pick (present (mem_disk_seen self.now).moments) image.items) }
        ensures possible { IfOk result (λ image. IsImage (present (mem_disk_seen self.now).moments) image.items) }
    {
        Ok(picked(alloc, &self.first, &self.steps, self.content.len(), pick)?)
    }
}

impl Disk for MemDisk {
    ghost use Rattle.std.specs.Prelude.{◌↔◌, IsErr, IsTrue, slice_get};
    ghost use Rattle.vd_disk.specs.Calls.{fails_now, one_more, read_more, sync_more, write_more};
    ghost use Rattle.vd_disk.specs.Disk.{Leaves, Syncs, WhenTold, Writes};
    ghost use Rattle.vd_disk.specs.MemDisk.{calls_of, counts_of, mem_disk_seen, mem_disk_tale, mem_disk_tells};
    ghost use Rattle.vd_outside.specs.Causes.{HasCause};

    ghost seen = { mem_disk_seen };

    ghost is_tale = { mem_disk_tale };

    ghost untold = { λ disk is. absurd (mem_disk_tells disk is) };

    fn sectors(&self) -> u64 {
        self.content.len() as u64
    }

    fn read(&mut self, at: u64, out: &mut Sector) -> Result<(), Failed>
        requires { at < (mem_disk_seen self.old).sectors }
        ensures gives { OnOk result (WhenTold (mem_disk_seen self.old).told (λ sectors. slice_get sectors at ≡ Some out.new)) }
        ensures same { mem_disk_seen self.new ≡ record (mem_disk_seen self.old) { faults = (mem_disk_seen self.new).faults } }
        ensures cause { HasCause (mem_disk_seen self.old).faults (mem_disk_seen self.new).faults result }
        ensures sure { IsTrue (mem_disk_seen self.old).sure → (mem_disk_seen self.new).faults ≡ (mem_disk_seen self.old).faults }
        ensures fails { IsErr result ↔ IsTrue (fails_now (calls_of self.old)) }
        ensures counted { calls_of self.new ≡ one_more (calls_of self.old) }
        ensures counts { counts_of self.new ≡ read_more (counts_of self.old) }
    {
        self.counts.count_read();
        if self.plan.next_fails() {
            self.faults = self.faults.saturating_add(1);
            return Err(Failed);
        }
        *out = self.content[at as usize];
        Ok(())
    }

    fn write(&mut self, at: u64, bytes: &Sector) -> Result<(), Failed>
        requires { at < (mem_disk_seen self.old).sectors }
        ensures writes { Writes at bytes.now (mem_disk_seen self.old) (mem_disk_seen self.new) result }
        ensures leaves { Leaves (mem_disk_seen self.old) (mem_disk_seen self.new) }
        ensures cause { HasCause (mem_disk_seen self.old).faults (mem_disk_seen self.new).faults result }
        ensures fails { IsTrue (fails_now (calls_of self.old)) → IsErr result }
        ensures counted { calls_of self.new ≡ one_more (calls_of self.old) }
        ensures counts { counts_of self.new ≡ write_more (counts_of self.old) }
        ensures kept { OnErr result ((mem_disk_seen self.new).told ≡ (mem_disk_seen self.old).told) }
    {
        self.counts.count_write();
        if self.plan.next_fails() {
            self.faults = self.faults.saturating_add(1);
            let _ = is_noted(&mut self.steps, Step::FailedWrite(at, *bytes));
            return Err(Failed);
        }
        if !is_noted(&mut self.steps, Step::Write(at, *bytes)) {
            self.faults = self.faults.saturating_add(1);
            return Err(Failed);
        }
        self.content[at as usize] = *bytes;
        Ok(())
    }

    fn sync(&mut self) -> Result<(), Failed>
        ensures syncs { Syncs (mem_disk_seen self.old) (mem_disk_seen self.new) result }
        ensures leaves { Leaves (mem_disk_seen self.old) (mem_disk_seen self.new) }
        ensures cause { HasCause (mem_disk_seen self.old).faults (mem_disk_seen self.new).faults result }
        ensures fails { IsTrue (fails_now (calls_of self.old)) → IsErr result }
        ensures counted { calls_of self.new ≡ one_more (calls_of self.old) }
        ensures counts { counts_of self.new ≡ sync_more (counts_of self.old) }
    {
        self.counts.count_sync();
        if self.plan.next_fails() || !is_noted(&mut self.steps, Step::Sync) {
            self.faults = self.faults.saturating_add(1);
            return Err(Failed);
        }
        Ok(())
    }
}

#[cfg(test)]
mod tests {
    use super::*;

    fn sector(byte: u8) -> Sector {
        [byte; 512]
    }

    fn byte_of(sectors: &[Sector], at: usize) -> Option<u8> {
        sectors.get(at).map(|sector| sector[0])
    }

    #[test]
    fn a_write_leaves_both_contents_until_the_sync(rt: HostRuntime) {
        let alloc = rt.alloc();
        let mut disk = MemDisk::new(alloc, 2, Vec::new(alloc)).expect(&rt, "memory");
        assert_eq!(rt; disk.sectors(), 2);
        disk.write(0, &sector(1)).expect(&rt, "no call is to fail");
        disk.write(0, &sector(2)).expect(&rt, "no call is to fail");
        disk.write(1, &sector(3)).expect(&rt, "no call is to fail");
        // Sector 0 may have 0, 1 or 2 and sector 1 may have 0 or 3.
        for (pick, first, second) in [(0, 0, 0), (1, 1, 0), (2, 2, 0), (3, 0, 0), (4, 1, 0)] {
            let image = disk.image(alloc, pick).expect(&rt, "memory");
            assert_eq!(rt; byte_of(&image, 0), Some(first), "sector 0 at {pick}");
            assert_eq!(rt; byte_of(&image, 1), Some(second), "sector 1 at {pick}");
        }
        disk.sync().expect(&rt, "no call is to fail");
        let image = disk.image(alloc, 1).expect(&rt, "memory");
        assert_eq!(rt;
            (byte_of(&image, 0), byte_of(&image, 1)),
            (Some(2), Some(3))
        );
        assert_eq!(rt; disk.calls(), (0, 3, 1));
    }

    #[test]
    fn a_longer_disk_has_zeros(rt: HostRuntime) {
        let alloc = rt.alloc();
        let mut disk = MemDisk::new(alloc, 1, Vec::new(alloc)).expect(&rt, "memory");
        disk.write(0, &sector(1)).expect(&rt, "no call is to fail");
        for (size, there) in [(1, 1), (0, 1), (3, 3)] {
            disk.lengthen(alloc, size).expect(&rt, "memory");
            assert_eq!(rt; disk.sectors(), there);
        }
        assert!(rt; disk.sectors() == 3);
        disk.write(2, &sector(4)).expect(&rt, "no call is to fail");
        // Sector 0 may have 0 or 1, sector 1 has 0, and sector 2 may have 0 or 4.
        for (pick, first, last) in [(0, 0, 0), (1, 1, 4), (2, 0, 0)] {
            let image = disk.image(alloc, pick).expect(&rt, "memory");
            assert_eq!(rt; byte_of(&image, 0), Some(first), "sector 0 at {pick}");
            assert_eq!(rt; byte_of(&image, 1), Some(0), "sector 1 at {pick}");
            assert_eq!(rt; byte_of(&image, 2), Some(last), "sector 2 at {pick}");
        }
        disk.sync().expect(&rt, "no call is to fail");
        let image = disk.image(alloc, 1).expect(&rt, "memory");
        assert_eq!(rt;
            (byte_of(&image, 0), byte_of(&image, 2)),
            (Some(1), Some(4))
        );
    }

    #[test]
    fn a_failed_write_may_be_left(rt: HostRuntime) {
        let alloc = rt.alloc();
        let listed = Vec::from_slice(alloc, &[1]).expect(&rt, "memory");
        let sectors = Vec::from_slice(alloc, &[sector(7), sector(8)]).expect(&rt, "memory");
        let mut disk = MemDisk::of(alloc, sectors, listed).expect(&rt, "memory");
        let mut out = sector(0);
        disk.read(1, &mut out).expect(&rt, "call 0 isn't listed");
        assert_eq!(rt; out[0], 8);
        assert!(rt; disk.write(0, &sector(9)).is_err());
        assert_eq!(rt; byte_of(disk.contents(), 0), Some(7));
        // Sector 0 may have 7 or 9.
        let image = disk.image(alloc, 1).expect(&rt, "memory");
        assert_eq!(rt;
            (byte_of(&image, 0), byte_of(&image, 1)),
            (Some(9), Some(8))
        );
        disk.fuse(1);
        let mut copy = disk.copy(alloc).expect(&rt, "memory");
        copy.sync().expect(&rt, "the fuse lets one call go on");
        assert!(rt; copy.read(0, &mut out).is_err());
        assert!(rt; copy.write(1, &sector(5)).is_err());
        // Sector 0 is settled at 7, and sector 1 may have 8 or 5: it takes content 2 mod 2 at pick 1.
        let image = copy.image(alloc, 1).expect(&rt, "memory");
        assert_eq!(rt;
            (byte_of(&image, 0), byte_of(&image, 1)),
            (Some(7), Some(8))
        );
        assert_eq!(rt; copy.calls(), (2, 2, 1));
        assert_eq!(rt; disk.calls(), (1, 1, 0));
    }

    #[test]
    fn a_pick_is_taken_modulo_two_to_the_64(rt: HostRuntime) {
        let alloc = rt.alloc();
        let mut disk = MemDisk::new(alloc, 3, Vec::new(alloc)).expect(&rt, "memory");
        disk.write(2, &sector(1)).expect(&rt, "no call is to fail");
        disk.write(2, &sector(2)).expect(&rt, "no call is to fail");
        // 3 * (2^64 - 1) is 2^64 - 3 modulo 2^64, which is 1 modulo 3; the product itself is 0 modulo 3.
        let image = disk.image(alloc, u64::MAX).expect(&rt, "memory");
        assert_eq!(rt; byte_of(&image, 2), Some(1));
    }
}
