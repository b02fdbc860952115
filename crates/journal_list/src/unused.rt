// Log sectors past the end of the stored records.
ghost use Rattle.std.specs.Prelude.{◌≡◌, ◌↔◌, ◌≤◌, ◌+◌, ◌*◌, IsTrue, IfOk, length};
ghost use Rattle.vd_disk.specs.Disk.{WhenTold};
ghost use Rattle.journal_layout.specs.Gate.{IsVersion};
ghost use Rattle.journal_layout.specs.Log.{HasHead};
ghost use Rattle.journal_layout.specs.Recovery.{gate_of_live, journal_end};
ghost use Rattle.journal_recover.specs.Causes.{FailsOnly};
ghost use Rattle.journal_recover.specs.Gates.{IsValid};
ghost use Rattle.journal_list.specs.Lists.{AreUnused, OutsideOnly};

use journal_layout::{Head, Live, log_head};
use journal_recover::{RecoverFault, log_sector};
use std::alloc::Global;
use vd_base::Sector;
use vd_disk::Disk;

/// Whether a log sector is headed for this place in the live epoch.
fn is_headed(sector: &Sector, live: &Live, place: u32) -> bool
    requires { IsVersion live.now.version }
    ensures { IsTrue result ↔ HasHead live.now.version live.now.epoch place sector.now }
{
    match log_head(sector, live.version, live.epoch, place) {
        Head::Foreign => false,
        Head::BadHeader => true,
        Head::Count(_) => true,
    }
}

/// The sectors past the end of so many stored records that are headed for their place.
pub fn unused_sectors<D: Disk>(
    alloc: Global,
    disk: &mut D,
    live: &Live,
    records: u64,
) -> Result<Vec<u64>, RecoverFault>
    requires limits { IsValid (gate_of_live live.now) }
    requires room { journal_end live.now ≤ (D.seen disk.old).sectors }
    requires few { records ≤ 30 * live.now.log_sectors }
    ensures unused { IfOk result (λ unused. WhenTold (D.seen disk.old).told (λ sectors. AreUnused sectors live.now records unused.items)) }
    ensures few { IfOk result (λ unused. length unused.items ≤ live.now.log_sectors) }
    ensures outside { OutsideOnly result }
    ensures same { D.seen disk.new ≡ record (D.seen disk.old) { faults = (D.seen disk.new).faults } }
    ensures cause { FailsOnly (D.seen disk.old).faults (D.seen disk.new).faults result RecoverFault.Failed }
    ensures sure { IsTrue (D.seen disk.old).sure → (D.seen disk.new).faults ≡ (D.seen disk.old).faults }
{
    let mut unused = Vec::new(alloc);
    let mut sector = [0; 512];
    for place in ((records + 29) / 30) as u32..live.log_sectors {
        let at = log_sector(live, place);
        disk.read(at, &mut sector)?;
        if is_headed(&sector, live, place) {
            unused.push(at)?;
        }
    }
    Ok(unused)
}
