// The live gate of a disk.
ghost use Rattle.std.specs.Prelude.{◌≡◌, ◌<◌, IsTrue, Some, None, IfOk};
ghost use Rattle.vd_outside.specs.Causes.{HasCause};
ghost use Rattle.vd_disk.specs.Disk.{WhenTold};
ghost use Rattle.journal_layout.specs.Recovery.{gate_of_live};
ghost use Rattle.journal_recover.specs.Answers.{FindsWanted};
ghost use Rattle.journal_recover.specs.Causes.{FailsOnly};
ghost use Rattle.journal_recover.specs.Gates.{IsGateOf, IsGateFor, IsGreater, IsValid, FindsLive, HasValidGate};

use crate::RecoverFault;
use journal_layout::{Gate, Live, gate_of};
use vd_base::StoreId;
use vd_disk::Disk;
use vd_outside::Failed;

/// The gate of an area.
pub fn gate_at<D: Disk>(disk: &mut D, area: u8) -> Result<Option<Gate>, Failed>
    requires { area < 2 }
    ensures gives { IfOk result (λ found. WhenTold (D.seen disk.old).told (λ sectors. IsGateOf sectors area found)) }
    ensures within { IfOk result (IsGateFor area) }
    ensures same { D.seen disk.new ≡ record (D.seen disk.old) { faults = (D.seen disk.new).faults } }
    ensures cause { HasCause (D.seen disk.old).faults (D.seen disk.new).faults result }
    ensures sure { IsTrue (D.seen disk.old).sure → (D.seen disk.new).faults ≡ (D.seen disk.old).faults }
{
    if disk.sectors() <= area as u64 {
        return Ok(None);
    }
    let mut sector = [0; 512];
    disk.read(area as u64, &mut sector)?;
    Ok(gate_of(&sector, area))
}

/// What a gate says of its area.
pub fn live_of(gate: Gate) -> Live
    ensures { result ≡ record { version = gate.version; epoch = gate.epoch; id = gate.id; log_sectors = gate.log_sectors } }
{
    Live {
        version: gate.version,
        epoch: gate.epoch,
        id: gate.id,
        log_sectors: gate.log_sectors,
    }
}

/// The gate with the greater epoch.
fn greater(first: Option<Gate>, second: Option<Gate>) -> Option<Live>
    requires first { IsGateFor 0 first }
    requires second { IsGateFor 1 second }
    ensures { IsGreater first second result }
{
    match (first, second) {
        (None, None) => None,
        (Some(even), None) => Some(live_of(even)),
        (None, Some(odd)) => Some(live_of(odd)),
        (Some(even), Some(odd)) => {
            if even.epoch < odd.epoch {
                Some(live_of(odd))
            } else {
                Some(live_of(even))
            }
        }
    }
}

/// What the live gate says, where there is one.
fn live_gate<D: Disk>(disk: &mut D) -> Result<Option<Live>, Failed>
    ensures gives { IfOk result (λ found. WhenTold (D.seen disk.old).told (λ sectors. FindsLive sectors found)) }
    ensures valid { IfOk result HasValidGate }
    ensures same { D.seen disk.new ≡ record (D.seen disk.old) { faults = (D.seen disk.new).faults } }
    ensures cause { HasCause (D.seen disk.old).faults (D.seen disk.new).faults result }
    ensures sure { IsTrue (D.seen disk.old).sure → (D.seen disk.new).faults ≡ (D.seen disk.old).faults }
{
    let first = gate_at(disk, 0)?;
    let second = gate_at(disk, 1)?;
    Ok(greater(first, second))
}

/// What the live gate says, where it is the wanted store's.
pub fn wanted_gate<D: Disk>(disk: &mut D, wanted: &StoreId) -> Result<Live, RecoverFault>
    ensures gives { WhenTold (D.seen disk.old).told (λ sectors. FindsWanted sectors wanted.now result) }
    ensures valid { IfOk result (λ live. IsValid (gate_of_live live)) }
    ensures wanted { IfOk result (λ live. live.id ≡ wanted.now) }
    ensures same { D.seen disk.new ≡ record (D.seen disk.old) { faults = (D.seen disk.new).faults } }
    ensures cause { FailsOnly (D.seen disk.old).faults (D.seen disk.new).faults result RecoverFault.Failed }
    ensures sure { IsTrue (D.seen disk.old).sure → (D.seen disk.new).faults ≡ (D.seen disk.old).faults }
{
    let Some(live) = live_gate(disk)? else {
        return Err(RecoverFault::NoJournal);
    };
    if !live.id.is_same(wanted) {
        return Err(RecoverFault::Mismatch {
            found: live.id,
            wanted: *wanted,
        });
    }
    Ok(live)
}
