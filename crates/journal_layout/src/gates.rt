// The bytes of gates.
ghost use Rattle.std.specs.Prelude.{◌≡◌, ◌↔◌, ℕ, ◌+◌, ◌%◌, IsTrue, MatchOption, slice_range};
ghost use Rattle.std.specs.Int.{w32, to_be_bytes};
ghost use Rattle.vd_base.specs.Geometry.{Shape, IsGeometry};
ghost use Rattle.vd_base.specs.declared.geometry.StoreId.{StoreId as AnId};
ghost use Rattle.journal_layout.specs.declared.gate.Gate.{Gate as AGate};
ghost use Rattle.journal_layout.specs.Gate.{IsVersion, gate_magic, IsIdIn, IsWithinLimits, IsGate};

use crate::Gate;
use crate::bytes::{eight_at, eight_bytes, four_at, is_zero_between, put_bytes};
use vd_base::{Geometry, Sector, StoreId, StoreName};

/// How a gate of this version begins.
fn magic_of(version: u8) -> [u8; 8]
    requires { IsVersion version }
    ensures { result ≡ gate_magic version }
{
    let mut magic = *b"VDJGATE0";
    magic[7] = b'0' + version;
    magic
}

fn has_magic(sector: &Sector, version: u8) -> bool
    requires { IsVersion version }
    ensures { IsTrue result ↔ (slice_range sector.now 0 8 ≡ gate_magic version) }
{
    &sector[..8] == magic_of(version).as_slice()
}

/// The version with which a gate begins.
fn version_in(sector: &Sector) -> Option<u8>
    ensures { MatchOption result
        ((version : ℕ) → IsVersion version → slice_range sector.now 0 8 ≡ gate_magic version → ⊥)
        (λ version. IsVersion version × (slice_range sector.now 0 8 ≡ gate_magic version)) }
{
    if has_magic(sector, 1) {
        return Some(1);
    }
    if has_magic(sector, 2) {
        return Some(2);
    }
    None
}

/// The geometry in a gate.
fn geometry_in(sector: &Sector) -> Option<Geometry>
    ensures { MatchOption result
        ((shape : Shape) → slice_range sector.now 24 28 ≡ to_be_bytes w32 shape.blocks → slice_range sector.now 28 32 ≡ to_be_bytes w32 shape.block_size
        → IsGeometry shape.blocks shape.block_size → ⊥)
        (λ shape. (slice_range sector.now 24 28 ≡ to_be_bytes w32 shape.blocks) × (slice_range sector.now 28 32 ≡ to_be_bytes w32 shape.block_size)
        × IsGeometry shape.blocks shape.block_size) }
{
    Geometry::new(four_at(sector, 24), four_at(sector, 28))
}

/// The store of a gate.
fn id_in(sector: &Sector) -> Option<StoreId>
    ensures { MatchOption result ((id : AnId) → IsIdIn sector.now id → ⊥) (IsIdIn sector.now) }
{
    let name = StoreName::from_padded(&eight_bytes(sector, 16))?;
    let geometry = geometry_in(sector)?;
    Some(StoreId { name, geometry })
}

/// The gate that is valid for this area.
pub fn gate_of(sector: &Sector, area: u8) -> Option<Gate>
    ensures { MatchOption result ((gate : AGate) → IsGate area sector.now gate → ⊥) (IsGate area sector.now) }
{
    let version = version_in(sector)?;
    let id = id_in(sector)?;
    let epoch = eight_at(sector, 8);
    let log_sectors = four_at(sector, 32);
    if epoch < 1 << 63
        && epoch % 2 == area as u64
        && 1 <= log_sectors
        && log_sectors <= 65_536
        && is_zero_between(sector, 36, 512)
    {
        Some(Gate {
            version,
            epoch,
            id,
            log_sectors,
        })
    } else {
        None
    }
}

/// Makes the sector this gate, which is valid for the area of its epoch.
pub fn put_gate(gate: &Gate, out: &mut Sector)
    requires { IsWithinLimits gate.now }
    ensures { IsGate (gate.now.epoch % 2) out.new gate.now }
{
    *out = [0; 512];
    put_bytes(out, 0, &magic_of(gate.version));
    put_bytes(out, 8, &gate.epoch.to_be_bytes());
    put_bytes(out, 16, &gate.id.name.padded());
    put_bytes(out, 24, &gate.id.geometry.blocks().to_be_bytes());
    put_bytes(out, 28, &gate.id.geometry.block_size().to_be_bytes());
    put_bytes(out, 32, &gate.log_sectors.to_be_bytes());
}

#[cfg(test)]
mod tests {
    use super::*;

    #[test]
    fn the_gate_of_a_new_journal(rt: HostRuntime) {
        // Store sd1 of 16 blocks of 4,096 bytes, 4,096 log sectors, epoch 0.
        let mut sector = [0; 512];
        sector[..36].copy_from_slice(&[
            0x56, 0x44, 0x4a, 0x47, 0x41, 0x54, 0x45, 0x31, 0, 0, 0, 0, 0, 0, 0, 0, 0x73, 0x64,
            0x31, 0, 0, 0, 0, 0, 0, 0, 0, 0x10, 0, 0, 0x10, 0, 0, 0, 0x10, 0,
        ]);
        let gate = gate_of(&sector, 0).expect(&rt, "the bytes of a gate");
        assert_eq!(rt; (gate.version, gate.epoch, gate.log_sectors), (1, 0, 4096));
        assert_eq!(rt; gate.id.name.as_bytes(), b"sd1".as_slice());
        assert_eq!(rt; gate.id.geometry.blocks(), 16);
        assert_eq!(rt; gate.id.geometry.block_size(), 4096);
        assert!(rt; gate_of(&sector, 1).is_none(), "its epoch is even");
        // Version 2 in the eighth byte, epoch 3 in the sixteenth.
        sector[7] = 0x32;
        sector[15] = 3;
        let gate = gate_of(&sector, 1).expect(&rt, "the bytes of a gate");
        assert_eq!(rt; (gate.version, gate.epoch), (2, 3));
        sector[7] = 0x33;
        assert!(rt; gate_of(&sector, 1).is_none(), "there is no version 3");
    }
}
