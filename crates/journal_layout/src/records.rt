// The bytes of records.
ghost use Rattle.std.specs.Prelude.{◌≡◌, ◌↔◌, ℕ, ◌<◌, ◌≤◌, ◌+◌, ◌*◌, IsTrue, MatchOption};
ghost use Rattle.key_state.specs.declared.record.Record.{Record as ARecord};
ghost use Rattle.key_state.specs.Entries.{first_of};
ghost use Rattle.journal_layout.specs.Bytes.{Puts};
ghost use Rattle.journal_layout.specs.Log.{kind_bytes, record_bytes, IsSpelled, IsBelow, IsRecordOf};

use crate::bytes::{four_at, four_bytes, is_zero_between, put_bytes};
use key_state::Record;
use vd_base::{BlockNo, Key, Sector, next_key};

/// The record of a kind, with keys or a number of blocks.
fn made_of(bytes: [u8; 4], version: u8, first: BlockNo) -> Option<Record>
    ensures { MatchOption result
        ((made : ARecord) → first_of made ≡ first.0 → kind_bytes made ≡ bytes → IsSpelled version made → ⊥)
        (λ made. (first_of made ≡ first.0) × (kind_bytes made ≡ bytes) × IsSpelled version made) }
{
    let [kind, second, third, many] = bytes;
    let old = Key::of(second)?;
    let new = Key::of(third)?;
    let block = first;
    if many == 0 {
        return match kind {
            1 if new.get() == next_key(old).get() => Some(Record::Begin { block, old, new }),
            2 if old.get() == 0 && new.get() != 0 => Some(Record::End { block, key: new }),
            3 if old.get() == 0 && new.get() == 0 => Some(Record::Bad { block }),
            _ => None,
        };
    }
    if version != 2 || old.get() != 0 || new.get() != 0 || many > 64 {
        return None;
    }
    let many = many as u32;
    match kind {
        4 if many >= 2 => Some(Record::BeginRun { first, many }),
        5 if many >= 2 => Some(Record::EndRun { first, many }),
        6 => Some(Record::Clear { first, many }),
        _ => None,
    }
}

/// The record at a place of a log sector, and None exactly where none is spelled for this version and so many blocks.
pub fn record_of(sector: &Sector, index: usize, version: u8, blocks: u32) -> Option<Record>
    requires { index < 30 }
    ensures { MatchOption result ((made : ARecord) → IsRecordOf version blocks sector.now index made → ⊥) (IsRecordOf version blocks sector.now index) }
{
    let at = 16 * index;
    if !is_zero_between(sector, 40 + at, 48 + at) {
        return None;
    }
    let made = made_of(
        four_bytes(sector, 32 + at),
        version,
        BlockNo(four_at(sector, 36 + at)),
    )?;
    if made.first().0 as u64 + made.many() as u64 <= blocks as u64 {
        Some(made)
    } else {
        None
    }
}

/// The kind of a record, its keys and its number of blocks.
fn kind_of(made: &Record) -> [u8; 4]
    requires { IsSpelled 2 made.now }
    ensures { result ≡ kind_bytes made.now }
{
    match made {
        Record::Begin { old, new, .. } => [1, old.get(), new.get(), 0],
        Record::End { key, .. } => [2, 0, key.get(), 0],
        Record::Bad { .. } => [3, 0, 0, 0],
        Record::BeginRun { many, .. } => [4, 0, 0, *many as u8],
        Record::EndRun { many, .. } => [5, 0, 0, *many as u8],
        Record::Clear { many, .. } => [6, 0, 0, *many as u8],
    }
}

/// Puts a record at a place of a log sector, and leaves the other bytes. It is read back by each version that spells it, for as
/// many blocks as it needs.
pub fn put_record(sector: &mut Sector, index: usize, made: &Record)
    requires place { index < 30 }
    requires spelled { IsSpelled 2 made.now }
    ensures bytes { Puts (32 + 16 * index) (record_bytes made.now) sector.old sector.new }
    ensures read_back { (version : ℕ) (blocks : ℕ) → IsSpelled version made.now → IsBelow blocks made.now → IsRecordOf version blocks sector.new index made.now }
{
    let at = 32 + 16 * index;
    put_bytes(sector, at, &kind_of(made));
    put_bytes(sector, at + 4, &made.first().0.to_be_bytes());
    put_bytes(sector, at + 8, &[0; 8]);
}

#[cfg(test)]
mod tests {
    use super::*;
    use crate::{Head, log_head};

    #[test]
    fn the_records_of_both_versions(rt: HostRuntime) {
        // The first bytes, the version, the blocks; what is read by the kind, the first block and the number of blocks.
        for (bytes, version, blocks, want) in [
            ([1, 125, 126, 0, 0, 0, 0, 5], 1, 16, Some((1, 5, 1))),
            ([1, 126, 1, 0, 0, 1, 0, 0], 2, 65537, Some((1, 65536, 1))),
            ([1, 3, 5, 0, 0, 0, 0, 5], 1, 16, None),
            ([2, 0, 1, 0, 0, 0, 0, 15], 1, 16, Some((2, 15, 1))),
            ([2, 0, 1, 0, 0, 0, 0, 15], 1, 15, None),
            ([2, 0, 0, 0, 0, 0, 0, 1], 1, 16, None),
            ([3, 0, 0, 0, 0, 0, 0, 2], 2, 16, Some((3, 2, 1))),
            ([4, 0, 0, 4, 0, 0, 0, 12], 2, 16, Some((4, 12, 4))),
            ([4, 0, 0, 4, 0, 0, 0, 12], 1, 16, None),
            ([4, 0, 0, 4, 0, 0, 0, 13], 2, 16, None),
            ([5, 0, 0, 64, 0, 0, 0, 0], 2, 64, Some((5, 0, 64))),
            ([5, 0, 0, 1, 0, 0, 0, 0], 2, 64, None),
            ([6, 0, 0, 1, 0, 0, 0, 9], 2, 16, Some((6, 9, 1))),
            ([6, 0, 0, 65, 0, 0, 0, 0], 2, 100, None),
            ([7, 0, 0, 2, 0, 0, 0, 0], 2, 16, None),
        ] {
            let mut sector = [0; 512];
            sector[32 + 16 * 29..40 + 16 * 29].copy_from_slice(&bytes);
            let made = record_of(&sector, 29, version, blocks);
            let kind = bytes[0];
            let read = made.map(|made| (kind, made.first().0, made.many()));
            assert_eq!(rt;
                read,
                want,
                "{bytes:?} in version {version} of {blocks} blocks"
            );
        }
    }

    #[test]
    fn a_log_sector_of_one_record(rt: HostRuntime) {
        let mut sector = [0; 512];
        // VDJLOGS2, epoch 258, place 7, one record: the end of blocks 8 to 11.
        sector[..40].copy_from_slice(&[
            0x56, 0x44, 0x4a, 0x4c, 0x4f, 0x47, 0x53, 0x32, 0, 0, 0, 0, 0, 0, 1, 2, 0, 0, 0, 7, 0,
            1, 0, 0, 0, 0, 0, 0, 0, 0, 0, 0, 5, 0, 0, 4, 0, 0, 0, 8,
        ]);
        assert_eq!(rt; log_head(&sector, 2, 258, 7), Head::Count(1));
        assert_eq!(rt; log_head(&sector, 1, 258, 7), Head::Foreign);
        assert_eq!(rt; log_head(&sector, 2, 258, 6), Head::Foreign);
        let first = BlockNo(8);
        let made = Record::EndRun { first, many: 4 };
        assert_eq!(rt; record_of(&sector, 0, 2, 12), Some(made));
        let mut written = [0; 512];
        crate::put_log_head(&mut written, 2, 258, 7, 1);
        put_record(&mut written, 0, &made);
        assert!(rt; written.as_slice() == sector.as_slice(), "one spelling");
    }
}
