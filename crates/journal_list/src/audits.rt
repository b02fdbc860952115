// Whether a list of records is legal.
ghost use Rattle.std.specs.Prelude.{◌≡◌, ◌≤◌, length};
ghost use Rattle.key_state.specs.Entries.{AreEntries};
ghost use Rattle.journal_list.specs.Audits.{Audits, made_of};

use crate::counts::{count_ends, first_outside};
use crate::outcome::Audit;
use crate::window::{WINDOW, count_window, make_window};
use key_state::{Entry, Record};

/// The audit over windows of blocks, each made in `window`.
fn audit_in(base: &[Entry], records: &[(u64, u32, Record)], window: &mut [Entry]) -> Audit
    requires blocks { length base.now ≤ 16777216 }
    requires records { length records.now ≤ 1966080 }
    requires valid { AreEntries base.now }
    requires window { length window.old ≡ 65536 }
    ensures audits { Audits base.now (made_of records.now) result }
{
    let mut legal = first_outside(records, base.len());
    let mut pending = 0;
    let mut bad = 0;
    for part in 0..(base.len() + 65535) / WINDOW {
        let low = WINDOW * part;
        let high = base.len().min(low + WINDOW);
        legal = make_window(base, low, high, records, legal, window);
        let counts = count_window(window, high - low);
        pending += counts.pending;
        bad += counts.bad;
    }
    if legal < records.len() {
        Audit::Illegal { at: legal as u64 }
    } else {
        Audit::Legal {
            ends: count_ends(records),
            pending,
            bad,
        }
    }
}

/// Whether records are legal from the entries of the blocks before them: each is legal at each of its blocks after those before it, and
/// none names a block past the last entry. It takes no memory; the records are gone through once for 65,536 blocks.
pub fn audit(base: &[Entry], records: &[(u64, u32, Record)]) -> Audit
    requires blocks { length base.now ≤ 16777216 }
    requires records { length records.now ≤ 1966080 }
    requires valid { AreEntries base.now }
    ensures audits { Audits base.now (made_of records.now) result }
{
    let mut window = [Entry::Bad; 65536];
    audit_in(base, records, &mut window)
}
