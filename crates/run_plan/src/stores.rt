// What a store's definition must have.
ghost use Rattle.std.specs.Prelude.{◌≡◌, ◌||◌, option_copied, is_none};
ghost use Rattle.std.specs.List.{list_any};
ghost use Rattle.run_plan.specs.Plans.{stores_fault};
ghost use Rattle.run_plan.specs.Stores.{has_path, is_taken, store_kind, text_or_empty};

use crate::fault::{PlanFault, PlanKind, at_line};
use parm_records::SdDef;
use vd_outside::Text;

pub(crate) fn bytes_or_empty(text: &Option<Text>) -> &[u8]
    ensures { result.now ≡ text_or_empty text.now }
{
    match text {
        Some(text) => text.as_bytes(),
        None => &[],
    }
}

/// Whether a path is one of a store's two.
fn has_path(d: &SdDef, path: &[u8]) -> bool
    ensures { result ≡ has_path d.now path.now }
{
    bytes_or_empty(&d.lun) == path || d.journal.as_bytes() == path
}

/// Whether an earlier store has one of these paths.
fn any_has(earlier: &[SdDef], path: &[u8], journal: &[u8]) -> bool
    ensures { result ≡ list_any (λ e. has_path e path.now || has_path e journal.now) earlier.now }
{
    earlier
        .iter()
        .any(|e| has_path(e, path) || has_path(e, journal))
}

/// Whether an earlier store has its path or journal, or both are the same.
fn is_taken(earlier: &[SdDef], d: &SdDef) -> bool
    ensures { result ≡ is_taken earlier.now d.now }
{
    let path = bytes_or_empty(&d.lun);
    let journal = d.journal.as_bytes();
    path == journal || any_has(earlier, path, journal)
}

/// What is wrong with a store behind these.
fn store_kind(earlier: &[SdDef], d: &SdDef) -> Option<PlanKind>
    ensures { result ≡ store_kind earlier.now d.now }
{
    if d.lun.is_none() {
        return Some(PlanKind::PathMissing);
    }
    if d.size.is_none() {
        return Some(PlanKind::SizeMissing);
    }
    if is_taken(earlier, d) {
        return Some(PlanKind::PathTaken);
    }
    None
}

/// The first fault of the stores' paths, sizes and journals.
pub(crate) fn stores_fault(sds: &[SdDef]) -> Option<PlanFault>
    ensures { result ≡ stores_fault sds.now }
{
    for i in 0..sds.len() {
        let fault = at_line(sds[i].line, store_kind(&sds[..i], &sds[i]));
        if fault.is_some() {
            return fault;
        }
    }
    None
}
