// The names that patterns select.
ghost use Rattle.std.specs.Prelude.{◌≡◌, ◌<◌, ◌^◌, IfOk, IfSome, length, not};
ghost use Rattle.std.specs.List.{list_any, position};
ghost use Rattle.wildcards.specs.Selection.{fits, fits_some, idle_at, nothing_at, nothing_of, places_of};

use crate::SelectFault;
use std::alloc::Global;
use vd_outside::Text;

/// Whether a name fits a pattern: a name, or the front of names with a star behind it.
fn fits(pattern: &[u8], name: &[u8]) -> bool
    ensures { result ≡ fits pattern.now name.now }
{
    match pattern.split_last() {
        Some((b'*', front)) => name.starts_with(front),
        _ => pattern == name,
    }
}

/// Whether a name fits some pattern.
fn fits_some(patterns: &[Text], name: &[u8]) -> bool
    ensures { result ≡ fits_some patterns.now name.now }
{
    patterns
        .iter()
        .any(|pattern| fits(pattern.as_bytes(), name))
}

/// Whether a pattern fits some name.
fn has_name(pattern: &[u8], names: &[Text]) -> bool
    ensures { result ≡ list_any (λ name. fits pattern.now name) names.now }
{
    names.iter().any(|name| fits(pattern, name.as_bytes()))
}

/// The place of the first pattern that fits no name.
fn first_idle(patterns: &[Text], names: &[Text]) -> Option<usize>
    ensures value { result ≡ idle_at patterns.now names.now }
{
    patterns
        .iter()
        .position(|pattern| !has_name(pattern.as_bytes(), names))
}

/// The place of the pattern for which nothing is selected.
fn nothing_at(patterns: &[Text], names: &[Text]) -> Option<u32>
    requires { length patterns.now < 2 ^ 32 }
    ensures { result ≡ nothing_at patterns.now names.now }
{
    if patterns.is_empty() {
        return Some(0);
    }
    first_idle(patterns, names).map(|place| place as u32)
}

/// The places, from 0 and rising, of the names that fit some pattern.
pub fn select(alloc: Global, patterns: &[Text], names: &[Text]) -> Result<Vec<u32>, SelectFault>
    requires few_patterns { length patterns.now < 2 ^ 32 }
    requires few_names { length names.now < 2 ^ 32 }
    ensures chosen { IfOk result (λ places. places.items ≡ places_of patterns.now names.now) }
    // The first pattern that fits no name, exactly where there is one; it comes before want of memory.
    ensures nothing { nothing_of result ≡ nothing_at patterns.now names.now }
{
    if let Some(pattern) = nothing_at(patterns, names) {
        return Err(SelectFault::Nothing { pattern });
    }
    let mut places = Vec::new(alloc);
    for i in 0..names.len() {
        if fits_some(patterns, names[i].as_bytes()) {
            places.push(i as u32)?;
        }
    }
    Ok(places)
}
