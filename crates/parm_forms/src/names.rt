// Names and patterns.
ghost use Rattle.std.specs.Prelude.{◌≡◌};
ghost use Rattle.std.specs.List.{list_all};
ghost use Rattle.parm_forms.specs.Forms.{is_other_byte as may_stand_in_name, is_other_name, is_pattern};
ghost use Rattle.vd_base.specs.Name.{is_store_name};

use vd_base::StoreName;

/// The most bytes of a name other than a store's.
const MOST_NAME_BYTES: usize = 32;

fn is_other_byte(byte: u8) -> bool
    ensures { result ≡ may_stand_in_name byte }
{
    matches!(byte, b'a'..=b'z' | b'A'..=b'Z' | b'0'..=b'9' | b'_' | b'-' | b'.')
}

fn are_other_bytes(item: &[u8]) -> bool
    ensures { result ≡ list_all may_stand_in_name item.now }
{
    item.iter().all(|byte| is_other_byte(*byte))
}

/// Whether it is a name other than a store's: 1 to 32 letters, digits, `_`, `-` and `.`.
pub fn is_other_name(item: &[u8]) -> bool
    ensures { result ≡ is_other_name item.now }
{
    1 <= item.len() && item.len() <= MOST_NAME_BYTES && are_other_bytes(item)
}

fn is_store_name(item: &[u8]) -> bool
    ensures { result ≡ is_store_name item.now }
{
    StoreName::read(item).is_some()
}

/// Whether it is the name of a store, or a prefix of one with a star behind it.
pub fn is_store_pattern(item: &[u8]) -> bool
    ensures { result ≡ is_pattern is_store_name item.now }
{
    match item {
        [b'*'] => true,
        [prefix @ .., b'*'] => is_store_name(prefix),
        _ => is_store_name(item),
    }
}

/// Whether it is another name, or a prefix of one with a star behind it.
pub fn is_other_pattern(item: &[u8]) -> bool
    ensures { result ≡ is_pattern is_other_name item.now }
{
    match item {
        [b'*'] => true,
        [prefix @ .., b'*'] => is_other_name(prefix),
        _ => is_other_name(item),
    }
}
