// Names with numbers behind them.
ghost use Rattle.std.specs.Prelude.{◌≡◌, ◌++◌, IfOk, decimal};
ghost use Rattle.wildcards.specs.Numbered.{names_of};

use std::alloc::{AllocError, Global};
use vd_outside::{NoMemory, Text};

/// A name with a number behind it.
fn numbered(alloc: Global, name: &Text, number: u128) -> Result<Text, AllocError>
    ensures { IfOk result (λ text. text ≡ name.now ++ decimal number) }
{
    Ok(Text::of(format!(in alloc; "{name}{number}")?))
}

fn numbered_names(
    alloc: Global,
    name: &Text,
    first: u64,
    many: u64,
) -> Result<Vec<Text>, AllocError>
    ensures { IfOk result (λ names. names.items ≡ names_of name.now first many) }
{
    let mut names = Vec::new(alloc);
    for i in 0..many {
        names.push(numbered(alloc, name, first as u128 + i as u128)?)?;
    }
    Ok(names)
}

/// The name with `first`, `first + 1` and so on behind it in decimal, `many` names in all.
pub fn expand_count(
    alloc: Global,
    name: &Text,
    first: u64,
    many: u64,
) -> Result<Vec<Text>, NoMemory>
    ensures { IfOk result (λ names. names.items ≡ names_of name.now first many) }
{
    Ok(numbered_names(alloc, name, first, many)?)
}
