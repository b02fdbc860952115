// Texts of definitions, copied.
ghost use Rattle.std.specs.Prelude.{◌≡◌, IfOk};
ghost use Rattle.std.specs.List.{list_any};
ghost use Rattle.std.specs.Str.{bytes_eq};
ghost use Rattle.run_plan.specs.Plans.{has_word};
ghost use Rattle.run_plan.specs.Sizes.{joined};

use std::alloc::{AllocError, Global};
use vd_outside::Text;

pub(crate) fn copied(alloc: Global, text: &Text) -> Result<Text, AllocError>
    ensures { IfOk result (λ copy. copy ≡ text.now) }
{
    Ok(Text::of(String::from_str(alloc, text.as_str())?))
}

/// Texts with commas between them.
pub(crate) fn joined(alloc: Global, texts: &[Text]) -> Result<Text, AllocError>
    ensures { IfOk result (λ text. text ≡ joined texts.now) }
{
    let Some((first, others)) = texts.split_first() else {
        return Ok(Text::of(String::new(alloc)));
    };
    let mut all = String::from_str(alloc, first.as_str())?;
    for text in others {
        all.push_str(",")?;
        all.push_str(text.as_str())?;
    }
    Ok(Text::of(all))
}

/// Whether a word is among others.
pub(crate) fn has_word(words: &[Text], word: &[u8]) -> bool
    ensures { result ≡ has_word words.now word.now }
{
    words.iter().any(|w| w.as_bytes() == word)
}
