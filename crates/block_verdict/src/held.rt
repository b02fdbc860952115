// Which of the two keys of a pending block its sectors match.
ghost use Rattle.std.specs.Prelude.{◌↔◌, IsTrue};

/// Whether each sector that was seen matches the old key, and whether each matches the new one.
#[derive(Clone, Copy, Debug, PartialEq, Eq, Drop)]
pub struct Held {
    pub old: bool,
    pub new: bool,
}

/// What both say.
#[inline(always)]
pub fn both(one: Held, other: Held) -> Held
    ensures old { IsTrue result.old ↔ (IsTrue one.old × IsTrue other.old) }
    ensures new { IsTrue result.new ↔ (IsTrue one.new × IsTrue other.new) }
{
    Held {
        old: one.old & other.old,
        new: one.new & other.new,
    }
}
