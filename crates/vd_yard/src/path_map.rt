// Values by path.
ghost use Rattle.std.specs.Prelude.{◌≡◌, IfOk, IsSome, MatchOption, None, OnErr, OnOk, Some, position, true};
ghost use Rattle.std.specs.Str.{bytes_eq};
ghost use Rattle.vd_yard.specs.Kept.{keep_at, kept_at, nothing_kept};
ghost use Rattle.vd_yard.specs.PathMap.{map_of};

use std::alloc::Global;
use std::marker::Model;
use vd_outside::{NoMemory, Text};

/// A value for each of a few paths. Contracts see the entries, and by `map_of` the finite map.
#[derive(Drop)]
pub struct PathMap<T: Drop> {
    entries: Vec<(Text, T)>,
}

impl<T: Drop> Model for PathMap<T> {
    ghost use Rattle.std.specs.Prelude.{List, ℕ};

    ghost Value = { List (List ℕ × T) };

    ghost view = { λ map. map.entries.items };
}

/// The first entry of a path.
fn index_of<T: Drop>(entries: &[(Text, T)], path: &[u8]) -> Option<usize>
    ensures { result ≡ position (λ entry. bytes_eq entry.0 path.now) entries.now }
{
    entries.iter().position(|entry| entry.0.as_bytes() == path)
}

impl<T: Drop> PathMap<T> {
    /// A map without a path.
    #[tactic(auto, using(crate::proofs::Entries::none_kept))]
    pub fn new(alloc: Global) -> PathMap<T>
        ensures { map_of result ≡ nothing_kept }
    {
        PathMap {
            entries: Vec::new(alloc),
        }
    }

    /// The value at a path, if there is one.
    #[tactic(auto, using(crate::proofs::Entries::found_value, crate::proofs::Entries::found_none))]
    pub fn get(&self, path: &[u8]) -> Option<&T>
        ensures { MatchOption result (kept_at (map_of self.now) path.now ≡ None) (λ value. kept_at (map_of self.now) path.now ≡ Some value.now) }
    {
        match index_of(&self.entries, path) {
            Some(at) => Some(&self.entries[at].1),
            None => None,
        }
    }

    /// Puts a value in the place of the one at a path.
    #[tactic(auto, using(crate::proofs::Entries::replaced, crate::proofs::Entries::found_none))]
    pub fn replace(&mut self, path: &[u8], value: T)
        requires { IsSome (kept_at (map_of self.old) path.now) }
        ensures { map_of self.new ≡ keep_at true (map_of self.old) path.now value }
    {
        if let Some(at) = index_of(&self.entries, path) {
            self.entries[at].1 = value;
        }
    }

    /// Puts a value at a path, in the place of the one that is there.
    #[tactic(auto, using(crate::proofs::Entries::replaced, crate::proofs::Entries::added))]
    pub fn put(&mut self, path: Text, value: T) -> Result<(), NoMemory>
        ensures ok { OnOk result (map_of self.new ≡ keep_at true (map_of self.old) path value) }
        ensures err { OnErr result (self.new ≡ self.old) }
    {
        if let Some(at) = index_of(&self.entries, path.as_bytes()) {
            self.entries[at].1 = value;
            return Ok(());
        }
        match self.entries.push((path, value)) {
            Ok(()) => Ok(()),
            Err(_) => Err(NoMemory),
        }
    }
}
