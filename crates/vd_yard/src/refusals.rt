// Calls that are to fail, by path.
ghost use Rattle.std.specs.Prelude.{◌≡◌, ◌++◌, [], ◌∷◌, OnErr, OnOk, Some, map};
ghost use Rattle.std.specs.List.{list_any};
ghost use Rattle.vd_yard.specs.Refusals.{after_call, hits};

use std::alloc::Global;
use std::marker::Model;
use vd_outside::{NoMemory, Text};

/// The refusals in the order in which they were set: each with its path and how many calls on that path go on before the one that
/// fails, or none once it came. Contracts see the list.
#[derive(Drop)]
pub struct Refusals {
    list: Vec<(Text, Option<u64>)>,
}

impl Model for Refusals {
    ghost use Rattle.std.specs.Prelude.{List, Option, ℕ};

    ghost Value = { List (List ℕ × Option ℕ) };

    ghost view = { λ refusals. refusals.list.items };
}

impl Refusals {
    /// No refusal is set.
    pub fn new(alloc: Global) -> Refusals
        ensures { result ≡ [] }
    {
        Refusals {
            list: Vec::new(alloc),
        }
    }

    /// Makes the call on this path fail before which so many go on.
    pub fn add(&mut self, path: Text, place: u64) -> Result<(), NoMemory>
        ensures ok { OnOk result (self.new ≡ self.old ++ (path, Some place) ∷ []) }
        ensures err { OnErr result (self.new ≡ self.old) }
    {
        match self.list.push((path, Some(place))) {
            Ok(()) => Ok(()),
            Err(_) => Err(NoMemory),
        }
    }

    /// Counts a call on a path, and says whether it is refused.
    pub fn is_next_refused(&mut self, path: &Text) -> bool
        ensures answer { result ≡ list_any (hits path.now) self.old }
        ensures counted { self.new ≡ map (after_call path.now) self.old }
    {
        count_all(&mut self.list, path.as_bytes())
    }
}

fn count_one(refusal: &mut (Text, Option<u64>), path: &[u8]) -> bool
    ensures answer { result ≡ hits path.now refusal.old }
    ensures counted { refusal.new ≡ after_call path.now refusal.old }
{
    if refusal.0.as_bytes() != path {
        return false;
    }
    match refusal.1 {
        None => false,
        Some(0) => {
            refusal.1 = None;
            true
        }
        Some(left) => {
            refusal.1 = Some(left - 1);
            false
        }
    }
}

fn count_all(refusals: &mut [(Text, Option<u64>)], path: &[u8]) -> bool
    ensures answer { result ≡ list_any (hits path.now) refusals.old }
    ensures counted { refusals.new ≡ map (after_call path.now) refusals.old }
{
    let mut refused = false;
    for at in 0..refusals.len() {
        let hit = count_one(&mut refusals[at], path);
        refused = refused || hit;
    }
    refused
}
