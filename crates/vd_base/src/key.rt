// Keys, the generations of a block.
ghost use Rattle.std.specs.Prelude.{◌≡◌, ◌≤◌, ◌<◌, SomeIff};
ghost use Rattle.vd_base.specs.Key.{next};

use std::marker::Model;

/// The generation of a block: 0 for one that was never written, else 1 to 126. Contracts see the number.
#[derive(Clone, Copy, Debug, PartialEq, Eq, Drop)]
pub struct Key {
    number: u8,
}

impl Model for Key {
    ghost use Rattle.std.specs.Prelude.{ℕ, ◌≤◌};

    ghost Value = { ℕ };

    ghost view = { λ k. k.number };

    ghost invariant = { λ k. k.number ≤ 126 };

    ghost inverse = { λ n. record { number = n } };
}

impl Key {
    /// The key of a block that was never written.
    pub fn never() -> Key
        ensures { result ≡ 0 }
    {
        Key { number: 0 }
    }

    /// The key of this number, where it is one.
    pub fn of(n: u8) -> Option<Key>
        ensures { SomeIff result (n ≤ 126) n }
    {
        if n <= 126 {
            Some(Key { number: n })
        } else {
            None
        }
    }

    /// The number.
    pub fn get(self) -> u8
        ensures value { result ≡ self }
        ensures range { self ≤ 126 }
    {
        self.number
    }
}

/// The key of the next write: after 126 comes 1.
pub fn next_key(key: Key) -> Key
    ensures { result ≡ next key }
{
    Key {
        number: key.number % 126 + 1,
    }
}
