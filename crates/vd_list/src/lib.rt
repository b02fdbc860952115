//! Lists as plain data: a vector that contracts see as its list, so that records which hold one can be compared with what defines
//! them, wherever their items lie in memory.
//!
//! It stands on std alone.
#![tactic(auto)]

ghost use Rattle.std.specs.Prelude.{◌≡◌};

use std::marker::Model;

/// Items in order. Contracts see their list.
#[derive(Debug, Drop)]
pub struct Items<T> {
    items: Vec<T>,
}

impl<T> Model for Items<T> {
    ghost use Rattle.std.specs.Prelude.{List};

    ghost Value = { List T };

    ghost view = { λ list. list.items.items };
}

impl<T> Items<T> {
    /// These items.
    pub fn of(items: Vec<T>) -> Items<T>
        ensures { result ≡ items.items }
    {
        Items { items }
    }

    /// The items, to be read.
    pub fn as_slice(&self) -> &[T]
        ensures { result.now ≡ self.now }
    {
        self.items.as_slice()
    }

    /// The items.
    pub fn into_vec(self) -> Vec<T>
        ensures { result.items ≡ self }
    {
        self.items
    }
}

#[cfg(test)]
mod tests {
    use super::*;

    #[test]
    fn items_come_back(rt: HostRuntime) {
        let items = Vec::from_slice(rt.alloc(), &[3_u8, 1, 2]).expect(&rt, "memory");
        let list = Items::of(items);
        assert_eq!(rt; list.as_slice(), [3, 1, 2].as_slice());
        assert_eq!(rt; list.into_vec().len(), 3);
    }
}
