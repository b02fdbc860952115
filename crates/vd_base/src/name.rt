// Names of stores.
ghost use Rattle.std.specs.Prelude.{◌≡◌, ◌↔◌, ◌==◌, IsTrue, SomeIff, length, position};
ghost use Rattle.std.specs.List.{list_all};
ghost use Rattle.vd_base.specs.Name.{is_name_byte as may_name, is_store_name, is_padded_name, padded as padded_text, name_text};

use std::fmt;
use std::marker::Model;

/// A store's name: 1 to 8 letters, digits and underscores. Contracts see its eight bytes, the name and then zeros.
#[derive(Clone, Copy, Debug, PartialEq, Eq, Drop)]
pub struct StoreName {
    bytes: [u8; 8],
}

impl Model for StoreName {
    ghost use Rattle.std.specs.Prelude.{List, ℕ, IsTrue};
    ghost use Rattle.vd_base.specs.Name.{is_padded_name};

    ghost Value = { List ℕ };

    ghost view = { λ n. n.bytes };

    ghost invariant = { λ n. IsTrue (is_padded_name n.bytes) };

    ghost inverse = { λ bytes. record { bytes = bytes } };
}

fn is_name_byte(b: u8) -> bool
    ensures { result ≡ may_name b }
{
    matches!(b, b'a'..=b'z' | b'A'..=b'Z' | b'0'..=b'9' | b'_')
}

fn are_name_bytes(text: &[u8]) -> bool
    ensures { result ≡ list_all may_name text.now }
{
    text.iter().all(|b| is_name_byte(*b))
}

fn is_name(text: &[u8]) -> bool
    ensures { result ≡ is_store_name text.now }
{
    1 <= text.len() && text.len() <= 8 && are_name_bytes(text)
}

fn zero_in(bytes: &[u8]) -> Option<usize>
    ensures { result ≡ position (λ b. b == 0) bytes.now }
{
    bytes.iter().position(|b| *b == 0)
}

/// The bytes before the first zero.
#[tactic(auto, using(crate::proofs::Names::before_some, crate::proofs::Names::before_none))]
fn text_in(bytes: &[u8]) -> &[u8]
    ensures { result.now ≡ name_text bytes.now }
{
    match zero_in(bytes) {
        Some(at) => &bytes[..at],
        None => bytes,
    }
}

fn padded_of(text: &[u8]) -> [u8; 8]
    requires { IsTrue (is_store_name text.now) }
    ensures { result ≡ padded_text text.now }
{
    let mut bytes = [0; 8];
    bytes[..text.len()].copy_from_slice(text);
    bytes
}

impl StoreName {
    /// The name of this text, where it is one.
    #[tactic(auto, using(crate::proofs::Names::padded_is_name))]
    pub fn read(text: &[u8]) -> Option<StoreName>
        ensures { SomeIff result (IsTrue (is_store_name text.now)) (padded_text text.now) }
    {
        if !is_name(text) {
            return None;
        }
        let bytes = padded_of(text);
        Some(StoreName { bytes })
    }

    /// The name of these eight bytes, where they are a name and then zeros.
    pub fn from_padded(bytes: &[u8; 8]) -> Option<StoreName>
        ensures { SomeIff result (IsTrue (is_padded_name bytes.now)) bytes.now }
    {
        let text = text_in(bytes);
        if !is_name(text) {
            return None;
        }
        if padded_of(text).as_slice() != bytes.as_slice() {
            return None;
        }
        Some(StoreName { bytes: *bytes })
    }

    /// The eight bytes: the name and then zeros.
    pub fn padded(&self) -> [u8; 8]
        ensures value { result ≡ self.now }
        ensures name { IsTrue (is_padded_name self.now) }
    {
        self.bytes
    }

    /// Whether both are the same name.
    pub fn is_same(&self, other: &StoreName) -> bool
        ensures { IsTrue result ↔ (self.now ≡ other.now) }
    {
        self.bytes.as_slice() == other.bytes.as_slice()
    }

    /// The text, without the zeros.
    pub fn as_bytes(&self) -> &[u8]
        ensures text { result.now ≡ name_text self.now }
        ensures name { IsTrue (is_store_name (name_text self.now)) }
    {
        text_in(&self.bytes)
    }

    /// The text, without the zeros.
    #[tactic(auto, using(crate::proofs::Names::name_utf8))]
    pub fn as_str(&self) -> &str
        ensures { result.now ≡ name_text self.now }
    {
        match std::str::from_utf8(self.as_bytes()) {
            Ok(text) => text,
            Err(_) => unreachable!(),
        }
    }
}

impl fmt::Display for StoreName {
    ghost use Rattle.std.specs.Prelude.{Some};
    ghost use Rattle.vd_base.specs.Name.{name_text};

    ghost output = { λ name. Some (name_text name) };

    fn fmt<W: fmt::Write>(&self, f: &mut fmt::Formatter<W>) -> fmt::Result {
        f.write_str(self.as_str())
    }
}
