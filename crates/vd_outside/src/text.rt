// Text that contracts see as its bytes, and want of memory.
ghost use Rattle.std.specs.Prelude.{◌≡◌, ◌++◌, IfOk, OnErr, OnOk, Some, SomeIff, string_bytes};
ghost use Rattle.std.specs.Str.{IsUtf8};

use std::alloc::{AllocError, Global};
use std::fmt;
use std::marker::Model;

/// Memory ran out.
#[derive(Clone, Copy, Debug, PartialEq, Eq, Drop)]
pub struct NoMemory;

impl From<AllocError> for NoMemory {
    fn from(_: AllocError) -> Self {
        NoMemory
    }
}

/// A text. Contracts see its bytes.
#[derive(Drop)]
pub struct Text {
    inner: String,
}

impl Model for Text {
    ghost use Rattle.std.specs.Prelude.{List, string_bytes, ℕ};

    ghost Value = { List ℕ };

    ghost view = { λ text. string_bytes text.inner };
}

impl Text {
    /// A copy of this text.
    pub fn from_str(alloc: Global, text: &str) -> Result<Text, NoMemory>
        ensures { IfOk result (λ copy. copy ≡ text.now) }
    {
        Ok(Text {
            inner: String::from_str(alloc, text)?,
        })
    }

    /// A copy of these bytes, where they are UTF-8.
    pub fn from_utf8(alloc: Global, bytes: &[u8]) -> Result<Option<Text>, NoMemory>
        ensures { IfOk result (λ text. SomeIff text (IsUtf8 bytes.now) bytes.now) }
    {
        match std::str::from_utf8(bytes) {
            Ok(text) => Ok(Some(Text::from_str(alloc, text)?)),
            Err(_) => Ok(None),
        }
    }

    /// This string's text.
    pub fn of(inner: String) -> Text
        ensures { result ≡ string_bytes inner }
    {
        Text { inner }
    }

    /// The text.
    pub fn as_str(&self) -> &str
        ensures { result.now ≡ self.now }
    {
        self.inner.as_str()
    }

    /// The text's bytes.
    pub fn as_bytes(&self) -> &[u8]
        ensures { result.now ≡ self.now }
    {
        self.inner.as_bytes()
    }

    /// Adds text at the end.
    pub fn push(&mut self, more: &str) -> Result<(), NoMemory>
        ensures ok { OnOk result (self.new ≡ self.old ++ more.now) }
        ensures err { OnErr result (self.new ≡ self.old) }
    {
        self.inner.push_str(more)?;
        Ok(())
    }
}

impl fmt::Display for Text {
    ghost output = { λ text. Some text };

    fn fmt<W: fmt::Write>(&self, f: &mut fmt::Formatter<W>) -> fmt::Result {
        f.write_str(self.as_str())
    }
}

#[cfg(test)]
mod tests {
    use super::*;

    #[test]
    fn texts_are_made_and_printed(rt: HostRuntime) {
        let alloc = rt.alloc();
        let mut text = Text::from_str(alloc, "sd1").expect(&rt, "memory");
        text.push(".jnl").expect(&rt, "memory");
        assert_eq!(rt; text.as_str(), "sd1.jnl");
        let line = format!(in alloc; "journal {text}\n").expect(&rt, "memory");
        assert_eq!(rt; Text::of(line).as_bytes(), b"journal sd1.jnl\n".as_slice());
        let read = Text::from_utf8(alloc, b"a/b").expect(&rt, "memory");
        assert!(rt; read.is_some_and(|text| text.as_str() == "a/b"));
        let refused = Text::from_utf8(alloc, &[0x61, 0xff]).expect(&rt, "memory");
        assert!(rt; refused.is_none());
    }
}
