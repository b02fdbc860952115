// Places in a file.
ghost use Rattle.std.specs.Prelude.{◌≡◌};

use std::marker::Model;

/// A piece of the file: `len` bytes from byte `at` on.
#[derive(Clone, Copy, Debug, PartialEq, Eq, Drop)]
pub struct Span {
    pub at: u32,
    pub len: u32,
}

impl Span {
    ghost use Rattle.std.specs.Prelude.{◌+◌, ◌≤◌, length};
    ghost use Rattle.parm_lex.specs.Spans.{bytes_of};

    /// Its bytes in the file.
    pub fn bytes_in<'a>(&self, bytes: &'a [u8]) -> &'a [u8]
        requires { self.now.at + self.now.len ≤ length bytes.now }
        ensures { result.now ≡ bytes_of bytes.now self.now }
    {
        let rest = &bytes[self.at as usize..];
        &rest[..self.len as usize]
    }
}

/// Spans in order. Contracts see their list.
#[derive(Debug, Drop)]
pub struct Spans {
    spans: Vec<Span>,
}

impl Model for Spans {
    ghost use Rattle.std.specs.Prelude.{List};
    ghost use Rattle.parm_lex.specs.declared.span.Span.{Span};

    ghost Value = { List Span };

    ghost view = { λ list. list.spans.items };
}

impl Spans {
    /// These spans.
    pub fn of(spans: Vec<Span>) -> Spans
        ensures { result ≡ spans.items }
    {
        Spans { spans }
    }

    /// The spans, to be read.
    pub fn as_slice(&self) -> &[Span]
        ensures { result.now ≡ self.now }
    {
        self.spans.as_slice()
    }

    /// The spans.
    pub fn into_vec(self) -> Vec<Span>
        ensures { result.items ≡ self }
    {
        self.spans
    }
}

/// Where a line lies: its number, its length without its end, and the place in the file of its end.
#[derive(Clone, Copy, Debug, PartialEq, Eq, Drop)]
pub struct LinePlace {
    pub number: u32,
    pub width: u32,
    pub end: u32,
}
