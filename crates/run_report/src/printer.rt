// Lines that go out as the work goes on.
ghost use Rattle.std.specs.Prelude.{◌≡◌, false};
ghost use Rattle.run_report.specs.Says.{Says, printing};

use vd_outside::Sink;

/// Remembers whether a write has failed: from then on it writes nothing.
#[derive(Clone, Copy, Debug, PartialEq, Eq, Drop)]
pub struct Printer {
    /// A write has failed.
    pub failed: bool,
}

impl Printer {
    /// No write has failed yet.
    pub fn new() -> Printer
        ensures { result.failed ≡ false }
    {
        Printer { failed: false }
    }

    /// Adds the text, unless a write has failed before.
    pub fn say<S: Sink>(&mut self, out: &mut S, text: &str)
        ensures says { Says (printing self.old.failed (S.taken out.old) (S.faults out.old)) (printing self.new.failed (S.taken out.new) (S.faults out.new)) text.now }
    {
        if self.failed {
            return;
        }
        match out.write(text.as_bytes()) {
            Ok(()) => {}
            Err(_) => self.failed = true,
        }
    }
}
