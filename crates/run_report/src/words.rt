// Lines of a command as a whole, and of its files.
ghost use Rattle.std.specs.Prelude.{◌≡◌, IfOk};
ghost use Rattle.run_report.specs.Lines.{usage_text, cannot_open_text, cannot_read_text};

use std::alloc::Global;
use vd_outside::{NoMemory, Text};

/// What is printed where the words are no command.
pub fn usage_line() -> &'static str
    ensures { result.now ≡ usage_text }
{
    "usage: vdbench -f file [-s or -v or -vr or -j or -jr or -jro] [-o dir], or vdbench -sim n\n"
}

/// What is printed where the yard can't open a file.
pub fn cannot_open_line(alloc: Global, path: &Text) -> Result<Text, NoMemory>
    ensures { IfOk result (λ line. line ≡ cannot_open_text path.now) }
{
    Ok(Text::of(format!(in alloc; "cannot open {path}\n")?))
}

/// What is printed where a read of the parameter file fails.
pub fn cannot_read_line(alloc: Global, path: &Text) -> Result<Text, NoMemory>
    ensures { IfOk result (λ line. line ≡ cannot_read_text path.now) }
{
    Ok(Text::of(format!(in alloc; "cannot read {path}\n")?))
}
