// What holds of every line that is read.
ghost use Rattle.parm_lex.specs.Spelling.{LinesAreSpelled, NoPartIsWantedAtAnEnd, SpelledLinesAreRead};

/// A line that is read is spelled by the grammar: words and values between commas and blanks, in one piece. So what is read of it
/// doesn't depend on the order in which a reader goes.
pub fn lines_are_spelled()
    ensures { LinesAreSpelled }
{}

/// What the grammar spells is read, so a line that lies in a file is accepted exactly where it spells the line.
pub fn spelled_lines_are_read()
    ensures { SpelledLinesAreRead }
{}

/// A part is never wanted at the end of a line, so the fault of a missing part is always at a byte of the line.
pub fn no_part_is_wanted_at_an_end()
    ensures { NoPartIsWantedAtAnEnd }
{}
