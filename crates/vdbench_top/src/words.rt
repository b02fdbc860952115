// What the words of a command ask for.
ghost use Rattle.std.specs.Prelude.{◌≡◌, IfSome, Some, None, map, string_bytes, length};
ghost use Rattle.std.specs.Option.{option_map};
ghost use Rattle.command_words.specs.Words.{command_said};
ghost use Rattle.vdbench_top.specs.Words.{file_of, is_show as shows_mode, asked, keeping_of as keeping_in, name_at as name_at_word, name_in as name_in_word, run_of, shows_plan as plan_shown, steps_of};

use command_words::{Command, Mode};

/// How the runs of a command keep account of their writes, for the recovery after a stop.
#[derive(Clone, Copy, Debug, PartialEq, Eq, Drop)]
pub enum Keeping {
    /// Not at all.
    Nothing,
    /// In a journal for each store, made anew.
    NewJournals,
    /// In the journals that the stores have, which are recovered first.
    OldJournals,
}

/// How the runs of a mode keep what was written, where it makes runs.
fn keeping_of(mode: Mode) -> Option<Keeping>
    ensures { result ≡ keeping_in mode }
{
    match mode {
        Mode::Validate => Some(Keeping::Nothing),
        Mode::Journal => Some(Keeping::NewJournals),
        Mode::Recover => Some(Keeping::OldJournals),
        Mode::Show | Mode::RecoverOnly => None,
        Mode::Simulate(_) => None,
    }
}

/// The command that the words say: `-s`, `-jro`, `-sim`, `-j`, `-jr`, and `-v`, `-vr` or none of the modes. None for all other words.
pub fn command_of(words: &[String]) -> Option<Command>
    ensures said { result ≡ command_said (map string_bytes words.now) }
    // Each command has a parameter file or a number of steps.
    ensures asks { file_of (map string_bytes words.now) ≡ None → run_of (map string_bytes words.now) ≡ None → steps_of (map string_bytes words.now) ≡ None → command_said (map string_bytes words.now) ≡ None }
{
    command_words::command_of(words)
}

/// The parameter file's name in the word that names it: joined to `-f`, or alone.
fn name_in(word: &str) -> &str
    ensures { result.now ≡ name_in_word word.now }
{
    word.strip_prefix("-f").unwrap_or(word)
}

/// The parameter file's name in the word at this place.
fn name_at(words: &[String], file: Option<u32>) -> Option<&str>
    ensures { option_map (λ name. name.now) result ≡ name_at_word (map string_bytes words.now) file }
{
    let at = file?;
    let word = words.get(at as usize)?;
    Some(name_in(word.as_str()))
}

/// The name of the parameter file, where the words are a still command over one.
pub fn file_of_words(words: &[String]) -> Option<&str>
    ensures file { option_map (λ name. name.now) result ≡ file_of (map string_bytes words.now) }
    ensures asks { file_of (map string_bytes words.now) ≡ None → run_of (map string_bytes words.now) ≡ None → steps_of (map string_bytes words.now) ≡ None → command_said (map string_bytes words.now) ≡ None }
{
    let command = command_of(words)?;
    match command.mode {
        Mode::Show | Mode::RecoverOnly => name_at(words, command.file),
        Mode::Simulate(_) => None,
        Mode::Validate | Mode::Journal | Mode::Recover => None,
    }
}

/// What the words ask for, where they are a command that runs its plan: the name of the parameter file, whether what was written is to be
/// read again, and how account is kept.
pub fn run_of_words(words: &[String]) -> Option<(&str, bool, Keeping)>
    ensures { option_map (λ run. asked run.0.now run.1 run.2) result ≡ run_of (map string_bytes words.now) }
{
    let command = command_of(words)?;
    let keeping = keeping_of(command.mode)?;
    let name = name_at(words, command.file)?;
    Some((name, command.reread, keeping))
}

/// The number of steps, where the words ask for a schedule.
pub fn steps_of_words(words: &[String]) -> Option<u32>
    ensures { result ≡ steps_of (map string_bytes words.now) }
{
    match command_of(words)?.mode {
        Mode::Simulate(steps) => Some(steps),
        _ => None,
    }
}

fn is_show(mode: Mode) -> bool
    ensures { result ≡ shows_mode mode }
{
    match mode {
        Mode::Show => true,
        _ => false,
    }
}

/// Whether the words ask for the plan.
pub fn shows_plan(words: &[String]) -> bool
    ensures { result ≡ plan_shown (map string_bytes words.now) }
{
    match command_of(words) {
        Some(command) => is_show(command.mode),
        None => false,
    }
}
