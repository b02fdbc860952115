// The words of a command.
ghost use Rattle.std.specs.Prelude.{◌≡◌, ◌+◌, ◌<◌, ◌≤◌, IfSome, Some, length, map, string_bytes};
ghost use Rattle.command_words.specs.Flags.{flags_of, is_own_name as may_be_name, joined_flag as flag_joined, split_flag as flag_split, word_flag as flag_of_word};
ghost use Rattle.command_words.specs.Said.{count_of, finished as command_finished, nothing_said, said_after, with_flag_said, with_named, with_some};
ghost use Rattle.command_words.specs.Words.{command_by, command_said, number_said, simulates};
ghost use Rattle.std.specs.Option.{option_map};
ghost use Rattle.parm_value.specs.Values.{number_in};

use crate::command::Flag;
use crate::{Command, Mode};
use parm_value::number_of;

/// What the options so far say.
#[derive(Clone, Copy, Drop)]
pub struct Said {
    pub file: Option<u32>,
    pub folder: bool,
    pub mode: Option<Mode>,
    pub reread: Option<bool>,
}

fn is_own_name(name: &str) -> bool
    ensures { result ≡ may_be_name name.now }
{
    !name.is_empty() && !name.starts_with("-")
}

fn split_flag(at: u32, word: &str) -> Option<Flag>
    ensures { result ≡ flag_split at word.now }
{
    if word == "-f" {
        Some(Flag::FileAt(at))
    } else if word == "-o" {
        Some(Flag::Folder)
    } else {
        None
    }
}

fn joined_flag(at: u32, word: &str) -> Option<Flag>
    ensures { result ≡ flag_joined at word.now }
{
    if word.starts_with("-f") {
        Some(Flag::FileAt(at))
    } else if word.starts_with("-o") {
        Some(Flag::Folder)
    } else {
        None
    }
}

#[tactic(auto, unfolding(crate::specs::Flags::word_flag))]
fn word_flag(at: u32, word: &str) -> Option<Flag>
    ensures { result ≡ flag_of_word at word.now }
{
    if word == "-s" {
        Some(Flag::Does(Mode::Show))
    } else if word == "-j" {
        Some(Flag::Does(Mode::Journal))
    } else if word == "-jr" {
        Some(Flag::Does(Mode::Recover))
    } else if word == "-jro" {
        Some(Flag::Does(Mode::RecoverOnly))
    } else if word == "-v" {
        Some(Flag::Rereads(false))
    } else if word == "-vr" {
        Some(Flag::Rereads(true))
    } else {
        joined_flag(at, word)
    }
}

/// The same and one option more, which none of its group stood before.
fn with_flag(said: Said, flag: Flag) -> Option<Said>
    ensures value { result ≡ with_flag_said said flag }
    ensures more { IfSome result (λ next. count_of next ≡ count_of said + 1) }
{
    match flag {
        Flag::FileAt(at) if said.file.is_none() => Some(Said {
            file: Some(at),
            ..said
        }),
        Flag::Folder if !said.folder => Some(Said {
            folder: true,
            ..said
        }),
        Flag::Does(mode) if said.mode.is_none() => Some(Said {
            mode: Some(mode),
            ..said
        }),
        Flag::Rereads(again) if said.reread.is_none() => Some(Said {
            reread: Some(again),
            ..said
        }),
        _ => None,
    }
}

/// What one word says, and with it those before.
fn with_word(said: Said, at: u32, word: &str) -> Option<Said>
    ensures value { result ≡ with_some said (flag_of_word at word.now) }
    ensures more { IfSome result (λ next. count_of next ≡ count_of said + 1) }
{
    with_flag(said, word_flag(at, word)?)
}

/// What an option and the name behind it say, and with it those before.
fn with_name(said: Said, flag: Flag, name: &str) -> Option<Said>
    ensures value { result ≡ with_named said flag (may_be_name name.now) }
    ensures more { IfSome result (λ next. count_of next ≡ count_of said + 1) }
{
    if is_own_name(name) {
        with_flag(said, flag)
    } else {
        None
    }
}

/// What the options say, where those before said this. None has a second one of its group.
fn said_by(said: Said, at: u32, words: &[String]) -> Option<Said>
    requires { at ≤ count_of said + count_of said }
    ensures { result ≡ said_after said (flags_of at (map string_bytes words.now)) }
{
    match words {
        [] => Some(said),
        [word] => match split_flag(at + 1, word.as_str()) {
            Some(_) => None,
            None => with_word(said, at, word.as_str()),
        },
        [word, name, ..] => match split_flag(at + 1, word.as_str()) {
            Some(flag) => said_by(with_name(said, flag, name.as_str())?, at + 2, &words[2..]),
            None => said_by(with_word(said, at, word.as_str())?, at + 1, &words[1..]),
        },
    }
}

/// The command that was said, where a file was named.
fn finished(said: Said) -> Option<Command>
    ensures { result ≡ command_finished (Some said) }
{
    let at = said.file?;
    Some(Command {
        mode: said.mode.unwrap_or(Mode::Validate),
        reread: said.reread.unwrap_or(false),
        file: Some(at),
    })
}

/// The command of options.
#[tactic(auto, using(crate::proofs::Orders::in_any_order))]
fn options_said(words: &[String]) -> Option<Command>
    ensures { result ≡ command_by (flags_of 0 (map string_bytes words.now)) }
{
    let nothing = Said {
        file: None,
        folder: false,
        mode: None,
        reread: None,
    };
    finished(said_by(nothing, 0, words)?)
}

/// The schedule of a number, where it is one from 0 to 1,000,000.
fn schedule_said(number: &str) -> Option<Command>
    ensures { result ≡ simulates (number_in 0 1000000 number.now) }
{
    match number_of(number.as_bytes(), 0, 1_000_000) {
        Ok(steps) => Some(Command {
            mode: Mode::Simulate(steps as u32),
            reread: false,
            file: None,
        }),
        Err(_) => None,
    }
}

/// The number of a schedule, where the words ask for one.
fn number_of_words(words: &[String]) -> Option<&str>
    ensures { option_map (λ number. number.now) result ≡ number_said (map string_bytes words.now) }
{
    let [word, number] = words else {
        return None;
    };
    if word.as_str() == "-sim" {
        Some(number.as_str())
    } else {
        None
    }
}

/// The command that the words say: `-f` and a name, or `-f` joined with the name, exactly once; `-o` and a folder, joined or not, at
/// most once and without effect; at most one of `-s`, `-j`, `-jr` and `-jro`; at most one of `-v` and `-vr`; in any order. A name or
/// folder isn't empty, and one in a word of its own doesn't begin with `-`. Or `-sim` and a number from 0 to 1,000,000, alone. None for
/// all other words.
pub fn command_of(words: &[String]) -> Option<Command>
    ensures said { result ≡ command_said (map string_bytes words.now) }
    // The place named is a word's.
    ensures file { IfSome result (λ command. IfSome command.file (λ at. at < length words.now)) }
{
    match number_of_words(words) {
        Some(number) => schedule_said(number),
        None => options_said(words),
    }
}

#[cfg(test)]
mod tests {
    use super::*;
    use std::alloc::Global;
    use std::process::Abort;

    fn said(rt: &impl Abort, alloc: Global, line: &str) -> Option<Command> {
        let mut words = Vec::new(alloc);
        for word in line.split(' ') {
            words
                .push(String::from_str(alloc, word).expect(rt, "memory"))
                .expect(rt, "memory");
        }
        command_of(&words)
    }

    fn command(mode: Mode, reread: bool, file: u32) -> Option<Command> {
        Some(Command {
            mode,
            reread,
            file: Some(file),
        })
    }

    #[test]
    fn words_say_commands(rt: HostRuntime) {
        let alloc = rt.alloc();
        for (line, wanted) in [
            ("-f p", command(Mode::Validate, false, 1)),
            ("-fp", command(Mode::Validate, false, 0)),
            ("-f-x -s", command(Mode::Show, false, 0)),
            ("-s -vr -f p", command(Mode::Show, true, 3)),
            ("-jro -f p -o out", command(Mode::RecoverOnly, false, 2)),
            ("-oout -v -f p -jr", command(Mode::Recover, false, 3)),
            ("-j -fp -vr", command(Mode::Journal, true, 1)),
            ("-f -x", None),
            ("-f", None),
            ("-f p -fq", None),
            ("-s", None),
            ("-s -j -f p", None),
            ("-v -vr -f p", None),
            ("-o a -ob -f p", None),
            ("-f p q", None),
            ("-f p --help", None),
            ("-sim 5 -f p", None),
            ("-sim", None),
            ("-sim 1000001", None),
            ("-sim x", None),
        ] {
            assert_eq!(rt; said(&rt, alloc, line), wanted, "{line}");
        }
        let schedule = Some(Command {
            mode: Mode::Simulate(200_000),
            reread: false,
            file: None,
        });
        assert_eq!(rt; said(&rt, alloc, "-sim 0200000"), schedule);
        assert_eq!(rt; command_of(&[]), None);
    }
}
