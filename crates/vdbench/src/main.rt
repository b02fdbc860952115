//! The program: real files, the standard output, the system's clock, and the top call.
#![tactic(auto)]

use run_report::{Printer, Status, last_lines};
use std::process::ExitCode;
use std::{env, io};
use vd_outside::{OpenGate, Sink, StdSink, SystemClock};
use vd_yard::HostYard;
use vdbench_top::vdbench;

/// The words after the program's name, or none where memory runs out. A word that isn't UTF-8 is no command's, so there are no words then.
fn words_of(rt: &HostRuntime) -> Option<Vec<String>> {
    let mut words = Vec::new(rt.alloc());
    match env::args(rt) {
        Ok(args) => {
            for word in args.skip(1) {
                if words.push(word).is_err() {
                    return None;
                }
            }
        }
        Err(error) => {
            if error.kind() == io::ErrorKind::OutOfMemory {
                return None;
            }
        }
    }
    Some(words)
}

/// Says that memory ran out, and answers the status to end with.
fn without_memory<S: Sink>(out: &mut S) -> Status {
    let mut printer = Printer::new();
    printer.say(out, last_lines(Status::NoMemory));
    if printer.failed {
        Status::Sink
    } else {
        Status::NoMemory
    }
}

/// Ends with the status of the command that the words say.
fn main(rt: HostRuntime) -> ExitCode {
    let mut out = StdSink::new(io::writer(&rt));
    let Some(words) = words_of(&rt) else {
        return ExitCode::from(without_memory(&mut out).number());
    };
    let mut yard = HostYard::new(&rt);
    let mut clock = SystemClock::new(&rt);
    let status = vdbench(
        &rt,
        rt.alloc(),
        words.as_slice(),
        &mut yard,
        &mut out,
        &mut clock,
        &OpenGate,
    );
    ExitCode::from(status.number())
}
