// A command without a parameter file.
ghost use Rattle.std.specs.Prelude.{◌≡◌, ℕ, List, None, map, string_bytes};
ghost use Rattle.run_report.specs.Says.{Says, printing};
ghost use Rattle.vdbench_top.specs.Words.{steps_of};
ghost use Rattle.vdbench_top.specs.Simulation.{IsSimulated, SaidOfWords};

use crate::words::steps_of_words;
use interleave_core::simulate;
use run_report::{Printer, Simulated, Status, simulation_line, usage_line};
use std::alloc::Global;
use still_plan::say_line;
use vd_outside::Sink;

/// Runs a schedule and prints what it came to.
fn run_simulation<S: Sink>(alloc: Global, steps: u32, printer: &mut Printer, out: &mut S) -> Status
    ensures { (text : List ℕ)
        × Says (printing printer.old.failed (S.taken out.old) (S.faults out.old)) (printing printer.new.failed (S.taken out.new) (S.faults out.new)) text
        × IsSimulated steps text result }
{
    let Ok(counts) = simulate(alloc, steps) else {
        return Status::NoMemory;
    };
    let counted = Simulated {
        steps,
        taken: counts.taken,
        idle: counts.idle,
        ends: counts.ends,
        stops: counts.stops,
        wrong: counts.wrong,
    };
    say_line(simulation_line(alloc, &counted), Status::Good, printer, out)
}

/// Runs the schedule that the words ask for, or prints the usage line.
pub fn run_without_file<S: Sink>(
    alloc: Global,
    words: &[String],
    printer: &mut Printer,
    out: &mut S,
) -> Status
    ensures said { (text : List ℕ)
        × Says (printing printer.old.failed (S.taken out.old) (S.faults out.old)) (printing printer.new.failed (S.taken out.new) (S.faults out.new)) text
        × SaidOfWords (map string_bytes words.now) text result }
    ensures usage_only { result ≡ Status.Usage → steps_of (map string_bytes words.now) ≡ None }
    ensures no_yard { result ≡ Status.Yard → ⊥ }
    ensures no_source { result ≡ Status.Source → ⊥ }
    ensures no_device { result ≡ Status.Device → ⊥ }
    ensures no_sink { result ≡ Status.Sink → ⊥ }
    ensures no_epoch { result ≡ Status.EpochEnd → ⊥ }
{
    match steps_of_words(words) {
        Some(steps) => run_simulation(alloc, steps, printer, out),
        None => {
            printer.say(out, usage_line());
            Status::Usage
        }
    }
}
