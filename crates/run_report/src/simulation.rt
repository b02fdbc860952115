// The line of a schedule.
ghost use Rattle.std.specs.Prelude.{◌≡◌, IfOk};
ghost use Rattle.run_report.specs.Simulation.{steps_text, simulation_text};

use std::alloc::Global;
use vd_outside::{NoMemory, Text};

/// What a schedule of so many steps came to.
#[derive(Clone, Copy, Debug, PartialEq, Eq, Drop)]
pub struct Simulated {
    pub steps: u32,
    /// The steps whose event might happen.
    pub taken: u64,
    /// The other steps.
    pub idle: u64,
    /// The beginnings that were ended.
    pub ends: u64,
    /// The stops, each with its recovery.
    pub stops: u64,
    /// The sectors that fitted no key of their block's entry after a stop.
    pub wrong: u64,
}

fn steps_of(alloc: Global, counted: &Simulated) -> Result<Text, NoMemory>
    ensures { IfOk result (λ text. text ≡ steps_text counted.now) }
{
    let steps = counted.steps;
    let taken = counted.taken;
    let idle = counted.idle;
    Ok(Text::of(format!(in alloc; "sim {steps} taken {taken} idle {idle}")?))
}

/// The line of a schedule.
pub fn simulation_line(alloc: Global, counted: &Simulated) -> Result<Text, NoMemory>
    ensures { IfOk result (λ line. line ≡ simulation_text counted.now) }
{
    let front = steps_of(alloc, counted)?;
    let ends = counted.ends;
    let stops = counted.stops;
    let wrong = counted.wrong;
    Ok(Text::of(format!(in alloc; "{front} ends {ends} stops {stops} wrong {wrong}\n")?))
}
