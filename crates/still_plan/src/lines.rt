// The lines of a journal that isn't recovered.
ghost use Rattle.std.specs.Prelude.{◌≡◌};
ghost use Rattle.run_report.specs.Says.{printing};
ghost use Rattle.still_plan.specs.Lines.{damage_word as word_of_damage, refusal_status, refusal_text, SaysLine, SaysOr};

use journal_layout::Damage;
use journal_recover::RecoverFault;
use run_report::{
    Printer, Status, damaged_line, journal_fault_line, mismatch_line, no_journal_line,
};
use std::alloc::Global;
use vd_base::StoreId;
use vd_outside::{NoMemory, Sink, Text};

/// Says a line that was made, and answers this status; or that memory ran out, and says nothing.
pub fn say_line<S: Sink>(
    line: Result<Text, NoMemory>,
    status: Status,
    printer: &mut Printer,
    out: &mut S,
) -> Status
    ensures { SaysLine line status result (printing printer.old.failed (S.taken out.old) (S.faults out.old)) (printing printer.new.failed (S.taken out.new) (S.faults out.new)) }
{
    match line {
        Ok(line) => {
            printer.say(out, line.as_str());
            status
        }
        Err(_) => Status::NoMemory,
    }
}

fn damage_word(what: Damage) -> &'static str
    ensures { result.now ≡ word_of_damage what }
{
    match what {
        Damage::Missing => "missing",
        Damage::Map => "map",
        Damage::Header => "header",
        Damage::Record => "record",
        Damage::Tail => "tail",
    }
}

/// Says why a journal isn't recovered.
pub fn refuse<S: Sink>(
    alloc: Global,
    store: &StoreId,
    fault: RecoverFault,
    printer: &mut Printer,
    out: &mut S,
) -> Status
    ensures { SaysOr (refusal_text store.now fault) (refusal_status fault) result (printing printer.old.failed (S.taken out.old) (S.faults out.old)) (printing printer.new.failed (S.taken out.new) (S.faults out.new)) }
{
    match fault {
        RecoverFault::NoJournal => say_line(
            no_journal_line(alloc, &store.name),
            Status::NoJournal,
            printer,
            out,
        ),
        RecoverFault::Mismatch { found, .. } => say_line(
            mismatch_line(alloc, &found, store),
            Status::Mismatch,
            printer,
            out,
        ),
        RecoverFault::Damaged { sector, what, at } => say_line(
            damaged_line(alloc, &store.name, sector, damage_word(what), at),
            Status::Damaged,
            printer,
            out,
        ),
        RecoverFault::Failed => say_line(
            journal_fault_line(alloc, &store.name, 0),
            Status::Journal,
            printer,
            out,
        ),
        RecoverFault::NoMemory => Status::NoMemory,
    }
}
