// A command that runs its plan.
ghost use Rattle.std.specs.Prelude.{◌≡◌, ◌≢◌, ◌⊎◌, [], IfErr, IfOk, IsTrue, List, None, OnOk, Some, map, string_bytes, true, ℕ};
ghost use Rattle.vd_outside.specs.Causes.{Rose};
ghost use Rattle.vd_yard.specs.Counts.{arm_faults, source_faults};
ghost use Rattle.vd_yard.specs.Out.{AtSource};
ghost use Rattle.vd_yard.specs.Yard.{StaysThere, is_there};
ghost use Rattle.plan_types.specs.Valid.{IsPlan};
ghost use Rattle.run_report.specs.Says.{Says, printing};
ghost use Rattle.run_report.specs.declared.status.Status.{Status as AStatus};
ghost use Rattle.plan_kept.specs.Fits.{FitsItsJournal};
ghost use Rattle.plan_runs.specs.Stages.{stage};
ghost use Rattle.vdbench_top.specs.Calls.{StillCall};
ghost use Rattle.vdbench_top.specs.Clean.{CallFindsNone, SaidFindsNone};
ghost use Rattle.vdbench_top.specs.Headline.{EveryInterleaving, ReportsExactly};
ghost use Rattle.vdbench_top.specs.Kept.{DataFitsJournals, EndsWell, KeepsFitting, NothingFails, OfItsStores};
ghost use Rattle.vdbench_top.specs.Runs.{CanEndAs, HasJournals, HasNoPlan, MakesJournals, NoJournalEnd, OnlyReads, RunCall, RunsFile, UsesJournals, rereading};
ghost use Rattle.vdbench_top.specs.Still.{IsPlanOf, SaidOfFile};
ghost use Rattle.vdbench_top.specs.Sums.{CallAddsUp};
ghost use Rattle.vdbench_top.specs.Words.{Asked, asked, file_of, run_of, shows_plan};

use crate::source::{Unread, read_file};
use crate::still::{end, vdbench_still};
use crate::words::{Keeping, run_of_words};
use block_verdict::verdict_laws;
use interleave_core::stays_sound;
use journal_core::JournalBook;
use key_state::{Book, QuietBook};
use plan_file::{Unplanned, plan_of_file};
use plan_journaled::run_journaled;
use plan_kept::{count_laws, ending_laws, kept_laws, sound_laws};
use plan_resumed::run_resumed;
use plan_runs::run_quietly;
use plan_totals::{runs_add_up, runs_are_drawn};
use plan_types::Plan;
use run_report::{Printer, Status, cannot_open_line, cannot_read_line};
use std::alloc::Global;
use std::sync::Wait;
use std::thread::Threads;
use still_plan::say_line;
use vd_arm::Arm;
use vd_outside::{Sink, Text, Turnstile, Twin};
use vd_yard::Yard;

/// The plan of a parameter file; or the status, after its line was said.
fn plan_of<Y: Yard, S: Sink>(
    alloc: Global,
    yard: &mut Y,
    file: &Text,
    printer: &mut Printer,
    out: &mut S,
) -> Result<Plan, Status>
    ensures reads { OnlyReads (Y.seen yard.old) (Y.seen yard.new) }
    ensures planned { IfOk result (λ plan. IsPlanOf (Y.seen yard.old) file.now plan × IsPlan plan) }
    ensures nothing_said { OnOk result ((printer.new ≡ printer.old) × (out.new ≡ out.old)) }
    ensures unplanned { IfErr result (λ status. (text : List ℕ) × HasNoPlan (Y.seen yard.old) (Y.seen yard.new) file.now text status
        × Says (printing printer.old.failed (S.taken out.old) (S.faults out.old)) (printing printer.new.failed (S.taken out.new) (S.faults out.new)) text) }
    ensures source_quiet { OnOk result ((q : List ℕ) → source_faults (Y.seen yard.new).counts q ≡ source_faults (Y.seen yard.old).counts q) }
    ensures yard_quiet { OnOk result ((Y.seen yard.new).faults ≡ (Y.seen yard.old).faults) }
    ensures other_source_quiet { IfErr result (λ status. status ≢ Status.Source → status ≢ Status.NoMemory → (q : List ℕ) → source_faults (Y.seen yard.new).counts q ≡ source_faults (Y.seen yard.old).counts q) }
    ensures other_yard_quiet { IfErr result (λ status. status ≢ Status.Yard → status ≢ Status.NoMemory → (Y.seen yard.new).faults ≡ (Y.seen yard.old).faults) }
{
    let bytes = match read_file(alloc, yard, file) {
        Ok(bytes) => bytes,
        Err(Unread::Yard) => {
            return Err(say_line(cannot_open_line(alloc, file), Status::Yard, printer, out));
        }
        Err(Unread::Source) => {
            return Err(say_line(cannot_read_line(alloc, file), Status::Source, printer, out));
        }
        Err(Unread::NoMemory) => return Err(Status::NoMemory),
    };
    match plan_of_file(alloc, bytes.as_slice()) {
        Ok(plan) => Ok(plan),
        Err(Unplanned::Refused(line)) => {
            printer.say(out, line.as_str());
            Err(Status::Parameter)
        }
        Err(Unplanned::NoMemory) => Err(Status::NoMemory),
    }
}

/// The plan, with rereads where they are asked for.
fn with_rereads(plan: Plan, again: bool) -> Plan
    ensures { result ≡ rereading again plan }
{
    let mut plan = plan;
    plan.reread = plan.reread || again;
    plan
}

/// The runs of the plan of a parameter file, without journals, over new ones, or over those that are there.
fn run_file<Y: Yard, S: Sink, C: Twin, T: Turnstile, R: Threads + Wait + Sync>(
    rt: &R,
    alloc: Global,
    yard: &mut Y,
    file: &Text,
    again: bool,
    keeping: Keeping,
    clock: &mut C,
    gate: &T,
    printer: &mut Printer,
    out: &mut S,
) -> Status
where
    Y::Disk: Send,
    ensures runs { (text : List ℕ) × RunsFile Y.Arm.Pass.seen ⟦<JournalBook<Y::Disk> as Book>⟧.seen
        (stage [] (Y.seen yard.old) (C.seen clock.old) 0 (printing printer.old.failed (S.taken out.old) (S.faults out.old)))
        (stage [] (Y.seen yard.new) (C.seen clock.new) 0 (printing printer.new.failed (S.taken out.new) (S.faults out.new))) (asked file.now again keeping) text result }
    ensures out { (Y.seen yard.new).out ≡ (Y.seen yard.old).out }
    ensures tells { (Y.seen yard.new).tells ≡ (Y.seen yard.old).tells }
    ensures willing { IsTrue (Y.seen yard.old).willing → IsTrue (Y.seen yard.new).willing }
    ensures opens { IsTrue (Y.seen yard.old).willing → IsTrue (is_there (Y.seen yard.old).files AtSource file.now)
        → HasJournals (Y.seen yard.old) keeping file.now → result ≢ Status.Yard }
    ensures files { StaysThere (Y.seen yard.old).files (Y.seen yard.new).files }
    ensures disks { keeping ≡ Keeping.Nothing → (Y.seen yard.new).disks ≡ (Y.seen yard.old).disks }
    ensures journals { keeping ≡ Keeping.NewJournals → MakesJournals (Y.seen yard.old) (Y.seen yard.new) file.now result }
    ensures resumes { keeping ≡ Keeping.OldJournals → UsesJournals (Y.seen yard.old) (Y.seen yard.new) file.now result }
    ensures yard_fault { result ≡ Status.Yard → Rose (Y.seen yard.old).faults (Y.seen yard.new).faults }
    ensures yard_quiet { result ≢ Status.Yard → result ≢ Status.NoMemory → (Y.seen yard.new).faults ≡ (Y.seen yard.old).faults }
    ensures source_fault { result ≡ Status.Source → Rose (source_faults (Y.seen yard.old).counts file.now) (source_faults (Y.seen yard.new).counts file.now) }
    ensures source_quiet { result ≢ Status.Source → result ≢ Status.NoMemory → (path : List ℕ) → source_faults (Y.seen yard.new).counts path ≡ source_faults (Y.seen yard.old).counts path }
    ensures device_fault { result ≡ Status.Device → (path : List ℕ) × Rose (arm_faults (Y.seen yard.old).counts path) (arm_faults (Y.seen yard.new).counts path) }
    ensures device_quiet { result ≢ Status.Device → result ≢ Status.Yard → result ≢ Status.Sink → result ≢ Status.NoMemory → (keeping ≢ Keeping.Nothing → NoJournalEnd result) → (path : List ℕ) → arm_faults (Y.seen yard.new).counts path ≡ arm_faults (Y.seen yard.old).counts path }
    ensures output { result ≡ Status.Sink → printer.new.failed ≡ true }
    ensures can { CanEndAs keeping result }
{
    let plan = match plan_of(alloc, yard, file, printer, out) {
        Ok(plan) => with_rereads(plan, again),
        Err(status) => return status,
    };
    match keeping {
        Keeping::Nothing => run_quietly(rt, alloc, &plan, yard, clock, gate, printer, out),
        Keeping::NewJournals => run_journaled(rt, alloc, &plan, yard, clock, gate, printer, out),
        Keeping::OldJournals => run_resumed(rt, alloc, &plan, yard, clock, gate, printer, out),
    }
}

/// The runs of the plan of the parameter file of this name, without journals, over new ones, or over those that are there.
fn run_named<Y: Yard, S: Sink, C: Twin, T: Turnstile, R: Threads + Wait + Sync>(
    rt: &R,
    alloc: Global,
    yard: &mut Y,
    name: &str,
    again: bool,
    keeping: Keeping,
    clock: &mut C,
    gate: &T,
    out: &mut S,
) -> Status
where
    Y::Disk: Send,
    ensures call { RunCall Y.Arm.Pass.seen ⟦<JournalBook<Y::Disk> as Book>⟧.seen (Y.seen yard.old) (Y.seen yard.new) (C.seen clock.old) (C.seen clock.new) (S.taken out.old) (S.taken out.new) (S.faults out.old) (S.faults out.new) (asked name.now again keeping) result }
    ensures out { (Y.seen yard.new).out ≡ (Y.seen yard.old).out }
    ensures tells { (Y.seen yard.new).tells ≡ (Y.seen yard.old).tells }
    ensures willing { IsTrue (Y.seen yard.old).willing → IsTrue (Y.seen yard.new).willing }
    ensures opens { IsTrue (Y.seen yard.old).willing → IsTrue (is_there (Y.seen yard.old).files AtSource name.now)
        → HasJournals (Y.seen yard.old) keeping name.now → result ≢ Status.Yard }
    ensures files { StaysThere (Y.seen yard.old).files (Y.seen yard.new).files }
    ensures disks { keeping ≡ Keeping.Nothing → (Y.seen yard.new).disks ≡ (Y.seen yard.old).disks }
    ensures journals { keeping ≡ Keeping.NewJournals → MakesJournals (Y.seen yard.old) (Y.seen yard.new) name.now result }
    ensures resumes { keeping ≡ Keeping.OldJournals → UsesJournals (Y.seen yard.old) (Y.seen yard.new) name.now result }
    ensures yard_fault { result ≡ Status.Yard → Rose (Y.seen yard.old).faults (Y.seen yard.new).faults }
    ensures yard_quiet { result ≢ Status.Yard → result ≢ Status.Sink → result ≢ Status.NoMemory → (Y.seen yard.new).faults ≡ (Y.seen yard.old).faults }
    ensures source_fault { result ≡ Status.Source → Rose (source_faults (Y.seen yard.old).counts name.now) (source_faults (Y.seen yard.new).counts name.now) }
    ensures source_quiet { result ≢ Status.Source → result ≢ Status.Sink → result ≢ Status.NoMemory → (path : List ℕ) → source_faults (Y.seen yard.new).counts path ≡ source_faults (Y.seen yard.old).counts path }
    ensures device_fault { result ≡ Status.Device → (path : List ℕ) × Rose (arm_faults (Y.seen yard.old).counts path) (arm_faults (Y.seen yard.new).counts path) }
    ensures device_quiet { result ≢ Status.Device → result ≢ Status.Yard → result ≢ Status.Sink → result ≢ Status.NoMemory → (keeping ≢ Keeping.Nothing → NoJournalEnd result) → (path : List ℕ) → arm_faults (Y.seen yard.new).counts path ≡ arm_faults (Y.seen yard.old).counts path }
    ensures can { (result ≡ Status.Sink) ⊎ CanEndAs keeping result }
    ensures sink_fault { result ≡ Status.Sink → Rose (S.faults out.old) (S.faults out.new) }
    ensures sink_quiet { result ≢ Status.Sink → S.faults out.new ≡ S.faults out.old }
{
    let mut printer = Printer::new();
    let Ok(file) = Text::from_str(alloc, name) else {
        return end(Status::NoMemory, &mut printer, out);
    };
    let status = run_file(
        rt,
        alloc,
        yard,
        &file,
        again,
        keeping,
        clock,
        gate,
        &mut printer,
        out,
    );
    end(status, &mut printer, out)
}

/// A command: a still one, or the runs of a plan, without journals, over new ones, or over those that are there. `words` are those after the
/// program's name. It answers the status that the command ends with. Workers may wait for a store's book, and rest until their turns are due.
pub fn vdbench<Y: Yard, S: Sink, C: Twin, T: Turnstile, R: Threads + Wait + Sync>(
    rt: &R,
    alloc: Global,
    words: &[String],
    yard: &mut Y,
    out: &mut S,
    clock: &mut C,
    gate: &T,
) -> Status
where
    Y::Disk: Send,
    // Where the words ask for no runs it is a still command, and the clock is as it was.
    ensures still { run_of (map string_bytes words.now) ≡ None → StillCall (map string_bytes words.now) (Y.seen yard.old) (Y.seen yard.new) (S.taken out.old) (S.taken out.new) (S.faults out.old) (S.faults out.new) result }
    ensures still_clock { run_of (map string_bytes words.now) ≡ None → C.seen clock.new ≡ C.seen clock.old }

    // Else text and status are those of the runs of its parameter file's plan, or of what kept them from starting.
    ensures runs { (asks : Asked) → run_of (map string_bytes words.now) ≡ Some asks →
        RunCall Y.Arm.Pass.seen ⟦<JournalBook<Y::Disk> as Book>⟧.seen (Y.seen yard.old) (Y.seen yard.new) (C.seen clock.old) (C.seen clock.new) (S.taken out.old) (S.taken out.new) (S.faults out.old) (S.faults out.new) asks result }

    // On every way out nothing of this call is out, and what the yard tells stays.
    ensures out { (Y.seen yard.new).out ≡ (Y.seen yard.old).out }
    ensures tells { (Y.seen yard.new).tells ≡ (Y.seen yard.old).tells }
    ensures willing { IsTrue (Y.seen yard.old).willing → IsTrue (Y.seen yard.new).willing }
    ensures files { StaysThere (Y.seen yard.old).files (Y.seen yard.new).files }
    // A willing yard that has the parameter file refuses no runs, nor those over journals that are there, where it has these.
    ensures opens { (asks : Asked) → run_of (map string_bytes words.now) ≡ Some asks → IsTrue (Y.seen yard.old).willing →
        IsTrue (is_there (Y.seen yard.old).files AtSource asks.file)
        → HasJournals (Y.seen yard.old) asks.keeping asks.file → result ≢ Status.Yard }

    // Runs without journals touch no journal. Over new ones, of the kept disks only those of the plan's journals change: from the end of its
    // opening on each image that is told recovers to one legal history, and before it, of a disk that was at rest, to what it gave, no journal,
    // or the new one. With a status of 0, 1 or 2 each stands closed, and that of a failed journal has its cause where the yard tells its disks;
    // that none failed with another status isn't said.
    ensures disks { (asks : Asked) → run_of (map string_bytes words.now) ≡ Some asks → asks.keeping ≡ Keeping.Nothing → (Y.seen yard.new).disks ≡ (Y.seen yard.old).disks }
    ensures journals { (asks : Asked) → run_of (map string_bytes words.now) ≡ Some asks → asks.keeping ≡ Keeping.NewJournals → MakesJournals (Y.seen yard.old) (Y.seen yard.new) asks.file result }
    // Over those that are there each that is opened begins the epoch behind the recovered one, and the same holds of it; where none is, the kept
    // disks are only read.
    ensures resumes { (asks : Asked) → run_of (map string_bytes words.now) ≡ Some asks → asks.keeping ≡ Keeping.OldJournals → UsesJournals (Y.seen yard.old) (Y.seen yard.new) asks.file result }

    // Each status of another outside fault has its cause, over whatever yard and output, and with each other status, want of memory and a
    // failed output aside, nothing of that kind failed; that the yard refused to open something, or that a journal failed or is at its end, may hide
    // that an arm failed before, whose lines then tell.
    ensures yard_fault { result ≡ Status.Yard → Rose (Y.seen yard.old).faults (Y.seen yard.new).faults }
    ensures yard_quiet { result ≢ Status.Yard → result ≢ Status.Sink → result ≢ Status.NoMemory → (Y.seen yard.new).faults ≡ (Y.seen yard.old).faults }
    ensures source_fault { (asks : Asked) → run_of (map string_bytes words.now) ≡ Some asks → result ≡ Status.Source →
        Rose (source_faults (Y.seen yard.old).counts asks.file) (source_faults (Y.seen yard.new).counts asks.file) }
    ensures source_quiet { result ≢ Status.Source → result ≢ Status.Sink → result ≢ Status.NoMemory → (path : List ℕ) → source_faults (Y.seen yard.new).counts path ≡ source_faults (Y.seen yard.old).counts path }
    ensures device_fault { result ≡ Status.Device → (path : List ℕ) × Rose (arm_faults (Y.seen yard.old).counts path) (arm_faults (Y.seen yard.new).counts path) }
    ensures device_quiet { result ≢ Status.Device → result ≢ Status.Yard → result ≢ Status.Sink → result ≢ Status.NoMemory
        → ((asks : Asked) → run_of (map string_bytes words.now) ≡ Some asks → asks.keeping ≢ Keeping.Nothing → NoJournalEnd result)
        → (path : List ℕ) → arm_faults (Y.seen yard.new).counts path ≡ arm_faults (Y.seen yard.old).counts path }
    ensures sink_fault { result ≡ Status.Sink → Rose (S.faults out.old) (S.faults out.new) }
    ensures sink_quiet { result ≢ Status.Sink → S.faults out.new ≡ S.faults out.old }

    // What the runs printed adds up: with its errors, its stores' books, and the counts of their paths; and with a status of 0 the totals are those
    // of the turns that the workers drew. And where the yard tells the data that it keeps, none of these commands ends by the status of a corrupt
    // block, where the data fitted the journals that were there.
    ensures adds_up { (asks : Asked) → run_of (map string_bytes words.now) ≡ Some asks →
        (call : RunCall Y.Arm.Pass.seen ⟦<JournalBook<Y::Disk> as Book>⟧.seen (Y.seen yard.old) (Y.seen yard.new) (C.seen clock.old) (C.seen clock.new) (S.taken out.old) (S.taken out.new) (S.faults out.old) (S.faults out.new) asks result) → CallAddsUp call }
    ensures sound { (asks : Asked) → run_of (map string_bytes words.now) ≡ Some asks → IsTrue (Y.seen yard.old).tells.keeps_contents → DataFitsJournals (Y.seen yard.old) asks → result ≢ Status.Corrupt }

    // Nor has any of them, whatever its status, a line that says so; and neither has a still command, where the data of each store fits the
    // journal that is there.
    ensures finds_none { (asks : Asked) → run_of (map string_bytes words.now) ≡ Some asks → IsTrue (Y.seen yard.old).tells.keeps_contents → DataFitsJournals (Y.seen yard.old) asks →
        (call : RunCall Y.Arm.Pass.seen ⟦<JournalBook<Y::Disk> as Book>⟧.seen (Y.seen yard.old) (Y.seen yard.new) (C.seen clock.old) (C.seen clock.new) (S.taken out.old) (S.taken out.new) (S.faults out.old) (S.faults out.new) asks result) → CallFindsNone call }
    ensures still_finds_none { (file : List ℕ) → IsTrue (Y.seen yard.old).tells.keeps_contents → OfItsStores (Y.seen yard.old) file (FitsItsJournal (Y.seen yard.old)) →
        (text : List ℕ) (said : AStatus) (says : SaidOfFile (Y.seen yard.old) (Y.seen yard.new) (shows_plan (map string_bytes words.now)) file text said)
        → SaidFindsNone (Y.seen yard.old) (Y.seen yard.new) (shows_plan (map string_bytes words.now)) file text said says }
    ensures still_sound { run_of (map string_bytes words.now) ≡ None → (file : List ℕ) → file_of (map string_bytes words.now) ≡ Some file → IsTrue (Y.seen yard.old).tells.keeps_contents
        → OfItsStores (Y.seen yard.old) file (FitsItsJournal (Y.seen yard.old)) → result ≢ Status.Corrupt }

    // Where the yard tells what it keeps, with a status of 0, 1 or 2 the kept data of each store fits whatever a stop may leave of its journal;
    // over journals that were there, of each store whose data fitted, or whose arms are sure.
    ensures keeps { (asks : Asked) → run_of (map string_bytes words.now) ≡ Some asks → KeepsFitting (Y.seen yard.old) (Y.seen yard.new) asks result }

    // Where nothing outside fails, the status is that of a run which found nothing, or of want of memory; or, over journals, that one's last
    // epoch is over.
    ensures completes { (asks : Asked) → run_of (map string_bytes words.now) ≡ Some asks → NothingFails (Y.seen yard.old) (Y.seen yard.new) (S.faults out.old) (S.faults out.new) asks → EndsWell asks result }

    // What each of this stands on: no order of events brings a block into two operations, a history that isn't legal, or, at whatever stop,
    // sectors that don't fit; and a block that was read is reported exactly where a sector of it matches no key that its entry permits.
    ensures interleavings { EveryInterleaving }
    ensures reports { ReportsExactly }

    // Runs without journals end by none of the statuses of journals or of words; those over new journals by none of words or of what a
    // journal has in it; and those over old ones by none of words.
    ensures can { (asks : Asked) → run_of (map string_bytes words.now) ≡ Some asks → (result ≡ Status.Sink) ⊎ CanEndAs asks.keeping result }
{
    stays_sound();
    verdict_laws();
    runs_add_up::<<Y::Arm as Arm>::Pass, QuietBook>();
    runs_add_up::<<Y::Arm as Arm>::Pass, JournalBook<Y::Disk>>();
    runs_are_drawn::<<Y::Arm as Arm>::Pass, QuietBook>();
    runs_are_drawn::<<Y::Arm as Arm>::Pass, JournalBook<Y::Disk>>();
    sound_laws::<<Y::Arm as Arm>::Pass, QuietBook>();
    sound_laws::<<Y::Arm as Arm>::Pass, JournalBook<Y::Disk>>();
    kept_laws::<<Y::Arm as Arm>::Pass, JournalBook<Y::Disk>>();
    count_laws::<<Y::Arm as Arm>::Pass, JournalBook<Y::Disk>>();
    ending_laws::<<Y::Arm as Arm>::Pass, QuietBook>();
    ending_laws::<<Y::Arm as Arm>::Pass, JournalBook<Y::Disk>>();
    match run_of_words(words) {
        Some((name, again, keeping)) => run_named(
            rt, alloc, yard, name, again, keeping, clock, gate, out,
        ),
        None => vdbench_still(alloc, words, yard, out),
    }
}
