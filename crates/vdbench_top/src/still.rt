// A still command: the plan of a parameter file, printed, or looked at store by store.
ghost use Rattle.std.specs.Prelude.{◌≡◌, ◌≢◌, ℕ, List, [], IsTrue, Some, None, Ok, take, map, string_bytes, true, false};
ghost use Rattle.vd_outside.specs.Causes.{Rose};
ghost use Rattle.vd_yard.specs.Counts.{source_faults, arm_faults};
ghost use Rattle.vd_yard.specs.Kept.{kept_at};
ghost use Rattle.plan_types.specs.Valid.{IsPlan};
ghost use Rattle.plan_types.specs.declared.plan.Plan.{Plan as APlan};
ghost use Rattle.plan_file.specs.Files.{PlansTo};
ghost use Rattle.run_report.specs.Says.{Says, printing};
ghost use Rattle.run_report.specs.Status.{last_text};
ghost use Rattle.still_store.specs.Frame.{Keeps, JournalsStay};
ghost use Rattle.still_plan.specs.Frame.{DiskFailed, StoresStay};
ghost use Rattle.vdbench_top.specs.Still.{DataStays, Ends, FindsNoData, IsHonest, IsNoFault, SaidOfBytes, SaidOfFile, SaidOfPlan, SomeRefused};

use crate::simulation::run_without_file;
use crate::source::{Unread, read_file};
use crate::words::{file_of_words, shows_plan};
use plan_file::{Unplanned, plan_of_file};
use plan_types::Plan;
use run_report::{Printer, Status, cannot_open_line, cannot_read_line, last_lines, say_plan};
use std::alloc::Global;
use still_plan::{say_line, still_stores};
use vd_outside::{Sink, Text};
use vd_yard::Yard;

/// Prints a plan.
fn show<S: Sink>(alloc: Global, plan: &Plan, printer: &mut Printer, out: &mut S) -> Status
    requires { IsPlan plan.now }
    ensures says { result ≡ Status.Good → Says (printing printer.old.failed (S.taken out.old) (S.faults out.old)) (printing printer.new.failed (S.taken out.new) (S.faults out.new)) (plan_text plan.now) }
    ensures front { result ≡ Status.NoMemory → SaysFront (printing printer.old.failed (S.taken out.old) (S.faults out.old)) (printing printer.new.failed (S.taken out.new) (S.faults out.new)) (plan_text plan.now) }
    ensures only { (result ≡ Status.Good) ⊎ (result ≡ Status.NoMemory) }
{
    match say_plan(alloc, plan, printer, out) {
        Ok(()) => Status::Good,
        Err(_) => Status::NoMemory,
    }
}

/// A command over a plan: it is printed, or its stores are looked at.
fn run_plan<Y: Yard, S: Sink>(
    alloc: Global,
    yard: &mut Y,
    shows: bool,
    plan: &Plan,
    printer: &mut Printer,
    out: &mut S,
) -> Status
    requires valid { IsPlan plan.now }
    ensures keeps { Keeps (Y.seen yard.old) (Y.seen yard.new) }
    ensures journals { JournalsStay (Y.seen yard.old).disks (Y.seen yard.new).disks }
    ensures sources { (q : List ℕ) → source_faults (Y.seen yard.new).counts q ≡ source_faults (Y.seen yard.old).counts q }
    ensures contents { ((Y.seen yard.new).contents ≡ (Y.seen yard.old).contents) ⊎ StoresStay plan.now.stores (Y.seen yard.old).contents (Y.seen yard.new).contents }
    ensures said { (text : List ℕ) × Says (printing printer.old.failed (S.taken out.old) (S.faults out.old)) (printing printer.new.failed (S.taken out.new) (S.faults out.new)) text × SaidOfPlan (Y.seen yard.old) (Y.seen yard.new) shows plan.now text result }
    ensures refused { SomeRefused (Y.seen yard.old) plan.now.stores → (Y.seen yard.new).contents ≡ (Y.seen yard.old).contents }
    ensures untouched { result ≢ Status.Good → result ≢ Status.Corrupt → result ≢ Status.Device → result ≢ Status.Yard → result ≢ Status.Sink →
        result ≢ Status.NoMemory → (Y.seen yard.new).contents ≡ (Y.seen yard.old).contents }
    ensures shows_only { shows ≡ true → ((Y.seen yard.new).contents ≡ (Y.seen yard.old).contents) × ((Y.seen yard.new).disks ≡ (Y.seen yard.old).disks) }
    ensures yard_fault { result ≡ Status.Yard → Rose (Y.seen yard.old).faults (Y.seen yard.new).faults }
    ensures yard_quiet { result ≢ Status.Yard → result ≢ Status.NoMemory → (Y.seen yard.new).faults ≡ (Y.seen yard.old).faults }
    ensures disk_fault { result ≡ Status.Journal → IsTrue (Y.seen yard.old).tells.keeps_disks → DiskFailed (Y.seen yard.old) (Y.seen yard.new) }
    ensures disk_quiet { result ≢ Status.Journal → result ≢ Status.NoMemory → (path : List ℕ) →
        kept_at (Y.seen yard.new).disks path ≡ kept_at (Y.seen yard.old).disks path }
    ensures device_fault { result ≡ Status.Device → (path : List ℕ) × Rose (arm_faults (Y.seen yard.old).counts path) (arm_faults (Y.seen yard.new).counts path) }
    ensures device_quiet { result ≢ Status.Device → result ≢ Status.Yard → result ≢ Status.Sink → result ≢ Status.NoMemory → (path : List ℕ) →
        arm_faults (Y.seen yard.new).counts path ≡ arm_faults (Y.seen yard.old).counts path }
    ensures no_usage { result ≡ Status.Usage → ⊥ }
    ensures no_epoch { result ≡ Status.EpochEnd → ⊥ }
    ensures output { result ≡ Status.Sink → printer.new.failed ≡ true }
    ensures no_source { result ≡ Status.Source → ⊥ }
{
    if shows {
        return show(alloc, plan, printer, out);
    }
    still_stores(alloc, yard, plan.stores.as_slice(), printer, out)
}

/// A command over a parameter file of these bytes.
fn run_parameters<Y: Yard, S: Sink>(
    alloc: Global,
    yard: &mut Y,
    shows: bool,
    bytes: &[u8],
    printer: &mut Printer,
    out: &mut S,
) -> Status
    ensures keeps { Keeps (Y.seen yard.old) (Y.seen yard.new) }
    ensures journals { JournalsStay (Y.seen yard.old).disks (Y.seen yard.new).disks }
    ensures sources { (q : List ℕ) → source_faults (Y.seen yard.new).counts q ≡ source_faults (Y.seen yard.old).counts q }
    ensures contents { ((Y.seen yard.new).contents ≡ (Y.seen yard.old).contents)
        ⊎ ((plan : APlan) × PlansTo bytes.now (Ok plan) × StoresStay plan.stores (Y.seen yard.old).contents (Y.seen yard.new).contents) }
    ensures said { (text : List ℕ) × Says (printing printer.old.failed (S.taken out.old) (S.faults out.old)) (printing printer.new.failed (S.taken out.new) (S.faults out.new)) text × SaidOfBytes (Y.seen yard.old) (Y.seen yard.new) shows bytes.now text result }
    ensures refused { FindsNoData (Y.seen yard.old) bytes.now → (Y.seen yard.new).contents ≡ (Y.seen yard.old).contents }
    ensures untouched { result ≢ Status.Good → result ≢ Status.Corrupt → result ≢ Status.Device → result ≢ Status.Yard → result ≢ Status.Sink →
        result ≢ Status.NoMemory → (Y.seen yard.new).contents ≡ (Y.seen yard.old).contents }
    ensures shows_only { shows ≡ true → ((Y.seen yard.new).contents ≡ (Y.seen yard.old).contents) × ((Y.seen yard.new).disks ≡ (Y.seen yard.old).disks) }
    ensures yard_fault { result ≡ Status.Yard → Rose (Y.seen yard.old).faults (Y.seen yard.new).faults }
    ensures yard_quiet { result ≢ Status.Yard → result ≢ Status.NoMemory → (Y.seen yard.new).faults ≡ (Y.seen yard.old).faults }
    ensures disk_fault { result ≡ Status.Journal → IsTrue (Y.seen yard.old).tells.keeps_disks → DiskFailed (Y.seen yard.old) (Y.seen yard.new) }
    ensures disk_quiet { result ≢ Status.Journal → result ≢ Status.NoMemory → (path : List ℕ) →
        kept_at (Y.seen yard.new).disks path ≡ kept_at (Y.seen yard.old).disks path }
    ensures device_fault { result ≡ Status.Device → (path : List ℕ) × Rose (arm_faults (Y.seen yard.old).counts path) (arm_faults (Y.seen yard.new).counts path) }
    ensures device_quiet { result ≢ Status.Device → result ≢ Status.Yard → result ≢ Status.Sink → result ≢ Status.NoMemory → (path : List ℕ) →
        arm_faults (Y.seen yard.new).counts path ≡ arm_faults (Y.seen yard.old).counts path }
    ensures no_usage { result ≡ Status.Usage → ⊥ }
    ensures no_epoch { result ≡ Status.EpochEnd → ⊥ }
    ensures output { result ≡ Status.Sink → printer.new.failed ≡ true }
    ensures no_source { result ≡ Status.Source → ⊥ }
{
    match plan_of_file(alloc, bytes) {
        Ok(plan) => run_plan(alloc, yard, shows, &plan, printer, out),
        Err(Unplanned::Refused(line)) => {
            printer.say(out, line.as_str());
            Status::Parameter
        }
        Err(Unplanned::NoMemory) => Status::NoMemory,
    }
}

/// A command over a parameter file.
fn run_file<Y: Yard, S: Sink>(
    alloc: Global,
    yard: &mut Y,
    shows: bool,
    file: &Text,
    printer: &mut Printer,
    out: &mut S,
) -> Status
    ensures keeps { Keeps (Y.seen yard.old) (Y.seen yard.new) }
    ensures journals { JournalsStay (Y.seen yard.old).disks (Y.seen yard.new).disks }
    ensures contents { DataStays (Y.seen yard.old) file.now (Y.seen yard.old).contents (Y.seen yard.new).contents }
    ensures said { (text : List ℕ) × Says (printing printer.old.failed (S.taken out.old) (S.faults out.old)) (printing printer.new.failed (S.taken out.new) (S.faults out.new)) text × SaidOfFile (Y.seen yard.old) (Y.seen yard.new) shows file.now text result }
    ensures refused { (parameters : List ℕ) → (Y.seen yard.old).tells.bytes file.now ≡ Some parameters →
        FindsNoData (Y.seen yard.old) (take 1048577 parameters) → (Y.seen yard.new).contents ≡ (Y.seen yard.old).contents }
    ensures source_fault { result ≡ Status.Source → Rose (source_faults (Y.seen yard.old).counts file.now) (source_faults (Y.seen yard.new).counts file.now) }
    ensures source_quiet { result ≢ Status.Source → result ≢ Status.NoMemory → (q : List ℕ) →
        source_faults (Y.seen yard.new).counts q ≡ source_faults (Y.seen yard.old).counts q }
    ensures untouched { result ≢ Status.Good → result ≢ Status.Corrupt → result ≢ Status.Device → result ≢ Status.Yard → result ≢ Status.Sink →
        result ≢ Status.NoMemory → (Y.seen yard.new).contents ≡ (Y.seen yard.old).contents }
    ensures shows_only { shows ≡ true → ((Y.seen yard.new).contents ≡ (Y.seen yard.old).contents) × ((Y.seen yard.new).disks ≡ (Y.seen yard.old).disks) }
    ensures yard_fault { result ≡ Status.Yard → Rose (Y.seen yard.old).faults (Y.seen yard.new).faults }
    ensures yard_quiet { result ≢ Status.Yard → result ≢ Status.NoMemory → (Y.seen yard.new).faults ≡ (Y.seen yard.old).faults }
    ensures disk_fault { result ≡ Status.Journal → IsTrue (Y.seen yard.old).tells.keeps_disks → DiskFailed (Y.seen yard.old) (Y.seen yard.new) }
    ensures disk_quiet { result ≢ Status.Journal → result ≢ Status.NoMemory → (path : List ℕ) →
        kept_at (Y.seen yard.new).disks path ≡ kept_at (Y.seen yard.old).disks path }
    ensures device_fault { result ≡ Status.Device → (path : List ℕ) × Rose (arm_faults (Y.seen yard.old).counts path) (arm_faults (Y.seen yard.new).counts path) }
    ensures device_quiet { result ≢ Status.Device → result ≢ Status.Yard → result ≢ Status.Sink → result ≢ Status.NoMemory → (path : List ℕ) →
        arm_faults (Y.seen yard.new).counts path ≡ arm_faults (Y.seen yard.old).counts path }
    ensures no_usage { result ≡ Status.Usage → ⊥ }
    ensures no_epoch { result ≡ Status.EpochEnd → ⊥ }
    ensures output { result ≡ Status.Sink → printer.new.failed ≡ true }
{
    match read_file(alloc, yard, file) {
        Ok(bytes) => run_parameters(alloc, yard, shows, bytes.as_slice(), printer, out),
        Err(Unread::Yard) => say_line(cannot_open_line(alloc, file), Status::Yard, printer, out),
        Err(Unread::Source) => say_line(
            cannot_read_line(alloc, file),
            Status::Source,
            printer,
            out,
        ),
        Err(Unread::NoMemory) => Status::NoMemory,
    }
}

/// A command over the parameter file of this name.
fn run_named<Y: Yard, S: Sink>(
    alloc: Global,
    yard: &mut Y,
    shows: bool,
    name: &str,
    printer: &mut Printer,
    out: &mut S,
) -> Status
    ensures keeps { Keeps (Y.seen yard.old) (Y.seen yard.new) }
    ensures journals { JournalsStay (Y.seen yard.old).disks (Y.seen yard.new).disks }
    ensures contents { DataStays (Y.seen yard.old) name.now (Y.seen yard.old).contents (Y.seen yard.new).contents }
    ensures said { (text : List ℕ) × Says (printing printer.old.failed (S.taken out.old) (S.faults out.old)) (printing printer.new.failed (S.taken out.new) (S.faults out.new)) text × SaidOfFile (Y.seen yard.old) (Y.seen yard.new) shows name.now text result }
    ensures refused { (parameters : List ℕ) → (Y.seen yard.old).tells.bytes name.now ≡ Some parameters →
        FindsNoData (Y.seen yard.old) (take 1048577 parameters) → (Y.seen yard.new).contents ≡ (Y.seen yard.old).contents }
    ensures source_fault { result ≡ Status.Source → Rose (source_faults (Y.seen yard.old).counts name.now) (source_faults (Y.seen yard.new).counts name.now) }
    ensures source_quiet { result ≢ Status.Source → result ≢ Status.NoMemory → (q : List ℕ) →
        source_faults (Y.seen yard.new).counts q ≡ source_faults (Y.seen yard.old).counts q }
    ensures untouched { result ≢ Status.Good → result ≢ Status.Corrupt → result ≢ Status.Device → result ≢ Status.Yard → result ≢ Status.Sink →
        result ≢ Status.NoMemory → (Y.seen yard.new).contents ≡ (Y.seen yard.old).contents }
    ensures shows_only { shows ≡ true → ((Y.seen yard.new).contents ≡ (Y.seen yard.old).contents) × ((Y.seen yard.new).disks ≡ (Y.seen yard.old).disks) }
    ensures yard_fault { result ≡ Status.Yard → Rose (Y.seen yard.old).faults (Y.seen yard.new).faults }
    ensures yard_quiet { result ≢ Status.Yard → result ≢ Status.NoMemory → (Y.seen yard.new).faults ≡ (Y.seen yard.old).faults }
    ensures disk_fault { result ≡ Status.Journal → IsTrue (Y.seen yard.old).tells.keeps_disks → DiskFailed (Y.seen yard.old) (Y.seen yard.new) }
    ensures disk_quiet { result ≢ Status.Journal → result ≢ Status.NoMemory → (path : List ℕ) →
        kept_at (Y.seen yard.new).disks path ≡ kept_at (Y.seen yard.old).disks path }
    ensures device_fault { result ≡ Status.Device → (path : List ℕ) × Rose (arm_faults (Y.seen yard.old).counts path) (arm_faults (Y.seen yard.new).counts path) }
    ensures device_quiet { result ≢ Status.Device → result ≢ Status.Yard → result ≢ Status.Sink → result ≢ Status.NoMemory → (path : List ℕ) →
        arm_faults (Y.seen yard.new).counts path ≡ arm_faults (Y.seen yard.old).counts path }
    ensures no_usage { result ≡ Status.Usage → ⊥ }
    ensures no_epoch { result ≡ Status.EpochEnd → ⊥ }
    ensures output { result ≡ Status.Sink → printer.new.failed ≡ true }
{
    let Ok(file) = Text::from_str(alloc, name) else {
        return Status::NoMemory;
    };
    run_file(alloc, yard, shows, &file, printer, out)
}

/// Says the last lines, and answers the status that the command ends with.
pub(crate) fn end<S: Sink>(status: Status, printer: &mut Printer, out: &mut S) -> Status
    ensures says { Says (printing printer.old.failed (S.taken out.old) (S.faults out.old)) (printing printer.new.failed (S.taken out.new) (S.faults out.new)) (last_text status) }
    ensures failed { printer.new.failed ≡ true → result ≡ Status.Sink }
    ensures good { printer.new.failed ≡ false → result ≡ status }
{
    printer.say(out, last_lines(status));
    if printer.failed {
        return Status::Sink;
    }
    status
}

/// A still command: it runs a schedule; prints the plan of its parameter file; or recovers the journals of that plan's stores, verifies
/// the stores, and prints what is found. It writes no journal, and no block's bytes change. `words` are those after the program's name.
/// It answers the status that the command ends with.
pub fn vdbench_still<Y: Yard, S: Sink>(
    alloc: Global,
    words: &[String],
    yard: &mut Y,
    out: &mut S,
) -> Status
    // The words ask for no runs.
    requires still { run_of (map string_bytes words.now) ≡ None }

    // On every way out nothing of this call is out, and no journal is written.
    ensures keeps { Keeps (Y.seen yard.old) (Y.seen yard.new) }
    ensures journals { JournalsStay (Y.seen yard.old).disks (Y.seen yard.new).disks }

    // Words that name no file leave all as it was. A plan that is only printed leaves data and journals' disks as they were.
    ensures no_file { file_of (map string_bytes words.now) ≡ None → Y.seen yard.new ≡ Y.seen yard.old }
    ensures shows_only { shows_plan_of (map string_bytes words.now) ≡ true → ((Y.seen yard.new).contents ≡ (Y.seen yard.old).contents) × ((Y.seen yard.new).disks ≡ (Y.seen yard.old).disks) }

    // No data is touched but that of the stores of a plan which the parameter file gives, as far as it is told, and each block of these has
    // the bytes that it had. None is touched where that file, as told, has no plan or a journal of it is told to be missing or refused,
    // however the command ends, nor with a status that only comes before data is opened.
    ensures contents { (file : List ℕ) → file_of (map string_bytes words.now) ≡ Some file →
        DataStays (Y.seen yard.old) file (Y.seen yard.old).contents (Y.seen yard.new).contents }
    ensures refused { (file parameters : List ℕ) → file_of (map string_bytes words.now) ≡ Some file →
        (Y.seen yard.old).tells.bytes file ≡ Some parameters → FindsNoData (Y.seen yard.old) (take 1048577 parameters) →
        (Y.seen yard.new).contents ≡ (Y.seen yard.old).contents }
    ensures untouched { result ≢ Status.Good → result ≢ Status.Corrupt → result ≢ Status.Device → result ≢ Status.Yard → result ≢ Status.Sink →
        result ≢ Status.NoMemory → (Y.seen yard.new).contents ≡ (Y.seen yard.old).contents }

    // Words that are no command print the usage, and nothing else ends so.
    ensures usage { command_said (map string_bytes words.now) ≡ None → Ends usage_text Status.Usage result (S.taken out.old) (S.taken out.new) }
    ensures usage_only { result ≡ Status.Usage → command_said (map string_bytes words.now) ≡ None }

    // A schedule that the words ask for is run, and its counts are printed.
    ensures simulation { (n : ℕ) → steps_of (map string_bytes words.now) ≡ Some n →
        (text : List ℕ) × (said : AStatus) × IsSimulated n text said × Ends text said result (S.taken out.old) (S.taken out.new) }

    // Over a parameter file the text and the status are those of what is found, as far as it is told, or of the outside call that failed,
    // and what was opened is what that says.
    ensures told { (file : List ℕ) → file_of (map string_bytes words.now) ≡ Some file →
        (text : List ℕ) × (said : AStatus) × SaidOfFile (Y.seen yard.old) (Y.seen yard.new) (shows_plan_of (map string_bytes words.now)) file text said
        × Ends text said result (S.taken out.old) (S.taken out.new) }

    // Where besides nothing outside fails, they are those of what is found.
    ensures answer { (file : List ℕ) → file_of (map string_bytes words.now) ≡ Some file → IsHonest (Y.seen yard.old) (Y.seen yard.new) (shows_plan_of (map string_bytes words.now)) file →
        (text : List ℕ) × (said : AStatus) × SaidOfFile (Y.seen yard.old) (Y.seen yard.new) (shows_plan_of (map string_bytes words.now)) file text said × IsNoFault said
        × Ends text said result (S.taken out.old) (S.taken out.new) }

    // It ends by the lines of its status, whatever it had to say before; none is that an epoch ended.
    ensures ends { (text : List ℕ) × (said : AStatus) × Ends text said result (S.taken out.old) (S.taken out.new) }
    ensures no_epoch { result ≡ Status.EpochEnd → ⊥ }

    // Each status of an outside fault has its cause, over whatever yard and output, and with each other status, want of memory and a failed
    // output aside, nothing of that kind failed; that the yard refused to open something may hide that an arm failed before, which the text
    // then tells. A disk's faults are seen where the yard keeps it.
    ensures yard_fault { result ≡ Status.Yard → Rose (Y.seen yard.old).faults (Y.seen yard.new).faults }
    ensures yard_quiet { result ≢ Status.Yard → result ≢ Status.Sink → result ≢ Status.NoMemory → (Y.seen yard.new).faults ≡ (Y.seen yard.old).faults }
    ensures source_fault { result ≡ Status.Source → (file : List ℕ) → file_of (map string_bytes words.now) ≡ Some file →
        Rose (source_faults (Y.seen yard.old).counts file) (source_faults (Y.seen yard.new).counts file) }
    ensures source_quiet { result ≢ Status.Source → result ≢ Status.Sink → result ≢ Status.NoMemory → (path : List ℕ) →
        source_faults (Y.seen yard.new).counts path ≡ source_faults (Y.seen yard.old).counts path }
    ensures disk_fault { result ≡ Status.Journal → IsTrue (Y.seen yard.old).tells.keeps_disks → DiskFailed (Y.seen yard.old) (Y.seen yard.new) }
    ensures disk_quiet { result ≢ Status.Journal → result ≢ Status.Sink → result ≢ Status.NoMemory → (path : List ℕ) →
        kept_at (Y.seen yard.new).disks path ≡ kept_at (Y.seen yard.old).disks path }
    ensures device_fault { result ≡ Status.Device → (path : List ℕ) × Rose (arm_faults (Y.seen yard.old).counts path) (arm_faults (Y.seen yard.new).counts path) }
    ensures device_quiet { result ≢ Status.Device → result ≢ Status.Yard → result ≢ Status.Sink → result ≢ Status.NoMemory → (path : List ℕ) →
        arm_faults (Y.seen yard.new).counts path ≡ arm_faults (Y.seen yard.old).counts path }
    ensures sink_fault { result ≡ Status.Sink → Rose (S.faults out.old) (S.faults out.new) }
    ensures sink_quiet { result ≢ Status.Sink → S.faults out.new ≡ S.faults out.old }
{
    let mut printer = Printer::new();
    let Some(name) = file_of_words(words) else {
        let status = run_without_file(alloc, words, &mut printer, out);
        return end(status, &mut printer, out);
    };
    let status = run_named(alloc, yard, shows_plan(words), name, &mut printer, out);
    end(status, &mut printer, out)
}

ghost use Rattle.std.specs.Prelude.{◌⊎◌};
ghost use Rattle.run_report.specs.Says.{SaysFront};
ghost use Rattle.run_report.specs.Plans.{plan_text};
ghost use Rattle.run_report.specs.declared.status.Status.{Status as AStatus};
ghost use Rattle.run_report.specs.Lines.{usage_text};
ghost use Rattle.command_words.specs.Words.{command_said};
ghost use Rattle.vdbench_top.specs.Words.{file_of, run_of, shows_plan as shows_plan_of, steps_of};
ghost use Rattle.vdbench_top.specs.Simulation.{IsSimulated};
