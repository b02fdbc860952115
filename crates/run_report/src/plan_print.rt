// A plan, printed line by line.
ghost use Rattle.std.specs.Prelude.{◌≡◌, ◌<◌, ◌++◌, All, OnErr, OnOk, length};
ghost use Rattle.std.specs.List.{flat_map};
ghost use Rattle.run_report.specs.Plans.{PrintsShares, plan_text, run_lines_text, share_text, store_text};
ghost use Rattle.run_report.specs.Says.{Says, SaysFront, printing};

use crate::plan::{run_line, share_line, store_line};
use crate::printer::Printer;
use plan_types::{Plan, RunPlan, Share, StorePlan};
use std::alloc::Global;
use vd_outside::{NoMemory, Sink};

fn say_stores<S: Sink>(
    alloc: Global,
    stores: &[StorePlan],
    printer: &mut Printer,
    out: &mut S,
) -> Result<(), NoMemory>
    ensures ok { OnOk result (Says (printing printer.old.failed (S.taken out.old) (S.faults out.old)) (printing printer.new.failed (S.taken out.new) (S.faults out.new)) (flat_map store_text stores.now)) }
    ensures err { OnErr result (SaysFront (printing printer.old.failed (S.taken out.old) (S.faults out.old)) (printing printer.new.failed (S.taken out.new) (S.faults out.new)) (flat_map store_text stores.now)) }
{
    for store in stores {
        let line = store_line(alloc, store)?;
        printer.say(out, line.as_str());
    }
    Ok(())
}

fn say_shares<S: Sink>(
    alloc: Global,
    stores: &[StorePlan],
    shares: &[Share],
    printer: &mut Printer,
    out: &mut S,
) -> Result<(), NoMemory>
    requires { All (λ share. share.store < length stores.now) shares.now }
    ensures ok { OnOk result (Says (printing printer.old.failed (S.taken out.old) (S.faults out.old)) (printing printer.new.failed (S.taken out.new) (S.faults out.new)) (flat_map (share_text stores.now) shares.now)) }
    ensures err { OnErr result (SaysFront (printing printer.old.failed (S.taken out.old) (S.faults out.old)) (printing printer.new.failed (S.taken out.new) (S.faults out.new)) (flat_map (share_text stores.now) shares.now)) }
{
    for share in shares {
        let line = share_line(alloc, stores, share)?;
        printer.say(out, line.as_str());
    }
    Ok(())
}

fn say_run<S: Sink>(
    alloc: Global,
    stores: &[StorePlan],
    run: &RunPlan,
    printer: &mut Printer,
    out: &mut S,
) -> Result<(), NoMemory>
    requires { PrintsShares stores.now run.now }
    ensures ok { OnOk result (Says (printing printer.old.failed (S.taken out.old) (S.faults out.old)) (printing printer.new.failed (S.taken out.new) (S.faults out.new)) (run_lines_text stores.now run.now)) }
    ensures err { OnErr result (SaysFront (printing printer.old.failed (S.taken out.old) (S.faults out.old)) (printing printer.new.failed (S.taken out.new) (S.faults out.new)) (run_lines_text stores.now run.now)) }
{
    let line = run_line(alloc, run)?;
    printer.say(out, line.as_str());
    say_shares(alloc, stores, run.shares.as_slice(), printer, out)
}

fn say_runs<S: Sink>(
    alloc: Global,
    stores: &[StorePlan],
    runs: &[RunPlan],
    printer: &mut Printer,
    out: &mut S,
) -> Result<(), NoMemory>
    requires { All (PrintsShares stores.now) runs.now }
    ensures ok { OnOk result (Says (printing printer.old.failed (S.taken out.old) (S.faults out.old)) (printing printer.new.failed (S.taken out.new) (S.faults out.new)) (flat_map (run_lines_text stores.now) runs.now)) }
    ensures err { OnErr result (SaysFront (printing printer.old.failed (S.taken out.old) (S.faults out.old)) (printing printer.new.failed (S.taken out.new) (S.faults out.new)) (flat_map (run_lines_text stores.now) runs.now)) }
{
    for run in runs {
        say_run(alloc, stores, run, printer, out)?;
    }
    Ok(())
}

/// Prints a plan: a line for each store, and then for each run a line and one for each of its shares. Where memory runs out a front
/// of it was printed.
pub fn say_plan<S: Sink>(
    alloc: Global,
    plan: &Plan,
    printer: &mut Printer,
    out: &mut S,
) -> Result<(), NoMemory>
    requires { All (PrintsShares plan.now.stores) plan.now.runs }
    ensures ok { OnOk result (Says (printing printer.old.failed (S.taken out.old) (S.faults out.old)) (printing printer.new.failed (S.taken out.new) (S.faults out.new)) (plan_text plan.now)) }
    ensures err { OnErr result (SaysFront (printing printer.old.failed (S.taken out.old) (S.faults out.old)) (printing printer.new.failed (S.taken out.new) (S.faults out.new)) (plan_text plan.now)) }
{
    let stores = plan.stores.as_slice();
    say_stores(alloc, stores, printer, out)?;
    say_runs(alloc, stores, plan.runs.as_slice(), printer, out)
}

#[cfg(test)]
mod tests {
    use super::*;
    use plan_types::Format;
    use std::process::Abort;
    use vd_base::{Geometry, StoreId, StoreName};
    use vd_list::Items;
    use vd_outside::{MemSink, Text};

    fn text(rt: &impl Abort, alloc: Global, words: &str) -> Text {
        Text::from_str(alloc, words).expect(rt, "memory")
    }

    #[test]
    fn lines_go_out_in_order(rt: HostRuntime) {
        let alloc = rt.alloc();
        let store = StorePlan {
            id: StoreId {
                name: StoreName::read(b"sd1").expect(&rt, "a name"),
                geometry: Geometry::new(16, 4096).expect(&rt, "a geometry"),
            },
            path: text(&rt, alloc, "/d/a"),
            journal: text(&rt, alloc, "sd1.jnl"),
            threads: 8,
            openflags: text(&rt, alloc, ""),
        };
        let share = Share {
            workload: text(&rt, alloc, "wd1"),
            store: 0,
            xfersize: 4096,
            rdpct: 100,
            seekpct: 50,
            weight: 7,
        };
        let mut shares = Vec::new(alloc);
        shares.push(share).expect(&rt, "memory");
        let run = RunPlan {
            number: 1,
            line: 3,
            name: text(&rt, alloc, "rd1"),
            iorate: 100,
            elapsed: 30,
            interval: 1,
            turns: 7,
            format: Format::No,
            slaves: 1,
            shares: Items::of(shares),
            workers: Items::of(Vec::new(alloc)),
        };
        let mut stores = Vec::new(alloc);
        stores.push(store).expect(&rt, "memory");
        let mut runs = Vec::new(alloc);
        runs.push(run).expect(&rt, "memory");
        let plan = Plan {
            stores: Items::of(stores),
            runs: Items::of(runs),
            preread: true,
            reread: false,
            data_errors: 50,
            journal_sectors: 4096,
            create_anchors: false,
        };
        let mut out = MemSink::new(alloc, Vec::new(alloc));
        let mut printer = Printer::new();
        say_plan(alloc, &plan, &mut printer, &mut out).expect(&rt, "memory");
        let printed =
            b"store sd1 lun /d/a blocks 16 of 4096 threads 8 journal sd1.jnl\nrun 1 rd1 iorate 100 elapsed 30 interval 1 turns 7 format no slaves 1 workers 0\nshare wd1 sd1 xfersize 4096 rdpct 100 seekpct 50 weight 7\n".as_slice();
        assert_eq!(rt; out.bytes(), printed);
    }
}
