// Files as a tester writes them, and what is said of each.
use crate::{Unplanned, plan_of_file};
use plan_types::Plan;
use run_report::{run_line, share_line, store_line};
use std::alloc::Global;
use std::process::Abort;
use vd_outside::Text;

fn add(rt: &impl Abort, text: &mut Text, line: &Text) {
    text.push(line.as_str()).expect(rt, "memory");
}

/// The lines of a plan.
fn printed(rt: &impl Abort, alloc: Global, plan: &Plan) -> Text {
    let mut text = Text::from_str(alloc, "").expect(rt, "memory");
    let stores = plan.stores.as_slice();
    for store in stores {
        add(
            rt,
            &mut text,
            &store_line(alloc, store).expect(rt, "memory"),
        );
    }
    for run in plan.runs.as_slice() {
        add(rt, &mut text, &run_line(alloc, run).expect(rt, "memory"));
        for share in run.shares.as_slice() {
            if (share.store as usize) < stores.len() {
                let line = share_line(alloc, stores, share).expect(rt, "memory");
                add(rt, &mut text, &line);
            }
        }
    }
    text
}

/// What is said of a file: the lines of its plan, or the line that refuses it.
fn said(rt: &impl Abort, alloc: Global, file: &str) -> Option<Text> {
    match plan_of_file(alloc, file.as_bytes()) {
        Ok(plan) => Some(printed(rt, alloc, &plan)),
        Err(Unplanned::Refused(line)) => Some(line),
        Err(Unplanned::NoMemory) => None,
    }
}

const TWO_STORES: &str =
    "* usual\nsd=default,openflags=o_direct,threads=8\nsd=sd1,lun=/d/a,size=1g\nsd=sd2,lun=/d/b,size=1g\nwd=wd1,sd=sd*,xfersize=4k,rdpct=50\nrd=rd1,wd=wd1,iorate=max,elapsed=60,interval=1\n";

const PLAN_OF_TWO: &str =
    "store sd1 lun /d/a blocks 262144 of 4096 threads 8 journal sd1.jnl openflags o_direct\nstore sd2 lun /d/b blocks 262144 of 4096 threads 8 journal sd2.jnl openflags o_direct\nrun 1 rd1 iorate max elapsed 60 interval 1 turns 4294967295 format no slaves 1 workers 16\nshare wd1 sd1 xfersize 4096 rdpct 50 seekpct 100 weight 100\nshare wd1 sd2 xfersize 4096 rdpct 50 seekpct 100 weight 100\n";

#[test]
fn a_plan_of_two_stores(rt: HostRuntime) {
    let alloc = rt.alloc();
    let text = said(&rt, alloc, TWO_STORES).expect(&rt, "memory");
    assert_eq!(rt; text.as_str(), PLAN_OF_TWO);
}

#[test]
fn files_are_refused(rt: HostRuntime) {
    let alloc = rt.alloc();
    for (file, line) in [
        ("", "parameter line 0: no runs\n"),
        ("sd=", "parameter line 1 column 4: empty value\n"),
        ("sd=((a))", "parameter line 1 column 5: empty value\n"),
        ("sd=(sd1", "parameter line 1 column 8: unclosed list\n"),
        ("sd=\"sd1", "parameter line 1 column 8: unclosed quote\n"),
        ("sd=sd1,", "parameter line 1 column 8: open end\n"),
        ("sd=\u{80}", "parameter line 1 column 4: bad byte\n"),
        (
            "sd=sd1,lun=/d/a,size=64k,hitarea=1m\n",
            "parameter line 1: unknown keyword\n",
        ),
        (
            "sd=sd1,lun=/d/a,size=64x\n",
            "parameter line 1: bad number\n",
        ),
        (
            "sd=sd1,lun=/d/a,size=64k\nwd=wd1,sd=sd1,xfersize=1000\n",
            "parameter line 2: out of range\n",
        ),
        (
            "sd=sd1,lun=/d/a,size=64k\nwd=wd1,sd=zz*\nrd=rd1,wd=wd1\n",
            "parameter line 2: nothing is selected\n",
        ),
        (
            "sd=sd1,lun=/d/a,size=64k,keyblock=4k\nwd=wd1,sd=sd1,xfersize=256k\nrd=rd1,wd=wd1\n",
            "parameter line 1: size too small\n",
        ),
        (
            "sd=sd1,lun=/d/a,size=64k,keyblock=4k\nwd=wd1,sd=sd1,xfersize=512k\nrd=rd1,wd=wd1\n",
            "parameter line 1: transfer not a multiple\n",
        ),
        (
            "sd=sd1,lun=/d/a,size=8589935104\nwd=wd1,sd=sd1,xfersize=512\nrd=rd1,wd=wd1\n",
            "parameter line 1: too many blocks\n",
        ),
        (
            "fsd=fsd1,anchor=/d,depth=1,width=1,files=1,sizes=4k\nrd=rd1,fwd=f\n",
            "parameter line 1: tree not built\n",
        ),
    ] {
        let text = said(&rt, alloc, file).expect(&rt, "memory");
        assert_eq!(rt; text.as_str(), line, "{file}");
    }
}
