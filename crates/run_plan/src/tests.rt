// Worked rows: definitions, and the plan that they give or their refusal.
ghost use Rattle.std.specs.Prelude.{◌≡◌, ◌∷◌, ◌≤◌, [], All, IsTrue, length, map};
ghost use Rattle.parm_records.specs.Ranges.{AreDifferent, IsBlockSize, IsFrom, IsRd, IsSd, IsWd};

use super::{PlanRefused, plan_of};
use parm_records::{General, RdDef, SdDef, WdDef};
use plan_types::{Plan, RunPlan, StorePlan};
use std::alloc::Global;
use std::process::Abort;
use vd_base::StoreName;
use vd_list::Items;
use vd_outside::Text;

fn text(rt: &impl Abort, alloc: Global, word: &str) -> Text
    ensures { result ≡ word.now }
{
    Text::from_str(alloc, word).expect(rt, "memory")
}

fn texts(rt: &impl Abort, alloc: Global, words: &[&str]) -> Items<Text>
    requires { length words.now ≤ 9 }
    ensures { length result ≡ length words.now }
{
    let mut list = Vec::new(alloc);
    for word in words {
        list.push(text(rt, alloc, word)).expect(rt, "memory");
    }
    Items::of(list)
}

fn is_block_size(size: u64) -> bool
    ensures { IsTrue result → IsBlockSize size }
{
    1 <= size && size <= 1_048_576 && size % 512 == 0
}

/// A store without a keyblock, on `/d/` and its name.
fn sd(rt: &impl Abort, alloc: Global, line: u32, name: &str, size: u64) -> SdDef
    ensures valid { IsSd result }
    ensures name { result.name ≡ name.now }
{
    assert!(rt; StoreName::read(name.as_bytes()).is_some());
    assert!(rt; 1 <= size && size <= 9_223_372_036_854_775_807);
    let mut journal = text(rt, alloc, name);
    journal.push(".jnl").expect(rt, "memory");
    let mut lun = text(rt, alloc, "/d/");
    lun.push(name).expect(rt, "memory");
    SdDef {
        line,
        name: text(rt, alloc, name),
        count: Items::of(Vec::new(alloc)),
        host: texts(rt, alloc, &["*"]),
        journal,
        keyblock: None,
        lun: Some(lun),
        openflags: texts(rt, alloc, &["o_direct", "fsync"]),
        size: Some(size),
        threads: 8,
    }
}

fn wd(rt: &impl Abort, alloc: Global, sds: &[&str], xfersize: u64) -> WdDef
    requires { length sds.now ≤ 9 }
    ensures { IsWd result }
{
    assert!(rt; is_block_size(xfersize));
    WdDef {
        line: 3,
        name: text(rt, alloc, "wd1"),
        host: texts(rt, alloc, &["*"]),
        rdpct: 50,
        sd: texts(rt, alloc, sds),
        seekpct: 100,
        skew: None,
        xfersize,
    }
}

fn one<T: Drop>(rt: &impl Abort, alloc: Global, x: T) -> Vec<T>
    ensures { result.items ≡ x ∷ [] }
{
    let mut list = Vec::new(alloc);
    list.push(x).expect(rt, "memory");
    list
}

/// These numbers.
fn numbers(rt: &impl Abort, alloc: Global, values: &[u64]) -> Items<u64>
    ensures { result ≡ values.now }
{
    Items::of(Vec::from_slice(alloc, values).expect(rt, "memory"))
}

/// A run definition without a loop.
fn rd(rt: &impl Abort, alloc: Global, workload: &str, elapsed: u64) -> RdDef
    ensures valid { IsRd result }
    ensures percents { result.forrdpct ≡ [] }
{
    assert!(rt; 1 <= elapsed && elapsed <= 8_640_000);
    let mut wd = Vec::new(alloc);
    wd.push(text(rt, alloc, workload)).expect(rt, "memory");
    RdDef {
        line: 4,
        name: text(rt, alloc, "rd1"),
        elapsed,
        format: text(rt, alloc, "no"),
        forrdpct: Items::of(Vec::new(alloc)),
        forthreads: Items::of(Vec::new(alloc)),
        forxfersize: Items::of(Vec::new(alloc)),
        fwd: Items::of(Vec::new(alloc)),
        fwdrate: 0,
        interval: 1,
        iorate: 0,
        openflags: Items::of(Vec::new(alloc)),
        turns: 4_294_967_295,
        wd: Items::of(wd),
        loops: Items::of(Vec::new(alloc)),
    }
}

fn push(rt: &impl Abort, all: &mut Text, line: &str) {
    all.push(line).expect(rt, "memory");
}

fn push_store(rt: &impl Abort, alloc: Global, all: &mut Text, s: &StorePlan) {
    let (blocks, size) = (s.id.geometry.blocks(), s.id.geometry.block_size());
    let line = format!(in alloc;
        "store {} lun {} blocks {} of {}",
        s.id.name, s.path, blocks, size
    )
    .expect(rt, "memory");
    push(rt, all, line.as_str());
    let line = format!(in alloc;
        " threads {} journal {} openflags {}\n",
        s.threads, s.journal, s.openflags
    )
    .expect(rt, "memory");
    push(rt, all, line.as_str());
}

fn push_run(rt: &impl Abort, alloc: Global, all: &mut Text, r: &RunPlan) {
    let workers = r.workers.as_slice();
    let line = format!(in alloc;
        "run {} {} elapsed {} turns {}",
        r.number, r.name, r.elapsed, r.turns
    )
    .expect(rt, "memory");
    push(rt, all, line.as_str());
    let line = format!(in alloc; " slaves {} workers {}", r.slaves, workers.len()).expect(
        rt, "memory",
    );
    push(rt, all, line.as_str());
    if let Some(w) = workers.last() {
        let line = format!(in alloc;
            " last {} {} {} {}\n",
            w.number, w.slave, w.store, w.start
        ).expect(rt, "memory");
        push(rt, all, line.as_str());
    }
    for s in r.shares.as_slice() {
        let line = format!(in alloc;
            "share {} {} xfersize {}",
            s.workload, s.store, s.xfersize
        ).expect(rt, "memory");
        push(rt, all, line.as_str());
        let line = format!(in alloc;
            " rdpct {} seekpct {} weight {}\n",
            s.rdpct, s.seekpct, s.weight
        )
        .expect(rt, "memory");
        push(rt, all, line.as_str());
    }
}

/// The lines of a plan, or its refusal.
fn shown(rt: &impl Abort, alloc: Global, plan: &Result<Plan, PlanRefused>) -> Text {
    let mut all = text(rt, alloc, "");
    match plan {
        Ok(plan) => {
            for s in plan.stores.as_slice() {
                push_store(rt, alloc, &mut all, s);
            }
            for r in plan.runs.as_slice() {
                push_run(rt, alloc, &mut all, r);
            }
        }
        Err(refused) => {
            let line = format!(in alloc; "{refused:?}").expect(rt, "memory");
            push(rt, &mut all, line.as_str());
        }
    }
    all
}

/// The lines of the plan of these stores, one workload and one run definition.
fn planned(rt: &impl Abort, alloc: Global, sds: &[SdDef], wd: WdDef, rd: RdDef) -> Text
    requires sds { All IsSd sds.now }
    requires few { length sds.now ≤ 64 }
    requires names { AreDifferent (map (λ e. e.name) sds.now) }
    requires wd { IsWd wd }
    requires rd { IsRd rd }
{
    let general = General {
        create_anchors: text(rt, alloc, "no"),
        data_errors: 50,
        journal_sectors: 4096,
        messagescan: text(rt, alloc, "no"),
        validate: texts(rt, alloc, &["yes"]),
    };
    let wds = one(rt, alloc, wd);
    let rds = one(rt, alloc, rd);
    let plan = plan_of(
        alloc,
        &general,
        &[],
        sds,
        wds.as_slice(),
        rds.as_slice(),
        &[],
        &[],
    );
    shown(rt, alloc, &plan)
}

/// A file of one store, and what its plan shows.
#[derive(Clone, Copy, Drop)]
struct Row {
    size: u64,
    keyblock: Option<u64>,
    pattern: &'static str,
    xfersize: u64,
    elapsed: u64,
    shown: &'static str,
}

#[test]
fn one_store(rt: HostRuntime) {
    let alloc = rt.alloc();
    for row in [
        Row {
            size: 1 << 33,
            keyblock: None,
            pattern: "sd1",
            xfersize: 512,
            elapsed: 30,
            shown: "store sd1 lun /d/sd1 blocks 16777216 of 512 threads 8 journal sd1.jnl openflags o_direct,fsync
run 1 rd1 elapsed 30 turns 4294967295 slaves 1 workers 8 last 7 1 0 14680064
share wd1 0 xfersize 512 rdpct 50 seekpct 100 weight 100
",
        },
        Row {
            size: 8589935104,
            keyblock: None,
            pattern: "sd1",
            xfersize: 512,
            elapsed: 30,
            shown: "Fault(PlanFault { line: 1, kind: BlocksMany })",
        },
        Row {
            size: 65536,
            keyblock: None,
            pattern: "zz*",
            xfersize: 4096,
            elapsed: 30,
            shown: "Fault(PlanFault { line: 3, kind: NothingSelected })",
        },
        Row {
            size: 65536,
            keyblock: Some(4096),
            pattern: "sd1",
            xfersize: 262144,
            elapsed: 30,
            shown: "Fault(PlanFault { line: 1, kind: SizeSmall })",
        },
        Row {
            size: 65536,
            keyblock: Some(4096),
            pattern: "*",
            xfersize: 524288,
            elapsed: 30,
            shown: "Fault(PlanFault { line: 1, kind: TransferNotMultiple })",
        },
        Row {
            size: 65536,
            keyblock: Some(4096),
            pattern: "sd*",
            xfersize: 16384,
            elapsed: 60,
            shown: "store sd1 lun /d/sd1 blocks 16 of 4096 threads 8 journal sd1.jnl openflags o_direct,fsync
run 1 rd1 elapsed 60 turns 4294967295 slaves 1 workers 8 last 7 1 0 14
share wd1 0 xfersize 16384 rdpct 50 seekpct 100 weight 100
",
        },
        Row {
            size: 65536,
            keyblock: None,
            pattern: "sd1",
            xfersize: 4096,
            elapsed: 100_001,
            shown: "Fault(PlanFault { line: 4, kind: IntervalsMany })",
        },
    ] {
        if let Some(size) = row.keyblock {
            assert!(rt; is_block_size(size));
        }
        let store = SdDef {
            keyblock: row.keyblock,
            ..sd(&rt, alloc, 1, "sd1", row.size)
        };
        let sds = one(&rt, alloc, store);
        let wd = wd(&rt, alloc, &[row.pattern], row.xfersize);
        let rd = rd(&rt, alloc, "wd1", row.elapsed);
        let text = planned(&rt, alloc, sds.as_slice(), wd, rd);
        assert_eq!(rt; text.as_str(), row.shown);
    }
}

#[test]
fn two_stores(rt: HostRuntime) {
    let alloc = rt.alloc();
    let mut sds = one(&rt, alloc, sd(&rt, alloc, 1, "sd1", 1 << 30));
    sds.push(sd(&rt, alloc, 2, "sd2", 1 << 30))
        .expect(&rt, "memory");
    let wd = wd(&rt, alloc, &["sd*"], 4096);
    let rd = rd(&rt, alloc, "wd1", 60);
    let text = planned(&rt, alloc, sds.as_slice(), wd, rd);
    assert_eq!(rt;
        text.as_str(),
        "store sd1 lun /d/sd1 blocks 262144 of 4096 threads 8 journal sd1.jnl openflags o_direct,fsync
store sd2 lun /d/sd2 blocks 262144 of 4096 threads 8 journal sd2.jnl openflags o_direct,fsync
run 1 rd1 elapsed 60 turns 4294967295 slaves 1 workers 16 last 15 1 1 229376
share wd1 0 xfersize 4096 rdpct 50 seekpct 100 weight 100
share wd1 1 xfersize 4096 rdpct 50 seekpct 100 weight 100
"
    );
}

#[test]
fn counted_stores(rt: HostRuntime) {
    let alloc = rt.alloc();
    let mut sds = one(&rt, alloc, sd(&rt, alloc, 1, "sd1", 1 << 20));
    sds.push(sd(&rt, alloc, 1, "sd2", 1 << 20))
        .expect(&rt, "memory");
    sds.push(sd(&rt, alloc, 1, "sd3", 1 << 20))
        .expect(&rt, "memory");
    let wd = wd(&rt, alloc, &["sd1", "sd3"], 4096);
    let rd = rd(&rt, alloc, "wd1", 30);
    let text = planned(&rt, alloc, sds.as_slice(), wd, rd);
    assert_eq!(rt;
        text.as_str(),
        "store sd1 lun /d/sd1 blocks 256 of 4096 threads 8 journal sd1.jnl openflags o_direct,fsync
store sd2 lun /d/sd2 blocks 256 of 4096 threads 8 journal sd2.jnl openflags o_direct,fsync
store sd3 lun /d/sd3 blocks 256 of 4096 threads 8 journal sd3.jnl openflags o_direct,fsync
run 1 rd1 elapsed 30 turns 4294967295 slaves 1 workers 16 last 15 1 2 224
share wd1 0 xfersize 4096 rdpct 50 seekpct 100 weight 100
share wd1 2 xfersize 4096 rdpct 50 seekpct 100 weight 100
"
    );
}

#[test]
fn loops(rt: HostRuntime) {
    let alloc = rt.alloc();
    let sds = one(&rt, alloc, sd(&rt, alloc, 1, "sd1", 65536));
    let wd = wd(&rt, alloc, &["sd1"], 4096);
    let mut words = Vec::new(alloc);
    words
        .push(text(&rt, alloc, "forxfersize"))
        .expect(&rt, "memory");
    words
        .push(text(&rt, alloc, "forthreads"))
        .expect(&rt, "memory");
    let rd = RdDef {
        forthreads: numbers(&rt, alloc, &[1, 2]),
        forxfersize: numbers(&rt, alloc, &[4096, 8192]),
        loops: Items::of(words),
        ..rd(&rt, alloc, "wd1", 30)
    };
    let text = planned(&rt, alloc, sds.as_slice(), wd, rd);
    assert_eq!(rt;
        text.as_str(),
        "store sd1 lun /d/sd1 blocks 16 of 4096 threads 8 journal sd1.jnl openflags o_direct,fsync
run 1 rd1 elapsed 30 turns 4294967295 slaves 1 workers 1 last 0 1 0 0
share wd1 0 xfersize 4096 rdpct 50 seekpct 100 weight 100
run 2 rd1 elapsed 30 turns 4294967295 slaves 1 workers 2 last 1 1 0 8
share wd1 0 xfersize 4096 rdpct 50 seekpct 100 weight 100
run 3 rd1 elapsed 30 turns 4294967295 slaves 1 workers 1 last 0 1 0 0
share wd1 0 xfersize 8192 rdpct 50 seekpct 100 weight 100
run 4 rd1 elapsed 30 turns 4294967295 slaves 1 workers 2 last 1 1 0 8
share wd1 0 xfersize 8192 rdpct 50 seekpct 100 weight 100
"
    );
}
