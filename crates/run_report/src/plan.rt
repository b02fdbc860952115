// Lines of a plan, and of a parameter file that is refused.
ghost use Rattle.std.specs.Prelude.{◌≡◌, ◌<◌, IfOk, length};
ghost use Rattle.run_report.specs.Plans.{flags_text, format_word as word_of_format, named_share_text, parameter_column_text, parameter_text, percents_text, rate_text, run_head_text, share_text, size_text, store_text, times_text, workers_text};
ghost use Rattle.vd_base.specs.Name.{name_text};

use plan_types::{Format, RunPlan, Share, StorePlan};
use std::alloc::Global;
use vd_base::StoreName;
use vd_outside::{NoMemory, Text};

fn flags_of(alloc: Global, flags: &Text) -> Result<Text, NoMemory>
    ensures { IfOk result (λ text. text ≡ flags_text flags.now) }
{
    if flags.as_bytes().is_empty() {
        return Text::from_str(alloc, "");
    }
    Ok(Text::of(format!(in alloc; " openflags {flags}")?))
}

fn size_of(alloc: Global, store: &StorePlan) -> Result<Text, NoMemory>
    ensures { IfOk result (λ text. text ≡ size_text store.now) }
{
    let blocks = store.id.geometry.blocks();
    let size = store.id.geometry.block_size();
    Ok(Text::of(format!(in alloc; " blocks {blocks} of {size}")?))
}

/// The line of a store of a plan.
pub fn store_line(alloc: Global, store: &StorePlan) -> Result<Text, NoMemory>
    ensures { IfOk result (λ line. line ≡ store_text store.now) }
{
    let name = &store.id.name;
    let path = &store.path;
    let journal = &store.journal;
    let threads = store.threads;
    let size = size_of(alloc, store)?;
    let flags = flags_of(alloc, &store.openflags)?;
    let line = format!(in alloc;
        "store {name} lun {path}{size} threads {threads} journal {journal}{flags}\n"
    )?;
    Ok(Text::of(line))
}

fn format_word(format: Format) -> &'static str
    ensures { result.now ≡ word_of_format format }
{
    match format {
        Format::No => "no",
        Format::Yes => "yes",
        Format::Only => "only",
    }
}

fn rate_of(alloc: Global, rate: u32) -> Result<Text, NoMemory>
    ensures { IfOk result (λ text. text ≡ rate_text rate) }
{
    if rate == 0 {
        return Text::from_str(alloc, "max");
    }
    Ok(Text::of(format!(in alloc; "{rate}")?))
}

fn times_of(alloc: Global, run: &RunPlan) -> Result<Text, NoMemory>
    ensures { IfOk result (λ text. text ≡ times_text run.now) }
{
    let rate = rate_of(alloc, run.iorate)?;
    let elapsed = run.elapsed;
    let interval = run.interval;
    let turns = run.turns;
    let text = format!(in alloc;
        "iorate {rate} elapsed {elapsed} interval {interval} turns {turns}"
    )?;
    Ok(Text::of(text))
}

fn workers_of(alloc: Global, run: &RunPlan) -> Result<Text, NoMemory>
    ensures { IfOk result (λ text. text ≡ workers_text run.now) }
{
    let word = format_word(run.format);
    let slaves = run.slaves;
    let workers = run.workers.as_slice().len();
    Ok(Text::of(format!(in alloc; "format {word} slaves {slaves} workers {workers}")?))
}

/// The line of a run of a plan; those of its shares follow it.
#[tactic(auto, unfolding(crate::specs::Plans::run_head_text))]
pub fn run_line(alloc: Global, run: &RunPlan) -> Result<Text, NoMemory>
    ensures { IfOk result (λ line. line ≡ run_head_text run.now) }
{
    let number = run.number;
    let name = &run.name;
    let times = times_of(alloc, run)?;
    let workers = workers_of(alloc, run)?;
    Ok(Text::of(format!(in alloc; "run {number} {name} {times} {workers}\n")?))
}

fn percents_of(alloc: Global, share: &Share) -> Result<Text, NoMemory>
    ensures { IfOk result (λ text. text ≡ percents_text share.now) }
{
    let reads = share.rdpct;
    let random = share.seekpct;
    let weight = share.weight;
    Ok(Text::of(format!(in alloc; "rdpct {reads} seekpct {random} weight {weight}")?))
}

fn named_share_line(alloc: Global, name: &StoreName, share: &Share) -> Result<Text, NoMemory>
    ensures { IfOk result (λ line. line ≡ named_share_text (name_text name.now) share.now) }
{
    let workload = &share.workload;
    let size = share.xfersize;
    let percents = percents_of(alloc, share)?;
    let line = format!(in alloc; "share {workload} {name} xfersize {size} {percents}\n")?;
    Ok(Text::of(line))
}

/// The line of a share of a run, over the plan's stores.
#[tactic(auto, unfolding(crate::specs::Plans::share_text))]
pub fn share_line(alloc: Global, stores: &[StorePlan], share: &Share) -> Result<Text, NoMemory>
    requires { share.now.store < length stores.now }
    ensures { IfOk result (λ line. line ≡ share_text stores.now share.now) }
{
    named_share_line(alloc, &stores[share.store as usize].id.name, share)
}

/// The line of a parameter file that is refused at a line, which is 0 where no line is named.
pub fn parameter_line(alloc: Global, line: u32, why: &str) -> Result<Text, NoMemory>
    ensures { IfOk result (λ text. text ≡ parameter_text line why.now) }
{
    Ok(Text::of(format!(in alloc; "parameter line {line}: {why}\n")?))
}

/// The line of a parameter file whose line is faulty at a column.
pub fn parameter_column_line(
    alloc: Global,
    line: u32,
    column: u32,
    why: &str,
) -> Result<Text, NoMemory>
    ensures { IfOk result (λ text. text ≡ parameter_column_text line column why.now) }
{
    Ok(Text::of(format!(in alloc; "parameter line {line} column {column}: {why}\n")?))
}

#[cfg(test)]
mod tests {
    use super::*;
    use plan_types::WorkerPlan;
    use std::process::Abort;
    use vd_base::{Geometry, StoreId};
    use vd_list::Items;

    fn text(rt: &impl Abort, alloc: Global, words: &str) -> Text {
        Text::from_str(alloc, words).expect(rt, "memory")
    }

    fn store(rt: &impl Abort, alloc: Global, flags: &str) -> StorePlan {
        StorePlan {
            id: StoreId {
                name: StoreName::read(b"sd1").expect(rt, "a name"),
                geometry: Geometry::new(16, 4096).expect(rt, "a geometry"),
            },
            path: text(rt, alloc, "/d/a"),
            journal: text(rt, alloc, "sd1.jnl"),
            threads: 8,
            openflags: text(rt, alloc, flags),
        }
    }

    #[test]
    fn a_plan_is_printed(rt: HostRuntime) {
        let alloc = rt.alloc();
        let plain = store(&rt, alloc, "");
        let flagged = store(&rt, alloc, "o_direct,fsync");
        let line = store_line(alloc, &plain).expect(&rt, "memory");
        assert_eq!(rt;
            line.as_str(),
            "store sd1 lun /d/a blocks 16 of 4096 threads 8 journal sd1.jnl\n"
        );
        let line = store_line(alloc, &flagged).expect(&rt, "memory");
        assert_eq!(rt;
            line.as_str(),
            "store sd1 lun /d/a blocks 16 of 4096 threads 8 journal sd1.jnl openflags o_direct,fsync\n"
        );
        let share = Share {
            workload: text(&rt, alloc, "wd1"),
            store: 0,
            xfersize: 4096,
            rdpct: 100,
            seekpct: 50,
            weight: 7,
        };
        let line = share_line(alloc, &[plain], &share).expect(&rt, "memory");
        assert_eq!(rt;
            line.as_str(),
            "share wd1 sd1 xfersize 4096 rdpct 100 seekpct 50 weight 7\n"
        );
        let mut shares = Vec::new(alloc);
        shares.push(share).expect(&rt, "memory");
        let mut workers = Vec::new(alloc);
        workers
            .push(WorkerPlan {
                number: 0,
                slave: 1,
                store: 0,
                start: 0,
            })
            .expect(&rt, "memory");
        let run = RunPlan {
            number: 3,
            line: 5,
            name: text(&rt, alloc, "rd1"),
            iorate: 0,
            elapsed: 30,
            interval: 1,
            turns: 4_294_967_295,
            format: Format::No,
            slaves: 1,
            shares: Items::of(shares),
            workers: Items::of(workers),
        };
        let line = run_line(alloc, &run).expect(&rt, "memory");
        assert_eq!(rt;
            line.as_str(),
            "run 3 rd1 iorate max elapsed 30 interval 1 turns 4294967295 format no slaves 1 workers 1\n"
        );
        let line = parameter_line(alloc, 3, "no path").expect(&rt, "memory");
        assert_eq!(rt; line.as_str(), "parameter line 3: no path\n");
        let line = parameter_column_line(alloc, 1, 8, "empty part").expect(&rt, "memory");
        assert_eq!(rt; line.as_str(), "parameter line 1 column 8: empty part\n");
    }
}
