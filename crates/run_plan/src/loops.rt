// The loops of a run definition.
ghost use Rattle.std.specs.Prelude.{◌≡◌, ◌++◌, ◌<◌, ◌-◌, ◌^◌, All, IfSome, OnOk, length, min};
ghost use Rattle.parm_records.specs.Ranges.{IsRd};
ghost use Rattle.run_plan.specs.Loops.{count_of, replaced, settings_of, values_of};

use parm_records::RdDef;
use std::alloc::AllocError;
use vd_outside::Text;

/// What the loops of a run replace.
#[derive(Clone, Copy, Debug, PartialEq, Eq, Drop)]
pub struct Settings {
    /// The workers of every store.
    pub threads: Option<u32>,
    /// The transfer size of every workload.
    pub xfersize: Option<u32>,
    /// The reads of every workload.
    pub rdpct: Option<u32>,
}

/// The values of a loop.
fn values_of<'a>(d: &'a RdDef, word: &Text) -> &'a [u64]
    requires { IsRd d.now }
    ensures value { result.now ≡ values_of d.now word.now }
    ensures small { All (λ value. value < 2 ^ 32) result.now }
{
    if word.as_bytes() == b"forthreads".as_slice() {
        d.forthreads.as_slice()
    } else if word.as_bytes() == b"forxfersize".as_slice() {
        d.forxfersize.as_slice()
    } else {
        d.forrdpct.as_slice()
    }
}

fn replaced(settings: Settings, word: &Text, value: u32) -> Settings
    ensures { result ≡ replaced settings word.now value }
{
    if word.as_bytes() == b"forthreads".as_slice() {
        Settings {
            threads: Some(value),
            ..settings
        }
    } else if word.as_bytes() == b"forxfersize".as_slice() {
        Settings {
            xfersize: Some(value),
            ..settings
        }
    } else {
        Settings {
            rdpct: Some(value),
            ..settings
        }
    }
}

/// How many runs the loops give, held at the greatest u64.
pub(crate) fn count_of(d: &RdDef) -> u64
    requires { IsRd d.now }
    ensures { result ≡ min (count_of d.now d.now.loops) (2 ^ 64 - 1) }
{
    let mut count: u64 = 1;
    for word in d.loops.as_slice() {
        count = count.saturating_mul(values_of(d, word).len() as u64);
    }
    count
}

/// Adds the runs of loops, the outermost slowest.
pub(crate) fn push_settings(
    d: &RdDef,
    words: &[Text],
    settings: Settings,
    runs: &mut Vec<Settings>,
) -> Result<(), AllocError>
    requires { IsRd d.now }
    ensures { OnOk result (runs.new.items ≡ runs.old.items ++ settings_of d.now words.now settings) }
{
    match words {
        [] => {
            runs.push(settings)?;
        }
        [word, inner @ ..] => {
            for value in values_of(d, word) {
                push_settings(d, inner, replaced(settings, word, *value as u32), runs)?;
            }
        }
    }
    Ok(())
}
