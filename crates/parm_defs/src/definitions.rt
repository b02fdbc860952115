// The definitions of a file.
ghost use Rattle.std.specs.Prelude.{◌≡◌, ◌≤◌, IfOk, length, option_copied, slice_get};
ghost use Rattle.parm_lex.specs.Spans.{AreLinesOf};
ghost use Rattle.parm_records.specs.Ranges.{AreDefs};
ghost use Rattle.parm_defs.specs.Answers.{Gives};
ghost use Rattle.parm_defs.specs.File.{all_of, read_of};
ghost use Rattle.parm_defs.specs.Records.{defs_in, shown};

use crate::fault::DefsRefused;
use crate::file::{SoFar, all_lines};
use crate::laws::{definitions_fit, records_show_all};
use crate::records::{fsds_of, fwds_of, general_of, hds_of, rds_of, sds_of, wds_of};
use parm_lex::ParmLine;
use parm_records::{FsdDef, FwdDef, General, HdDef, RdDef, SdDef, WdDef};
use std::alloc::Global;
use std::marker::Model;
use vd_list::Items;
use vd_outside::NoMemory;

/// The general parameters of a file, and its definitions of each kind in the order of the file. Stores and file systems never stand in
/// one file, so they share one set of names. Contracts see the lists.
#[derive(Drop)]
pub struct Definitions {
    general: General,
    hds: Items<HdDef>,
    sds: Items<SdDef>,
    wds: Items<WdDef>,
    rds: Items<RdDef>,
    fsds: Items<FsdDef>,
    fwds: Items<FwdDef>,
}

impl Model for Definitions {
    ghost use Rattle.parm_records.specs.Ranges.{Defs};

    ghost Value = { Defs };

    ghost view = { λ d. record { general = d.general; hds = d.hds; sds = d.sds; wds = d.wds; rds = d.rds; fsds = d.fsds; fwds = d.fwds } };
}

/// The records of what stands in a file.
fn records_of(alloc: Global, so_far: SoFar) -> Result<Definitions, NoMemory>
    ensures { IfOk result (λ d. d ≡ defs_in (all_of so_far)) }
{
    let SoFar {
        general,
        hd,
        sd,
        wd,
        rd,
        fsd,
        fwd,
        ..
    } = so_far;
    Ok(Definitions {
        general: general_of(alloc, general.values),
        hds: hds_of(alloc, hd.defs)?,
        sds: sds_of(alloc, sd.defs)?,
        wds: wds_of(alloc, wd.defs)?,
        rds: rds_of(alloc, rd.defs)?,
        fsds: fsds_of(alloc, fsd.defs)?,
        fwds: fwds_of(alloc, fwd.defs)?,
    })
}

impl Definitions {
    /// The definitions of a file's lines, or its first fault: lines from the first on, the parts of each from left to right, and then the
    /// whole definition.
    pub fn read(alloc: Global, bytes: &[u8], lines: &[ParmLine]) -> Result<Definitions, DefsRefused>
        requires lines { AreLinesOf bytes.now lines.now }
        // The most bytes of a parameter file.
        requires short { length bytes.now ≤ 1048576 }
        // What is read is what is defined, and so is the fault.
        ensures gives { Gives shown result (read_of bytes.now lines.now) }
        // What is read is in its ranges.
        ensures ranges { IfOk result (λ d. AreDefs d) }
    {
        definitions_fit();
        records_show_all();
        let so_far = all_lines(alloc, bytes, lines)?;
        Ok(records_of(alloc, so_far)?)
    }

    /// The general parameters.
    pub fn general(&self) -> &General
        ensures { result.now ≡ self.now.general }
    {
        &self.general
    }

    /// The hosts, in the order of the file.
    pub fn hds(&self) -> &[HdDef]
        ensures { result.now ≡ self.now.hds }
    {
        self.hds.as_slice()
    }

    /// The stores, in the order of the file.
    pub fn sds(&self) -> &[SdDef]
        ensures { result.now ≡ self.now.sds }
    {
        self.sds.as_slice()
    }

    /// The workloads over stores, in the order of the file.
    pub fn wds(&self) -> &[WdDef]
        ensures { result.now ≡ self.now.wds }
    {
        self.wds.as_slice()
    }

    /// The runs, in the order of the file.
    pub fn rds(&self) -> &[RdDef]
        ensures { result.now ≡ self.now.rds }
    {
        self.rds.as_slice()
    }

    /// The file systems, in the order of the file.
    pub fn fsds(&self) -> &[FsdDef]
        ensures { result.now ≡ self.now.fsds }
    {
        self.fsds.as_slice()
    }

    /// The workloads over file systems, in the order of the file.
    pub fn fwds(&self) -> &[FwdDef]
        ensures { result.now ≡ self.now.fwds }
    {
        self.fwds.as_slice()
    }

    /// The number of hosts.
    pub fn hd_count(&self) -> usize
        ensures { result ≡ length self.now.hds }
    {
        self.hds().len()
    }

    /// One of the hosts, from 0; none exactly past the last.
    pub fn hd_at(&self, i: usize) -> Option<&HdDef>
        ensures { option_copied result ≡ slice_get self.now.hds i }
    {
        self.hds().get(i)
    }

    /// The number of stores.
    pub fn sd_count(&self) -> usize
        ensures { result ≡ length self.now.sds }
    {
        self.sds().len()
    }

    /// One of the stores, from 0; none exactly past the last.
    pub fn sd_at(&self, i: usize) -> Option<&SdDef>
        ensures { option_copied result ≡ slice_get self.now.sds i }
    {
        self.sds().get(i)
    }

    /// The number of workloads over stores.
    pub fn wd_count(&self) -> usize
        ensures { result ≡ length self.now.wds }
    {
        self.wds().len()
    }

    /// One of the workloads over stores, from 0; none exactly past the last.
    pub fn wd_at(&self, i: usize) -> Option<&WdDef>
        ensures { option_copied result ≡ slice_get self.now.wds i }
    {
        self.wds().get(i)
    }

    /// The number of runs.
    pub fn rd_count(&self) -> usize
        ensures { result ≡ length self.now.rds }
    {
        self.rds().len()
    }

    /// One of the runs, from 0; none exactly past the last.
    pub fn rd_at(&self, i: usize) -> Option<&RdDef>
        ensures { option_copied result ≡ slice_get self.now.rds i }
    {
        self.rds().get(i)
    }

    /// The number of file systems.
    pub fn fsd_count(&self) -> usize
        ensures { result ≡ length self.now.fsds }
    {
        self.fsds().len()
    }

    /// One of the file systems, from 0; none exactly past the last.
    pub fn fsd_at(&self, i: usize) -> Option<&FsdDef>
        ensures { option_copied result ≡ slice_get self.now.fsds i }
    {
        self.fsds().get(i)
    }

    /// The number of workloads over file systems.
    pub fn fwd_count(&self) -> usize
        ensures { result ≡ length self.now.fwds }
    {
        self.fwds().len()
    }

    /// One of the workloads over file systems, from 0; none exactly past the last.
    pub fn fwd_at(&self, i: usize) -> Option<&FwdDef>
        ensures { option_copied result ≡ slice_get self.now.fwds i }
    {
        self.fwds().get(i)
    }
}
