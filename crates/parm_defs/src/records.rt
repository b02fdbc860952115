// Records from the values of their keywords.
ghost use Rattle.std.specs.Prelude.{◌≡◌, IfOk, map};
ghost use Rattle.std.specs.Vec.Iter.{into_iter_items};
ghost use Rattle.parm_defs.specs.Records.{fsd_in, fwd_in, general_in, hd_in, maybe_number_in, maybe_text_in, number_in, numbers_in, only, rd_in, rest, sd_in, text_in, texts_in, wd_in};

use crate::copies::push;
use crate::made::Def;
use parm_forms::Value;
use parm_records::{FsdDef, FwdDef, General, HdDef, RdDef, SdDef, WdDef};
use std::alloc::Global;
use std::vec::IntoIter;
use vd_list::Items;
use vd_outside::{NoMemory, Text};

/// A record whose keywords are read one after another, in the order of their kind's table.
macro_rules! record {
    ($type:ident { $($set:ident: $value:expr),* } from $alloc:ident, $values:ident; $($field:ident $read:ident),*) => {
        $type { $($set: $value,)* $($field: $read($alloc, &mut $values),)* }
    };
}

/// Numbers. The values of definitions have the shape of their records; others would read as nothing.
fn numbers(alloc: Global, values: &mut IntoIter<Value>) -> Items<u64>
    ensures value { result ≡ numbers_in (into_iter_items values.old) }
    ensures rest { into_iter_items values.new ≡ rest (into_iter_items values.old) }
{
    match values.next() {
        Some(Value::Numbers(numbers)) => numbers,
        _ => Items::of(Vec::new(alloc)),
    }
}

/// Texts.
fn texts(alloc: Global, values: &mut IntoIter<Value>) -> Items<Text>
    ensures value { result ≡ texts_in (into_iter_items values.old) }
    ensures rest { into_iter_items values.new ≡ rest (into_iter_items values.old) }
{
    match values.next() {
        Some(Value::Texts(texts)) => texts,
        _ => Items::of(Vec::new(alloc)),
    }
}

/// One number, where it is given.
fn maybe_number(alloc: Global, values: &mut IntoIter<Value>) -> Option<u64>
    ensures value { result ≡ maybe_number_in (into_iter_items values.old) }
    ensures rest { into_iter_items values.new ≡ rest (into_iter_items values.old) }
{
    match numbers(alloc, values).as_slice() {
        [number] => Some(*number),
        _ => None,
    }
}

/// One number.
fn number(alloc: Global, values: &mut IntoIter<Value>) -> u64
    ensures value { result ≡ number_in (into_iter_items values.old) }
    ensures rest { into_iter_items values.new ≡ rest (into_iter_items values.old) }
{
    maybe_number(alloc, values).unwrap_or(0)
}

/// The only one of texts.
fn only_text(texts: Vec<Text>) -> Option<Text>
    ensures { result ≡ only texts.items }
{
    let mut texts = texts;
    if texts.len() > 1 {
        return None;
    }
    texts.pop()
}

/// One text, where it is given.
fn maybe_text(alloc: Global, values: &mut IntoIter<Value>) -> Option<Text>
    ensures value { result ≡ maybe_text_in (into_iter_items values.old) }
    ensures rest { into_iter_items values.new ≡ rest (into_iter_items values.old) }
{
    only_text(texts(alloc, values).into_vec())
}

/// One text.
fn text(alloc: Global, values: &mut IntoIter<Value>) -> Text
    ensures value { result ≡ text_in (into_iter_items values.old) }
    ensures rest { into_iter_items values.new ≡ rest (into_iter_items values.old) }
{
    match maybe_text(alloc, values) {
        Some(text) => text,
        None => Text::of(String::new(alloc)),
    }
}

/// The general parameters of these values.
pub fn general_of(alloc: Global, values: Items<Value>) -> General
    ensures { result ≡ general_in values }
{
    let mut values = values.into_vec().into_iter();
    record! { General {} from alloc, values;
        create_anchors text, data_errors number, journal_sectors number, messagescan text, validate texts
    }
}

/// The host of this definition.
fn hd_of(alloc: Global, def: Def) -> HdDef
    ensures { result ≡ hd_in def }
{
    let mut values = def.values.into_vec().into_iter();
    record! { HdDef { line: def.line, name: def.name } from alloc, values;
        jvms number, shell text, system text, user text, vdbench text
    }
}

/// The store of this definition.
fn sd_of(alloc: Global, def: Def) -> SdDef
    ensures { result ≡ sd_in def }
{
    let mut values = def.values.into_vec().into_iter();
    record! { SdDef { line: def.line, name: def.name } from alloc, values;
        count numbers, host texts, journal text, keyblock maybe_number, lun maybe_text,
        openflags texts, size maybe_number, threads number
    }
}

/// The workload over stores of this definition.
fn wd_of(alloc: Global, def: Def) -> WdDef
    ensures { result ≡ wd_in def }
{
    let mut values = def.values.into_vec().into_iter();
    record! { WdDef { line: def.line, name: def.name } from alloc, values;
        host texts, rdpct number, sd texts, seekpct number, skew maybe_number, xfersize number
    }
}

/// The run of this definition.
fn rd_of(alloc: Global, def: Def) -> RdDef
    ensures { result ≡ rd_in def }
{
    let mut values = def.values.into_vec().into_iter();
    record! { RdDef { line: def.line, name: def.name, loops: def.loops } from alloc, values;
        elapsed number, format text, forrdpct numbers, forthreads numbers, forxfersize numbers,
        fwd texts, fwdrate number, interval number, iorate number, openflags texts,
        turns number, wd texts
    }
}

/// The file system of this definition.
fn fsd_of(alloc: Global, def: Def) -> FsdDef
    ensures { result ≡ fsd_in def }
{
    let mut values = def.values.into_vec().into_iter();
    record! { FsdDef { line: def.line, name: def.name } from alloc, values;
        anchor maybe_text, count numbers, depth maybe_number, distribution text,
        files maybe_number, journal text, keyblock maybe_number, openflags texts,
        shared text, sizes numbers, width maybe_number
    }
}

/// The workload over file systems of this definition.
fn fwd_of(alloc: Global, def: Def) -> FwdDef
    ensures { result ≡ fwd_in def }
{
    let mut values = def.values.into_vec().into_iter();
    record! { FwdDef { line: def.line, name: def.name } from alloc, values;
        fileio text, fileselect text, fsd texts, host texts, operation text,
        rdpct number, skew maybe_number, threads number, xfersize number
    }
}

/// The host records of these definitions, in their order.
pub fn hds_of(alloc: Global, defs: Items<Def>) -> Result<Items<HdDef>, NoMemory>
    ensures { IfOk result (λ read. read ≡ map hd_in defs) }
{
    let mut records = Vec::new(alloc);
    for def in defs.into_vec() {
        push(&mut records, hd_of(alloc, def))?;
    }
    Ok(Items::of(records))
}

/// The store records of these definitions, in their order.
pub fn sds_of(alloc: Global, defs: Items<Def>) -> Result<Items<SdDef>, NoMemory>
    ensures { IfOk result (λ read. read ≡ map sd_in defs) }
{
    let mut records = Vec::new(alloc);
    for def in defs.into_vec() {
        push(&mut records, sd_of(alloc, def))?;
    }
    Ok(Items::of(records))
}

/// The workload records over stores of these definitions, in their order.
pub fn wds_of(alloc: Global, defs: Items<Def>) -> Result<Items<WdDef>, NoMemory>
    ensures { IfOk result (λ read. read ≡ map wd_in defs) }
{
    let mut records = Vec::new(alloc);
    for def in defs.into_vec() {
        push(&mut records, wd_of(alloc, def))?;
    }
    Ok(Items::of(records))
}

/// The run records of these definitions, in their order.
pub fn rds_of(alloc: Global, defs: Items<Def>) -> Result<Items<RdDef>, NoMemory>
    ensures { IfOk result (λ read. read ≡ map rd_in defs) }
{
    let mut records = Vec::new(alloc);
    for def in defs.into_vec() {
        push(&mut records, rd_of(alloc, def))?;
    }
    Ok(Items::of(records))
}

/// The file system records of these definitions, in their order.
pub fn fsds_of(alloc: Global, defs: Items<Def>) -> Result<Items<FsdDef>, NoMemory>
    ensures { IfOk result (λ read. read ≡ map fsd_in defs) }
{
    let mut records = Vec::new(alloc);
    for def in defs.into_vec() {
        push(&mut records, fsd_of(alloc, def))?;
    }
    Ok(Items::of(records))
}

/// The workload records over file systems of these definitions, in their order.
pub fn fwds_of(alloc: Global, defs: Items<Def>) -> Result<Items<FwdDef>, NoMemory>
    ensures { IfOk result (λ read. read ≡ map fwd_in defs) }
{
    let mut records = Vec::new(alloc);
    for def in defs.into_vec() {
        push(&mut records, fwd_of(alloc, def))?;
    }
    Ok(Items::of(records))
}
