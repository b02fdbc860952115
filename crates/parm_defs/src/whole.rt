// Whole definitions: names, defaults, and what is wrong with them.
ghost use Rattle.std.specs.Prelude.{◌≡◌, ◌++◌, All, IfOk, codes, map, not};
ghost use Rattle.std.specs.List.{list_all, list_any};
ghost use Rattle.std.specs.Str.{bytes_eq};
ghost use Rattle.parm_lex.specs.Spans.{IsPartOf};
ghost use Rattle.parm_forms.specs.Forms.{texts_at};
ghost use Rattle.parm_defs.specs.Answers.{Gives, on_line};
ghost use Rattle.parm_defs.specs.Checks.{added, after_def, begun, defaulted, has_name, is_default, is_name, is_remote, most_of, name_of, whole};
ghost use Rattle.parm_defs.specs.Parts.{part_of};

use crate::copies::copied_values;
use crate::fault::DefsRefused;
use crate::given::{Given, after_parts};
use crate::made::{Def, all_made, value_at};
use parm_forms::{Kind, ParmKind, Value, is_other_name, name_text};
use parm_lex::ParmPart;
use std::alloc::Global;
use vd_base::StoreName;
use vd_list::Items;
use vd_outside::{NoMemory, Text};

/// What stands of a kind so far: the values of its last default, and its definitions.
#[derive(Drop)]
pub struct KindSoFar {
    pub default: Items<Value>,
    pub defs: Items<Def>,
}

/// Whether it is a name of the kind.
fn is_name(kind: Kind, name: &[u8]) -> bool
    ensures { result ≡ is_name kind name.now }
{
    match kind {
        Kind::Sd | Kind::Fsd => StoreName::read(name).is_some(),
        _ => is_other_name(name),
    }
}

/// The most definitions of a kind.
fn most_of(kind: Kind) -> usize
    ensures { result ≡ most_of kind }
{
    match kind {
        Kind::General => 0,
        Kind::Hd => 16,
        Kind::Sd | Kind::Wd | Kind::Fsd | Kind::Fwd => 64,
        Kind::Rd => 256,
    }
}

/// Whether it is the name of a default.
fn is_default(name: &[u8]) -> bool
    ensures { result ≡ is_default name.now }
{
    name == b"default".as_slice()
}

/// Whether some text isn't this machine's name.
fn is_elsewhere(texts: &[Text]) -> bool
    ensures { result ≡ list_any (λ text. not (bytes_eq text (codes "localhost"))) texts.now }
{
    texts
        .iter()
        .any(|text| text.as_bytes() != b"localhost".as_slice())
}

/// Whether a host's system is given and isn't this machine.
fn is_remote(kind: Kind, values: &[Value]) -> bool
    ensures { result ≡ is_remote kind values.now }
{
    match value_at(kind, b"system", values) {
        Some(Value::Texts(texts)) => is_elsewhere(texts.as_slice()),
        _ => false,
    }
}

/// The name of a definition.
fn name_of(
    alloc: Global,
    bytes: &[u8],
    kind: Kind,
    both: bool,
    part: &ParmPart,
) -> Result<Text, DefsRefused>
    requires { IsPartOf bytes.now part.now }
    ensures { Gives (λ name. name) result (on_line part.now.line (name_of kind both (texts_at bytes.now part.now.items))) }
{
    match part.items.as_slice() {
        [item] => {
            if !is_name(kind, item.bytes_in(bytes)) {
                return Err(DefsRefused::at(part.line, ParmKind::BadName));
            }
            if both {
                return Err(DefsRefused::at(part.line, ParmKind::BothKinds));
            }
            Ok(name_text(alloc, bytes, item)?)
        }
        _ => Err(DefsRefused::at(part.line, ParmKind::ValueCount)),
    }
}

/// Whether all names are names of the kind.
fn are_names(kind: Kind, defs: &[Def]) -> bool
    ensures { result ≡ list_all (λ d. is_name kind d.name) defs.now }
{
    defs.iter().all(|d| is_name(kind, d.name.as_bytes()))
}

/// Whether a definition has this name.
fn has_name(defs: &[Def], name: &[u8]) -> bool
    ensures { result ≡ has_name defs.now name.now }
{
    defs.iter().any(|d| d.name.as_bytes() == name)
}

/// Whether some name is that of an earlier definition.
fn is_taken(before: &[Def], defs: &[Def]) -> bool
    ensures { result ≡ list_any (λ d. has_name before.now d.name) defs.now }
{
    defs.iter().any(|d| has_name(before, d.name.as_bytes()))
}

/// Whether some definition is of another machine.
fn is_any_remote(kind: Kind, defs: &[Def]) -> bool
    ensures { result ≡ list_any (λ d. is_remote kind d.values) defs.now }
{
    defs.iter().any(|d| is_remote(kind, d.values.as_slice()))
}

/// Definitions behind others.
fn appended(before: Items<Def>, defs: Vec<Def>) -> Result<Items<Def>, NoMemory>
    ensures { IfOk result (λ all. all ≡ before ++ defs.items) }
{
    let mut all = before.into_vec();
    let mut defs = defs;
    all.append(&mut defs)?;
    Ok(Items::of(all))
}

/// More definitions of a kind.
fn added(kind: Kind, so_far: KindSoFar, line: u32, defs: Vec<Def>) -> Result<KindSoFar, DefsRefused>
    ensures { Gives (λ next. next) result (on_line line (added kind so_far defs.items)) }
{
    let before = so_far.defs.as_slice();
    if !are_names(kind, &defs) {
        return Err(DefsRefused::at(line, ParmKind::BadName));
    }
    if is_taken(before, &defs) {
        return Err(DefsRefused::at(line, ParmKind::NameTaken));
    }
    if is_any_remote(kind, &defs) {
        return Err(DefsRefused::at(line, ParmKind::RemoteHost));
    }
    if most_of(kind) < before.len() + defs.len() {
        return Err(DefsRefused::at(line, ParmKind::TooMany));
    }
    let defs = appended(so_far.defs, defs)?;
    Ok(KindSoFar {
        default: so_far.default,
        defs,
    })
}

/// Another default of a kind.
fn defaulted(
    kind: Kind,
    so_far: KindSoFar,
    line: u32,
    values: Items<Value>,
) -> Result<KindSoFar, DefsRefused>
    ensures { Gives (λ next. next) result (on_line line (defaulted kind so_far values)) }
{
    if is_remote(kind, values.as_slice()) {
        return Err(DefsRefused::at(line, ParmKind::RemoteHost));
    }
    Ok(KindSoFar {
        default: values,
        defs: so_far.defs,
    })
}

/// A definition whose parts are read.
fn whole(
    alloc: Global,
    kind: Kind,
    so_far: KindSoFar,
    line: u32,
    name: Text,
    given: Given,
) -> Result<KindSoFar, DefsRefused>
    ensures { Gives (λ next. next) result (on_line line (whole kind so_far line name given)) }
{
    if is_default(name.as_bytes()) {
        return defaulted(kind, so_far, line, given.values);
    }
    let defs = all_made(alloc, kind, line, &name, &given)?;
    added(kind, so_far, line, defs)
}

/// A definition begins with the values of the last default, and nothing given yet.
pub fn begun(alloc: Global, values: &[Value]) -> Result<Given, NoMemory>
    ensures { IfOk result (λ given. given ≡ begun values.now) }
{
    Ok(Given {
        values: Items::of(copied_values(alloc, values)?),
        words: Items::of(Vec::new(alloc)),
    })
}

/// One definition more: its name, its other parts, and the whole.
pub fn after_def(
    alloc: Global,
    bytes: &[u8],
    kind: Kind,
    both: bool,
    so_far: KindSoFar,
    line: u32,
    first: &ParmPart,
    parts: &[ParmPart],
) -> Result<KindSoFar, DefsRefused>
    requires first { IsPartOf bytes.now first.now }
    requires parts { All (IsPartOf bytes.now) parts.now }
    ensures { Gives (λ next. next) result (after_def kind both so_far line (part_of bytes.now first.now) (map (part_of bytes.now) parts.now)) }
{
    let name = name_of(alloc, bytes, kind, both, first)?;
    let given = begun(alloc, so_far.default.as_slice())?;
    let given = after_parts(
        alloc,
        bytes,
        kind,
        is_default(name.as_bytes()),
        given,
        parts,
    )?;
    whole(alloc, kind, so_far, line, name, given)
}
