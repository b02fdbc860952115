// The tables: the form and the default of each keyword of each kind.
ghost use Rattle.std.specs.Prelude.{◌≡◌, ◌<◌, IfOk, IfSome, [], ◌∷◌, length, map, slice_get};
ghost use Rattle.parm_forms.specs.Rows.{defaults_of, forms_of, row_number};
ghost use Rattle.parm_forms.specs.Presets.{preset_value};

use crate::choice::Choice;
use crate::form::Form;
use crate::value::Value;
use std::alloc::{AllocError, Global};
use vd_list::Items;
use vd_outside::{NoMemory, Text};

/// The kinds of lines: general parameters, and the six kinds of definitions.
#[derive(Clone, Copy, Debug, PartialEq, Eq, Drop)]
pub enum Kind {
    General,
    Hd,
    Sd,
    Wd,
    Rd,
    Fsd,
    Fwd,
}

/// What a keyword has where it isn't given.
#[derive(Clone, Copy)]
enum Preset {
    /// Nothing, of a keyword that takes numbers.
    NoNumber,
    /// Nothing, of a keyword that takes texts.
    NoText,
    Number(u64),
    Text(&'static str),
}

/// A keyword's form, and what it has where it isn't given.
#[derive(Clone, Copy)]
struct Row {
    form: Form,
    preset: Preset,
}

const GENERAL_ROWS: &[Row] = &[
    // `create_anchors`
    Row {
        form: Form::Choice(Choice::YesNo),
        preset: Preset::Text("no"),
    },
    // `data_errors`
    Row {
        form: Form::Number {
            least: 1,
            greatest: 10_000,
        },
        preset: Preset::Number(50),
    },
    // `journal_sectors`
    Row {
        form: Form::Number {
            least: 1,
            greatest: 65_536,
        },
        preset: Preset::Number(4096),
    },
    // `messagescan`
    Row {
        form: Form::Choice(Choice::YesNo),
        preset: Preset::Text("no"),
    },
    // `validate`
    Row {
        form: Form::Choices(Choice::Validate),
        preset: Preset::Text("yes"),
    },
];

const HD_ROWS: &[Row] = &[
    // `jvms`
    Row {
        form: Form::Number {
            least: 1,
            greatest: 16,
        },
        preset: Preset::Number(1),
    },
    // `shell`
    Row {
        form: Form::Path,
        preset: Preset::Text(""),
    },
    // `system`
    Row {
        form: Form::Word,
        preset: Preset::NoText,
    },
    // `user`
    Row {
        form: Form::Path,
        preset: Preset::Text(""),
    },
    // `vdbench`
    Row {
        form: Form::Path,
        preset: Preset::Text(""),
    },
];

const SD_ROWS: &[Row] = &[
    // `count`
    Row {
        form: Form::Count,
        preset: Preset::NoNumber,
    },
    // `host`
    Row {
        form: Form::Patterns,
        preset: Preset::Text("*"),
    },
    // `journal`
    Row {
        form: Form::Path,
        preset: Preset::NoText,
    },
    // `keyblock`
    Row {
        form: Form::BlockSize,
        preset: Preset::NoNumber,
    },
    // `lun`
    Row {
        form: Form::Path,
        preset: Preset::NoText,
    },
    // `openflags`
    Row {
        form: Form::Words,
        preset: Preset::NoText,
    },
    // `size`
    Row {
        form: Form::Size,
        preset: Preset::NoNumber,
    },
    // `threads`
    Row {
        form: Form::Number {
            least: 1,
            greatest: 256,
        },
        preset: Preset::Number(8),
    },
];

const WD_ROWS: &[Row] = &[
    // `host`
    Row {
        form: Form::Patterns,
        preset: Preset::Text("*"),
    },
    // `rdpct`
    Row {
        form: Form::Number {
            least: 0,
            greatest: 100,
        },
        preset: Preset::Number(100),
    },
    // `sd`
    Row {
        form: Form::StorePatterns,
        preset: Preset::NoText,
    },
    // `seekpct`
    Row {
        form: Form::SeekPercent,
        preset: Preset::Number(100),
    },
    // `skew`
    Row {
        form: Form::Number {
            least: 1,
            greatest: 100,
        },
        preset: Preset::NoNumber,
    },
    // `xfersize`
    Row {
        form: Form::BlockSize,
        preset: Preset::Number(4096),
    },
];

const RD_ROWS: &[Row] = &[
    // `elapsed`
    Row {
        form: Form::Seconds,
        preset: Preset::Number(30),
    },
    // `format`
    Row {
        form: Form::Choice(Choice::Format),
        preset: Preset::Text("no"),
    },
    // `forrdpct`
    Row {
        form: Form::Numbers {
            least: 0,
            greatest: 100,
        },
        preset: Preset::NoNumber,
    },
    // `forthreads`
    Row {
        form: Form::Numbers {
            least: 1,
            greatest: 256,
        },
        preset: Preset::NoNumber,
    },
    // `forxfersize`
    Row {
        form: Form::BlockSizes,
        preset: Preset::NoNumber,
    },
    // `fwd`
    Row {
        form: Form::Patterns,
        preset: Preset::NoText,
    },
    // `fwdrate`
    Row {
        form: Form::Rate,
        preset: Preset::Number(0),
    },
    // `interval`
    Row {
        form: Form::Seconds,
        preset: Preset::Number(1),
    },
    // `iorate`
    Row {
        form: Form::Rate,
        preset: Preset::Number(0),
    },
    // `openflags`
    Row {
        form: Form::Words,
        preset: Preset::NoText,
    },
    // `turns`
    Row {
        form: Form::Number {
            least: 1,
            greatest: 4_294_967_295,
        },
        preset: Preset::Number(4_294_967_295),
    },
    // `wd`
    Row {
        form: Form::Patterns,
        preset: Preset::NoText,
    },
];

const FSD_ROWS: &[Row] = &[
    // `anchor`
    Row {
        form: Form::Path,
        preset: Preset::NoText,
    },
    // `count`
    Row {
        form: Form::Count,
        preset: Preset::NoNumber,
    },
    // `depth`
    Row {
        form: Form::Number {
            least: 1,
            greatest: 1_048_576,
        },
        preset: Preset::NoNumber,
    },
    // `distribution`
    Row {
        form: Form::Choice(Choice::Distribution),
        preset: Preset::Text("bottom"),
    },
    // `files`
    Row {
        form: Form::Number {
            least: 1,
            greatest: 1_048_576,
        },
        preset: Preset::NoNumber,
    },
    // `journal`
    Row {
        form: Form::Path,
        preset: Preset::NoText,
    },
    // `keyblock`
    Row {
        form: Form::BlockSize,
        preset: Preset::NoNumber,
    },
    // `openflags`
    Row {
        form: Form::Words,
        preset: Preset::NoText,
    },
    // `shared`
    Row {
        form: Form::Choice(Choice::No),
        preset: Preset::Text("no"),
    },
    // `sizes`
    Row {
        form: Form::Sizes,
        preset: Preset::NoNumber,
    },
    // `width`
    Row {
        form: Form::Number {
            least: 1,
            greatest: 1_048_576,
        },
        preset: Preset::NoNumber,
    },
];

const FWD_ROWS: &[Row] = &[
    // `fileio`
    Row {
        form: Form::Choice(Choice::Access),
        preset: Preset::Text("sequential"),
    },
    // `fileselect`
    Row {
        form: Form::Choice(Choice::Access),
        preset: Preset::Text("sequential"),
    },
    // `fsd`
    Row {
        form: Form::StorePatterns,
        preset: Preset::NoText,
    },
    // `host`
    Row {
        form: Form::Patterns,
        preset: Preset::Text("*"),
    },
    // `operation`
    Row {
        form: Form::Choice(Choice::Operation),
        preset: Preset::Text("read"),
    },
    // `rdpct`
    Row {
        form: Form::Number {
            least: 0,
            greatest: 100,
        },
        preset: Preset::NoNumber,
    },
    // `skew`
    Row {
        form: Form::Number {
            least: 1,
            greatest: 100,
        },
        preset: Preset::NoNumber,
    },
    // `threads`
    Row {
        form: Form::Number {
            least: 1,
            greatest: 256,
        },
        preset: Preset::Number(1),
    },
    // `xfersize`
    Row {
        form: Form::BlockSize,
        preset: Preset::Number(4096),
    },
];

#[tactic(auto, unfolding(crate::specs::Rows::rows_of))]
fn rows(kind: Kind) -> &'static [Row]
    ensures forms { map (λ row. row.form) result.now ≡ forms_of kind }
    ensures defaults { map (λ row. preset_value row.preset) result.now ≡ defaults_of kind }
{
    match kind {
        Kind::General => GENERAL_ROWS,
        Kind::Hd => HD_ROWS,
        Kind::Sd => SD_ROWS,
        Kind::Wd => WD_ROWS,
        Kind::Rd => RD_ROWS,
        Kind::Fsd => FSD_ROWS,
        Kind::Fwd => FWD_ROWS,
    }
}

#[tactic(auto, unfolding(crate::specs::Rows::rows_of, crate::specs::Rows::words_of))]
/// The row of a keyword in the table of its kind, from 0.
pub fn row_at(kind: Kind, word: &[u8]) -> Option<usize>
    ensures exact { result ≡ row_number kind word.now }
    ensures within { IfSome result (λ row. row < length (forms_of kind)) }
{
    match kind {
        Kind::General => parm_keys::general_row(word),
        Kind::Hd => parm_keys::hd_row(word),
        Kind::Sd => parm_keys::sd_row(word),
        Kind::Wd => parm_keys::wd_row(word),
        Kind::Rd => parm_keys::rd_row(word),
        Kind::Fsd => parm_keys::fsd_row(word),
        Kind::Fwd => parm_keys::fwd_row(word),
    }
}

/// The form of a row.
pub fn form_at(kind: Kind, row: usize) -> Option<Form>
    ensures { result ≡ slice_get (forms_of kind) row }
{
    let row = rows(kind).get(row)?;
    Some(row.form)
}

/// What a definition of a kind has where nothing is given.
pub fn defaults(alloc: Global, kind: Kind) -> Result<Vec<Value>, NoMemory>
    ensures { IfOk result (λ values. values.items ≡ defaults_of kind) }
{
    let table = rows(kind);
    let mut values = Vec::new(alloc);
    for row in table {
        let value = row.preset.value(alloc)?;
        if values.push(value).is_err() {
            return Err(NoMemory);
        }
    }
    Ok(values)
}

/// This text alone.
fn one_text(alloc: Global, text: Text) -> Result<Vec<Text>, AllocError>
    ensures { IfOk result (λ texts. texts.items ≡ text ∷ []) }
{
    Ok(vec![in alloc; text]?)
}

impl Preset {
    ghost use Rattle.std.specs.Prelude.{◌≡◌, IfOk};
    ghost use Rattle.parm_forms.specs.Presets.{preset_value};

    /// The value that it stands for.
    fn value(&self, alloc: Global) -> Result<Value, NoMemory>
        ensures { IfOk result (λ value. value ≡ preset_value self.now) }
    {
        match self {
            Preset::NoNumber => Ok(Value::Numbers(Items::of(Vec::new(alloc)))),
            Preset::NoText => Ok(Value::Texts(Items::of(Vec::new(alloc)))),
            Preset::Number(number) => {
                let numbers = Vec::from_slice(alloc, &[*number])?;
                Ok(Value::Numbers(Items::of(numbers)))
            }
            Preset::Text(word) => {
                let texts = one_text(alloc, Text::from_str(alloc, word)?)?;
                Ok(Value::Texts(Items::of(texts)))
            }
        }
    }
}
