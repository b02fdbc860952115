// Why a parameter file is refused, in words.
ghost use Rattle.std.specs.Prelude.{◌≡◌};
ghost use Rattle.plan_file.specs.Words.{defs_word as word_of_defs, lex_word as word_of_lex, plan_word as word_of_plan};

use parm_forms::ParmKind;
use parm_lex::LexWhy;
use run_plan::PlanKind;

/// What is printed of a fault of a line.
pub fn lex_word(why: LexWhy) -> &'static str
    ensures { result.now ≡ word_of_lex why }
{
    match why {
        LexWhy::FileTooLong => "file too long",
        LexWhy::LineTooLong => "line too long",
        LexWhy::EmptyPart => "empty part",
        LexWhy::MissingEquals => "missing equals",
        LexWhy::EmptyValue => "empty value",
        LexWhy::UnclosedQuote => "unclosed quote",
        LexWhy::UnclosedParen => "unclosed list",
        LexWhy::AfterValue => "unexpected text",
        LexWhy::BadByte => "bad byte",
        LexWhy::OpenEnd => "open end",
    }
}

/// What is printed of a fault of a definition.
pub fn defs_word(kind: ParmKind) -> &'static str
    ensures { result.now ≡ word_of_defs kind }
{
    match kind {
        ParmKind::UnknownKeyword => "unknown keyword",
        ParmKind::RepeatedKeyword => "repeated keyword",
        ParmKind::ValueCount => "wrong number of values",
        ParmKind::BadNumber => "bad number",
        ParmKind::OutOfRange => "out of range",
        ParmKind::BadChoice => "bad choice",
        ParmKind::BadName => "bad name",
        ParmKind::BothKinds => "both kinds of storage",
        ParmKind::NameTaken => "name taken",
        ParmKind::RemoteHost => "remote host",
        ParmKind::TooMany => "too many definitions",
    }
}

/// What is printed of a fault of the plan.
pub fn plan_word(kind: PlanKind) -> &'static str
    ensures { result.now ≡ word_of_plan kind }
{
    match kind {
        PlanKind::NoRuns => "no runs",
        PlanKind::PathMissing => "no path",
        PlanKind::SizeMissing => "no size",
        PlanKind::BadTree => "bad tree",
        PlanKind::PathTaken => "path taken",
        PlanKind::NothingSelected => "nothing is selected",
        PlanKind::WrongKind => "format without a file system",
        PlanKind::SkewSum => "bad skew",
        PlanKind::IntervalsMany => "too many intervals",
        PlanKind::WorkersMany => "too many workers",
        PlanKind::RunsMany => "too many runs",
        PlanKind::TransferNotMultiple => "transfer not a multiple",
        PlanKind::SizeSmall => "size too small",
        PlanKind::BlocksMany => "too many blocks",
        PlanKind::TreeNotBuilt => "tree not built",
    }
}
