// How the value of a keyword is spelled.
use crate::choice::Choice;

/// The form of a keyword's value. Where it says one, one item stands there, with or without parentheses; else one or more.
#[derive(Clone, Copy, Debug, PartialEq, Eq, Drop)]
pub enum Form {
    /// One number of a range.
    Number { least: u64, greatest: u64 },
    /// Numbers of a range.
    Numbers { least: u64, greatest: u64 },
    /// One size, 1 to 2^63 - 1.
    Size,
    /// One size, or an even number of items: sizes and percentages in turn.
    Sizes,
    /// One multiple of 512 up to 1,048,576.
    BlockSize,
    /// Such sizes.
    BlockSizes,
    /// Seconds, 1 to 8,640,000.
    Seconds,
    /// A number from 1 to 10,000,000, or `max`, which is 0.
    Rate,
    /// A percentage, or `random` or `rand` for 100, or `sequential` or `seq` for 0.
    SeekPercent,
    /// A path of 1 to 1,024 bytes.
    Path,
    /// One item of any text.
    Word,
    /// Items of any text.
    Words,
    /// One of a few words.
    Choice(Choice),
    /// Some of a few words.
    Choices(Choice),
    /// Names of stores, or prefixes of such, also empty ones, with a star behind them.
    StorePatterns,
    /// The same of other names.
    Patterns,
    /// Two numbers: the first, 0 to 100,000, and how many, 1 to 64.
    Count,
}
