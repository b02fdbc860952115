// Keywords whose value is one of a few words.

/// The words that may stand there.
#[derive(Clone, Copy, Debug, PartialEq, Eq, Drop)]
pub enum Choice {
    /// `no`.
    No,
    /// `yes` or `no`.
    YesNo,
    /// `yes`, `no_preread` or `read_after_write`.
    Validate,
    /// `no`, `yes` or `only`.
    Format,
    /// `bottom` or `all`.
    Distribution,
    /// `read` or `write`.
    Operation,
    /// `random` or `sequential`.
    Access,
}
