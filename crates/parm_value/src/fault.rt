// Why an item has no value.

/// What is wrong with an item.
#[derive(Clone, Copy, Debug, PartialEq, Eq, Drop)]
pub enum ValueFault {
    /// It isn't spelled as wanted.
    BadNumber,
    /// It is spelled as wanted, and outside the range.
    OutOfRange,
}
