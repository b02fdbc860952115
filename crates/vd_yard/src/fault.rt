// Why a call of a yard answers no.

/// A call of a yard failed, or memory ran out in it.
#[derive(Clone, Copy, Debug, PartialEq, Eq, Drop)]
pub enum YardFault {
    Failed,
    NoMemory,
}
