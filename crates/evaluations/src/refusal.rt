use thiserror::Error;

/// Why a text is no order.
#[derive(Clone, Copy, Debug, PartialEq, Eq, Drop, Error)]
pub enum OrderRefusal {
    /// It is empty.
    #[error("the order is empty")]
    Empty,
    /// The entry at this place, from 0, is not the name of an evaluation.
    #[error("entry {0} of the order is no evaluation")]
    Name(u8),
    /// The entry at this place, from 0, stands before it too.
    #[error("entry {0} of the order is repeated")]
    Repeated(u8),
}
