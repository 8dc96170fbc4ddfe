use partial_program::NodeId;
use state_pool::Slot;

/// A program that waits: its node in the chain of programs, and the slots of its runs in the pool, one on each instance, in order.
#[derive(Drop)]
pub(crate) struct Kept {
    pub(crate) node: NodeId,
    pub(crate) slots: Vec<Slot>,
}
