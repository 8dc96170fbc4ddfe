/// A node of a heap: a pair, the rank of the heap that it is the root of, and the places of its children in the slab.
#[derive(Drop)]
pub(crate) struct Node<K> {
    pub(crate) key: K,
    pub(crate) number: u32,
    pub(crate) rank: usize,
    pub(crate) left: Option<usize>,
    pub(crate) right: Option<usize>,
}
