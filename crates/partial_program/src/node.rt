use program_model::Instr;

/// What a node has beyond its parent, which is named by its place in the slab: an instruction on one line more.
#[derive(Clone, Copy)]
pub(crate) struct Link {
    pub(crate) parent: usize,
    pub(crate) line: u8,
    pub(crate) instr: Instr,
}

/// A node of a chain: its link, which the root alone has not, whether it is held, and how many children it has.
#[derive(Drop)]
pub(crate) struct Node {
    pub(crate) link: Option<Link>,
    pub(crate) is_held: bool,
    pub(crate) children: usize,
}
