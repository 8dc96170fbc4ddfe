ghost use Rattle.std.specs.Prelude.{◌≡◌, ◌≢◌, ℕ, ◌+◌, ◌<◌, ◌≤◌, None, Some, IfOk, OnOk, IfSome, IsSomeAnd, IsSome, true};
ghost use Rattle.program_model.specs.declared.alphabet.TheConstants.{MAX_LINES};
ghost use Rattle.program_model.specs.Program.{IsOpen};
ghost use Rattle.partial_program.specs.Chain.{node_at, node_count, IsHeld, Becomes, root_of, child_of, given_up, IsPruned, IsTree};

use crate::idle::free_idle;
use crate::node::{Link, Node};
use flag_rules::OutOfMemory;
use program_model::{Instr, Partial};
use slab::Slab;
use std::alloc::Global;
use std::marker::Model;

/// The number of a node of a chain. After the node was freed another may get it.
#[derive(Clone, Copy, Debug, PartialEq, Eq)]
pub struct NodeId {
    place: usize,
}

impl Model for NodeId {
    ghost use Rattle.std.specs.Prelude.{ℕ};

    ghost Value = { ℕ };

    ghost view = { λ id. id.place };

    ghost inverse = { λ place. record { place = place } };
}

/// Partial programs of as many lines each, as nodes that are linked to their parents. A node is live until it has neither a hold
/// nor a child. Contracts see the program, the parent and the hold of each live node, and how many more children may be made
/// before memory is needed.
#[derive(Drop)]
pub struct Chain {
    nodes: Slab<Node>,
    root: NodeId,
    lines: u8,
}

impl Model for Chain {
    ghost use Rattle.std.specs.Prelude.{◌-◌};
    ghost use Rattle.slab.specs.Slab.{slab_len};
    ghost use Rattle.partial_program.specs.Chain.{Nodes};

    ghost Value = { Nodes };

    ghost use Rattle.partial_program.specs.Inner.Nodes.{live_nodes, IsChain};

    ghost view = { λ chain. record { nodes = live_nodes chain.lines chain.nodes.slots; root = chain.root; spare = chain.nodes.capacity - slab_len chain.nodes } };

    ghost invariant = { λ chain. IsChain chain.lines chain.root chain.nodes.slots };
}

impl Chain {
    /// The root alone, which is held, with the program that has `end` on its last line and nothing on the others.
    pub fn new(alloc: Global, lines: u8) -> Result<Chain, OutOfMemory>
        requires some { 0 < lines }
        requires few { lines ≤ MAX_LINES }
        ensures root { IfOk result (λ chain. node_at chain.nodes chain.root ≡ Some (root_of lines)) }
        ensures alone { IfOk result (λ chain. (other : ℕ) → other ≢ chain.root → node_at chain.nodes other ≡ None) }
    {
        let mut nodes = Slab::with_capacity(alloc, 1)?;
        let place = nodes.insert_reserved(Node {
            link: None,
            is_held: true,
            children: 0,
        });
        Ok(Chain {
            nodes,
            root: NodeId { place },
            lines,
        })
    }

    /// The root, which has no parent. It is live until its hold was given up and its last child freed.
    pub fn root(&self) -> NodeId
        ensures root { result ≡ self.now.root }
        ensures tree { IsTree self.now }
    {
        self.root
    }

    /// How many nodes are live.
    pub fn count(&self) -> usize
        ensures { result ≡ node_count self.now.nodes }
    {
        self.nodes.len()
    }

    /// Makes room for at least so many children.
    pub fn reserve(&mut self, children: usize) -> Result<(), OutOfMemory>
        ensures room { OnOk result (children ≤ self.new.spare) }
        ensures spare { self.old.spare ≤ self.new.spare }
        ensures nodes { self.new.nodes ≡ self.old.nodes }
        ensures root { self.new.root ≡ self.old.root }
    {
        self.nodes.reserve(children)?;
        Ok(())
    }

    /// A new child, with its parent's program and an instruction on a line that is undefined there. Who makes it holds it. It
    /// takes no memory.
    pub fn child(&mut self, parent: NodeId, line: u8, instr: Instr) -> NodeId
        requires spare { 0 < self.old.spare }
        requires open { IsSomeAnd (node_at self.old.nodes parent) (λ node. IsOpen node.program line) }
        ensures fresh { node_at self.old.nodes result ≡ None }
        ensures nodes { IfSome (node_at self.old.nodes parent) (λ node.
            Becomes self.old.nodes self.new.nodes result (child_of parent node line instr)) }
        ensures root { self.new.root ≡ self.old.root }
        ensures spare { self.new.spare + 1 ≡ self.old.spare }
    {
        // So the number of children fits.
        prove!(self.nodes.len() < self.nodes.capacity());
        self.nodes[parent.place].children += 1;
        let link = Link {
            parent: parent.place,
            line,
            instr,
        };
        let place = self.nodes.insert_reserved(Node {
            link: Some(link),
            is_held: true,
            children: 0,
        });
        NodeId { place }
    }

    /// Gives up the hold of a node. A node without hold and without children is freed, and then its parent by the same rule.
    pub fn release(&mut self, id: NodeId)
        requires { IsHeld self.old.nodes id }
        ensures nodes { IsPruned (given_up self.old.nodes id) self.new.nodes }
        ensures root { self.new.root ≡ self.old.root }
        ensures spare { self.old.spare ≤ self.new.spare }
    {
        self.nodes[id.place].is_held = false;
        free_idle(&mut self.nodes, id.place);
    }

    /// Makes a partial program, of any number of lines, that of a node. It takes no memory.
    pub fn write_into(&self, id: NodeId, to: &mut Partial)
        requires { IsSome (node_at self.now.nodes id) }
        ensures { IfSome (node_at self.now.nodes id) (λ node. to.new ≡ node.program) }
    {
        match self.nodes[id.place].link {
            None => *to = Partial::empty(self.lines),
            Some(link) => {
                let parent = NodeId { place: link.parent };
                self.write_into(parent, to);
                to.define(link.line, link.instr);
            }
        }
    }
}
