ghost use Rattle.std.specs.Prelude.{◌≡◌, ◌≢◌, ◌+◌, ◌<◌, ◌≤◌, ◌↔◌, true, [], ◌∷◌, length, All, IsPermutation, IsTrue, IsNone, IfNone, IfSome, IsOk, OnOk};
ghost use Rattle.frontier.specs.Pairs.{RoseWithin};

use crate::heap::merge;
use crate::node::Node;
use evaluations::Ranking;
use flag_rules::OutOfMemory;
use slab::Slab;
use std::alloc::Global;
use std::marker::Model;

/// Pairs of a key and a number, with different numbers. Contracts see the pairs as a list whose order says nothing, and
/// how many more may be pushed before memory is needed.
#[derive(Drop)]
pub struct Frontier<R: Ranking> {
    nodes: Slab<Node<R::Key>>,
    root: Option<usize>,
}

impl<R: Ranking> Model for Frontier<R> {
    ghost use Rattle.std.specs.Prelude.{◌-◌};
    ghost use Rattle.slab.specs.Slab.{slab_len};
    ghost use Rattle.frontier.specs.Pairs.{Pairs};

    ghost Value = { Pairs R.Key };

    ghost use Rattle.frontier.specs.Inner.Nodes.{pairs_of, IsHeap};

    ghost view = { λ f. record { pairs = pairs_of f.nodes.slots; spare = f.nodes.capacity - slab_len f.nodes } };

    ghost invariant = { λ f. IsHeap R.comes_before f.nodes f.root };
}

impl<R: Ranking> Frontier<R> {
    /// A frontier without pairs, which takes its memory from `alloc` where it is reserved.
    pub fn new(alloc: Global) -> Frontier<R>
        ensures { result.pairs ≡ [] }
    {
        Frontier {
            nodes: Slab::new(alloc),
            root: None,
        }
    }

    /// Makes room for at least so many pushes.
    pub fn reserve(&mut self, n: usize) -> Result<(), OutOfMemory>
        ensures room { OnOk result (n ≤ self.new.spare) }
        ensures spare { self.old.spare ≤ self.new.spare }
        ensures pairs { self.new.pairs ≡ self.old.pairs }
    {
        self.nodes.reserve(n)?;
        Ok(())
    }

    /// How many pairs there are.
    pub fn len(&self) -> usize
        ensures { result ≡ length self.now.pairs }
    {
        self.nodes.len()
    }

    /// Whether there is no pair.
    pub fn is_empty(&self) -> bool
        ensures { IsTrue result ↔ (self.now.pairs ≡ []) }
    {
        self.nodes.is_empty()
    }

    /// Adds a pair. It takes no memory.
    pub fn push(&mut self, key: R::Key, number: u32, tally: &mut R::Tally)
        requires spare { 0 < self.old.spare }
        requires differs { All (λ pair. pair.1 ≢ number) self.old.pairs }
        ensures pairs { IsPermutation ((key, number) ∷ self.old.pairs) self.new.pairs }
        ensures spare { self.new.spare + 1 ≡ self.old.spare }
        ensures compared { RoseWithin (length self.old.pairs) (R.compared tally.old) (R.compared tally.new) }
    {
        // So the ranks fit.
        prove!(self.nodes.len() < self.nodes.capacity());
        let place = self.nodes.insert_reserved(Node {
            key,
            number,
            rank: 1,
            left: None,
            right: None,
        });
        self.root = merge::<R>(&mut self.nodes, self.root, Some(place), tally);
    }

    /// Takes out the pair that comes before all others, or nothing where there is none. It takes no memory.
    pub fn pop_least(&mut self, tally: &mut R::Tally) -> Option<(R::Key, u32)>
        ensures none { IsNone result ↔ (self.old.pairs ≡ []) }
        ensures unchanged { IfNone result (self.new.pairs ≡ self.old.pairs) }
        ensures pairs { IfSome result (λ pair. IsPermutation (pair ∷ self.new.pairs) self.old.pairs) }
        ensures least { IfSome result (λ pair. All (λ other. R.comes_before pair.0 pair.1 other.0 other.1 ≡ true) self.new.pairs) }
        ensures spare { self.old.spare ≤ self.new.spare }
        ensures compared { RoseWithin (length self.old.pairs) (R.compared tally.old) (R.compared tally.new) }
    {
        let Some(root) = self.root else {
            return None;
        };
        let node = self.nodes.remove(root);
        self.root = merge::<R>(&mut self.nodes, node.left, node.right, tally);
        Some((node.key, node.number))
    }
}
