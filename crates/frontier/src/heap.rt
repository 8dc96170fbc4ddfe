ghost use Rattle.std.specs.Prelude.{◌≡◌, ◌+◌, ◌<◌, ◌^◌, ℕ, Some, if◌then◌else◌};
ghost use Rattle.std.specs.Option.{ForSome};
ghost use Rattle.slab.specs.Slab.{get, ContainsKey, with_value};
ghost use Rattle.flag_rules.specs.Counts.{counted};
ghost use Rattle.frontier.specs.Inner.Tree.{Tree};
ghost use Rattle.frontier.specs.Inner.Nodes.{rank_at, with_right, is_ahead, pair_slots, CanMerge, Merges, Apart};

use crate::node::Node;
use evaluations::Ranking;
use slab::Slab;

/// The rank of the heap with this root; a missing heap has rank 0.
fn rank_of<K>(nodes: &Slab<Node<K>>, root: Option<usize>) -> usize
    requires { ForSome root (λ place. ContainsKey nodes.now place) }
    ensures { result ≡ rank_at nodes.now.slots root }
{
    match root {
        Some(place) => nodes[place].rank,
        None => 0,
    }
}

/// Puts a heap in the place of a node's right child, and then the child of the lesser rank to the right.
fn hang<K>(nodes: &mut Slab<Node<K>>, top: usize, heap: Option<usize>)
    requires top { (node : Node K) × (get nodes.old top ≡ Some node) × ForSome node.left (λ place. ContainsKey nodes.old place) }
    requires heap { ForSome heap (λ place. ContainsKey nodes.old place) }
    requires fits { rank_at nodes.old.slots heap + 1 < 2 ^ 64 }
    ensures { (node : Node K) → get nodes.old top ≡ Some node → nodes.new ≡ with_value nodes.old top (with_right nodes.old.slots node heap) }
{
    let left = nodes[top].left;
    let left_rank = rank_of(nodes, left);
    let rank = rank_of(nodes, heap);
    let node = &mut nodes[top];
    if left_rank < rank {
        node.left = heap;
        node.right = left;
        node.rank = left_rank + 1;
    } else {
        node.right = heap;
        node.rank = rank + 1;
    }
}

/// Two nodes, the one first whose pair comes before the other's.
fn in_order<R: Ranking>(
    nodes: &Slab<Node<R::Key>>,
    one: usize,
    other: usize,
    tally: &mut R::Tally,
) -> (usize, usize)
    requires one { ContainsKey nodes.now one }
    requires other { ContainsKey nodes.now other }
    ensures compared { R.compared tally.new ≡ counted (R.compared tally.old) }
    ensures order { (a b : Node R.Key) → get nodes.now one ≡ Some a → get nodes.now other ≡ Some b →
        result ≡ (if is_ahead R.comes_before a b then (one, other) else (other, one)) }
{
    let (first, second) = (&nodes[one], &nodes[other]);
    if R::before(&first.key, first.number, &second.key, second.number, tally) {
        (one, other)
    } else {
        (other, one)
    }
}

/// Merges two heaps that stand apart, with at most one comparison for each node of their right spines.
pub(crate) fn merge<R: Ranking>(
    nodes: &mut Slab<Node<R::Key>>,
    one: Option<usize>,
    other: Option<usize>,
    tally: &mut R::Tally,
) -> Option<usize>
    requires { CanMerge R.comes_before nodes.old.slots one other }
    ensures merged { (first second : Tree R.Key) → Apart R.comes_before nodes.old.slots one other first second →
        Merges R.comes_before nodes.old.slots nodes.new.slots first second result (R.compared tally.old) (R.compared tally.new) }
    ensures pairs { pair_slots nodes.new.slots ≡ pair_slots nodes.old.slots }
    ensures capacity { nodes.new.capacity ≡ nodes.old.capacity }
{
    match (one, other) {
        (None, _) => other,
        (_, None) => one,
        (Some(first), Some(second)) => {
            let (top, below) = in_order::<R>(nodes, first, second, tally);
            let right = nodes[top].right;
            let merged = merge::<R>(nodes, right, Some(below), tally);
            hang(nodes, top, merged);
            Some(top)
        }
    }
}
