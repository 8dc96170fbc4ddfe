ghost use Rattle.std.specs.Prelude.{◌≡◌, ◌<◌, ◌≤◌, Some, None, OnSome};
ghost use Rattle.slab.specs.Slab.{slab_len};
ghost use Rattle.partial_program.specs.Inner.Nodes.{IsTied, IsSettledBut, IsLeftOf};

use crate::node::Node;
use slab::Slab;

/// Frees a node if it has neither a hold nor a child, and then gives the place of its parent, where it had one.
fn free_if_idle(nodes: &mut Slab<Node>, place: usize) -> Option<usize>
    requires tied { IsTied nodes.old.slots }
    requires settled { IsSettledBut nodes.old.slots (Some place) }
    ensures tied { IsTied nodes.new.slots }
    ensures settled { IsSettledBut nodes.new.slots result }
    ensures left { IsLeftOf nodes.old.slots nodes.new.slots }
    ensures len { slab_len nodes.new ≤ slab_len nodes.old }
    ensures fewer { OnSome result (slab_len nodes.new < slab_len nodes.old) }
    ensures capacity { nodes.new.capacity ≡ nodes.old.capacity }
{
    let node = &nodes[place];
    if node.is_held || node.children > 0 {
        return None;
    }
    let link = nodes.remove(place).link?;
    nodes[link.parent].children -= 1;
    Some(link.parent)
}

/// Frees a node if it has neither a hold nor a child, and then its parent by the same rule, and so on.
pub(crate) fn free_idle(nodes: &mut Slab<Node>, place: usize)
    requires tied { IsTied nodes.old.slots }
    requires settled { IsSettledBut nodes.old.slots (Some place) }
    ensures tied { IsTied nodes.new.slots }
    ensures settled { IsSettledBut nodes.new.slots None }
    ensures left { IsLeftOf nodes.old.slots nodes.new.slots }
    ensures len { slab_len nodes.new ≤ slab_len nodes.old }
    ensures capacity { nodes.new.capacity ≡ nodes.old.capacity }
{
    let mut next = Some(place);
    while let Some(place) = next {
        next = free_if_idle(nodes, place);
    }
}
