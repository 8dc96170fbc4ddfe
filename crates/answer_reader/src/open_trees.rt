ghost use Rattle.std.specs.Prelude.{◌≡◌, ◌↔◌, IsTrue, ◌∷◌, ◌++◌, [], ◌+◌, ◌<◌, ◌≤◌, length, Some, slice_get, IfSome, IfNone, OnOk};
ghost use Rattle.refutation_tree.specs.Grammar.{child_programs};

use flag_rules::OutOfMemory;
use program_model::{MAX_OPS, Partial, alphabet_len, instr_at};
use std::alloc::Global;
use std::marker::Model;

/// The children of a partial program that was split at a line, from a rank on.
#[derive(Debug, Drop)]
struct Family {
    parent: Partial,
    line: u8,
    rank: u32,
}

impl Family {
    // Whether no child is left.
    fn is_done(&self, ops: u32) -> bool
        requires ops { ops ≤ MAX_OPS }
        requires inner { self.now.line + 1 < length self.now.parent }
        ensures { IsTrue result ↔ (length (child_programs ops self.now.parent self.now.line) ≤ self.now.rank) }
    {
        self.rank >= alphabet_len(ops, self.parent.lines(), self.line)
    }

    // The child of the rank, and on to the next.
    fn take_child(&mut self, ops: u32) -> Partial
        requires ops { ops ≤ MAX_OPS }
        requires inner { self.old.line + 1 < length self.old.parent }
        requires left { self.old.rank < length (child_programs ops self.old.parent self.old.line) }
        ensures child { slice_get (child_programs ops self.old.parent self.old.line) self.old.rank ≡ Some result }
        ensures parent { self.new.parent ≡ self.old.parent }
        ensures line { self.new.line ≡ self.old.line }
        ensures rank { self.new.rank ≡ self.old.rank + 1 }
    {
        let instr = instr_at(ops, self.parent.lines(), self.line, self.rank);
        let mut child = self.parent.copy();
        child.define(self.line, instr);
        self.rank += 1;
        child
    }
}

/// The partial programs that have no tree yet, while the marks of a tree are read: those of the families that were split.
#[derive(Debug, Drop)]
pub(crate) struct OpenTrees {
    ops: u32,
    families: Vec<Family>,
}

impl Model for OpenTrees {
    ghost use Rattle.std.specs.Prelude.{◌<◌, ◌≤◌, All};
    ghost use Rattle.program_model.specs.declared.alphabet.TheConstants.{MAX_OPS};
    ghost use Rattle.answer_reader.specs.Inner.Pending.{Pending, waiting_in, IsOpenFamily};

    ghost Value = { Pending };

    ghost view = { λ trees. record { ops = trees.ops; programs = waiting_in trees.ops trees.families.items } };

    ghost invariant = { λ trees. (0 < trees.ops) × (trees.ops ≤ MAX_OPS) × All (IsOpenFamily trees.ops) trees.families.items };
}

impl OpenTrees {
    /// Nothing is split.
    pub(crate) fn new(alloc: Global, ops: u32) -> OpenTrees
        requires some { 0 < ops }
        requires few { ops ≤ MAX_OPS }
        ensures ops { result.ops ≡ ops }
        ensures programs { result.programs ≡ [] }
    {
        OpenTrees {
            ops,
            families: Vec::new(alloc),
        }
    }

    /// The children of a partial program come next.
    pub(crate) fn split(&mut self, parent: Partial, line: u8) -> Result<(), OutOfMemory>
        requires { line + 1 < length parent }
        ensures ops { self.new.ops ≡ self.old.ops }
        ensures ok { OnOk result (self.new.programs ≡ child_programs self.old.ops parent line ++ self.old.programs) }
    {
        self.families.push(Family {
            parent,
            line,
            rank: 0,
        })?;
        Ok(())
    }

    /// The next program is taken out, if there is one.
    pub(crate) fn take_next(&mut self) -> Option<Partial>
        ensures ops { self.new.ops ≡ self.old.ops }
        ensures some { IfSome result (λ program. self.old.programs ≡ program ∷ self.new.programs) }
        ensures none { IfNone result ((self.old.programs ≡ []) × (self.new.programs ≡ [])) }
    {
        if self.families.is_empty() {
            return None;
        }
        let last = self.families.len() - 1;
        let family = &mut self.families[last];
        let child = family.take_child(self.ops);
        if family.is_done(self.ops) {
            self.families.pop();
        }
        Some(child)
    }
}
