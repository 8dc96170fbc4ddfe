ghost use Rattle.std.specs.Prelude.{◌≡◌, ◌≤◌, [], ◌∷◌, length};
ghost use Rattle.evaluations.specs.declared.evaluation.Evaluation.TheVariants.{Jumps, MissingAtoms};
ghost use Rattle.evaluations.specs.Orders.{IsReadOrder};

use crate::{Evaluation, MAX_ENTRIES, OrderRefusal};
use arrayvec::ArrayVec;
use std::marker::Model;

/// What waiting nodes are compared by: different evaluations, the first one first. Contracts see their list. It takes no memory.
#[derive(Debug, Drop)]
pub struct Order {
    evaluations: ArrayVec<Evaluation, MAX_ENTRIES>,
}

impl Model for Order {
    ghost use Rattle.std.specs.Prelude.{List};
    ghost use Rattle.evaluations.specs.declared.evaluation.Evaluation.{Evaluation};
    ghost use Rattle.evaluations.specs.Orders.{IsOrder};

    ghost Value = { List Evaluation };

    ghost view = { λ order. order.evaluations.items };

    ghost invariant = { λ order. IsOrder order.evaluations.items };
}

impl Order {
    /// The order that is taken where none is told: `e5,e1`.
    pub fn usual() -> Order
        ensures { result ≡ MissingAtoms ∷ Jumps ∷ [] }
    {
        let mut evaluations = ArrayVec::new();
        evaluations
            .try_extend_from_slice(&[Evaluation::MissingAtoms, Evaluation::Jumps])
            .unwrap();
        Order { evaluations }
    }

    /// The order that a text is the names of, with a comma between each two. A refusal tells the place of the first entry that is no
    /// name or was there before, which is at most 6. It takes no memory.
    pub fn read(text: &str) -> Result<Order, OrderRefusal>
        ensures { IsReadOrder text.now result }
    {
        if text.is_empty() {
            return Err(OrderRefusal::Empty);
        }
        let mut evaluations = ArrayVec::new();
        for name in text.as_bytes().split(|byte| *byte == b',') {
            let place = evaluations.len() as u8;
            let Some(evaluation) = Evaluation::named(name) else {
                return Err(OrderRefusal::Name(place));
            };
            if evaluations.as_slice().contains(&evaluation) {
                return Err(OrderRefusal::Repeated(place));
            }
            evaluations.push(evaluation);
        }
        Ok(Order { evaluations })
    }

    /// The evaluations, the first one first.
    pub fn evaluations(&self) -> &[Evaluation]
        ensures value { result.now ≡ self.now }
        ensures few { length result.now ≤ MAX_ENTRIES }
    {
        self.evaluations.as_slice()
    }
}
