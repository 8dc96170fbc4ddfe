ghost use Rattle.std.specs.Prelude.{◌≡◌, ◌≤◌, All, length};
ghost use Rattle.evaluations.specs.Evaluations.{key};

use crate::{Key, Order, Standing};
use program_model::{MAX_INSTANCES, MAX_RUN, Partial};

/// The key of a partial program, where its runs stand so, one on each instance: the values of the order's evaluations, the first
/// one first. It takes no memory.
pub fn key(order: &Order, partial: &Partial, standings: &[Standing]) -> Key
    requires few { length standings.now ≤ MAX_INSTANCES }
    requires short { All (λ standing. standing.steps ≤ MAX_RUN) standings.now }
    ensures { result ≡ key order.now partial.now standings.now }
{
    let mut key = Key::empty();
    for evaluation in order.evaluations() {
        key.push(evaluation.value(partial, standings));
    }
    key
}
