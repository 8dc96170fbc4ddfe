ghost use Rattle.std.specs.Prelude.{◌≡◌, ◌≢◌, ℕ, ◌<◌, ◌≤◌, List, Some, decimal, IfSome, IfNone};
ghost use Rattle.program_model.specs.declared.standing.TheConstants.{MAX_RUN};
ghost use Rattle.evaluations.specs.declared.evaluation.Evaluation.{Evaluation};
ghost use Rattle.evaluations.specs.Orders.{IsOrder, order_text};
ghost use Rattle.search_bounds.specs.declared.bounds.TheConstants.{MAX_BUDGET};
ghost use Rattle.command_words.specs.declared.job.TheConstants.{LEAST_BUDGET, LEAST_RUN, USUAL_BUDGET, USUAL_RUN};
ghost use Rattle.command_words.specs.Words.{usual_order};
ghost use Rattle.command_words.specs.Inner.Values.{IsTextOrUsual};

use crate::job::{LEAST_BUDGET, LEAST_RUN, USUAL_BUDGET, USUAL_RUN};
use crate::number::number_of;
use evaluations::Order;
use flag_rules::Text;
use program_model::MAX_RUN;
use search_bounds::MAX_BUDGET;

/// The count from 1 to `most` that the value of an option is. Where the option is not used, there is none.
pub(crate) fn count_in(value: &Option<Text>, most: u8) -> Option<u8>
    ensures some { IfSome result (λ count. (0 < count) × (count ≤ most) × (value.now ≡ Some (decimal count))) }
    ensures none { IfNone result ((count : ℕ) → 0 < count → count ≤ most → value.now ≢ Some (decimal count)) }
{
    let value = value.as_ref()?;
    let count = number_of(value.as_slice(), 1, u64::from(most))?;
    Some(count as u8)
}

// The number within limits that the value of an option is, or the usual one, where the option is not used.
fn number_in(value: &Option<Text>, usual: u64, least: u64, most: u64) -> Option<u64>
    requires least { least ≤ usual }
    requires most { usual ≤ most }
    ensures limits { IfSome result (λ number. (least ≤ number) × (number ≤ most)) }
    ensures some { IfSome result (λ number. IsTextOrUsual decimal usual number value.now) }
    ensures none { IfNone result ((number : ℕ) → least ≤ number → number ≤ most → IsTextOrUsual decimal usual number value.now → ⊥) }
{
    match value {
        Some(value) => number_of(value.as_slice(), least, most),
        None => Some(usual),
    }
}

/// The budget of splits that the value of an option is, or the usual one, where the option is not used.
pub(crate) fn budget_in(value: &Option<Text>) -> Option<u32>
    ensures limits { IfSome result (λ budget. (LEAST_BUDGET ≤ budget) × (budget ≤ MAX_BUDGET)) }
    ensures some { IfSome result (λ budget. IsTextOrUsual decimal USUAL_BUDGET budget value.now) }
    ensures none { IfNone result ((budget : ℕ) → LEAST_BUDGET ≤ budget → budget ≤ MAX_BUDGET → IsTextOrUsual decimal USUAL_BUDGET budget value.now → ⊥) }
{
    let budget = number_in(
        value,
        u64::from(USUAL_BUDGET),
        u64::from(LEAST_BUDGET),
        u64::from(MAX_BUDGET),
    )?;
    Some(budget as u32)
}

/// The limit of steps that the value of an option is, or the usual one, where the option is not used.
pub(crate) fn run_in(value: &Option<Text>) -> Option<u64>
    ensures limits { IfSome result (λ run. (LEAST_RUN ≤ run) × (run ≤ MAX_RUN)) }
    ensures some { IfSome result (λ run. IsTextOrUsual decimal USUAL_RUN run value.now) }
    ensures none { IfNone result ((run : ℕ) → LEAST_RUN ≤ run → run ≤ MAX_RUN → IsTextOrUsual decimal USUAL_RUN run value.now → ⊥) }
{
    number_in(value, USUAL_RUN, LEAST_RUN, MAX_RUN)
}

/// The order that the value of an option is the text of, or the usual one, where the option is not used.
pub(crate) fn order_in(value: &Option<Text>) -> Option<Order>
    ensures order { IfSome result (λ order. IsOrder order) }
    ensures some { IfSome result (λ order. IsTextOrUsual order_text usual_order order value.now) }
    ensures none { IfNone result ((order : List Evaluation) → IsOrder order → IsTextOrUsual order_text usual_order order value.now → ⊥) }
{
    match value {
        Some(value) => order_of(value.as_slice()),
        None => Some(Order::usual()),
    }
}

// The order that bytes are the text of.
fn order_of(bytes: &[u8]) -> Option<Order>
    ensures some { IfSome result (λ order. IsOrder order × (bytes.now ≡ order_text order)) }
    ensures none { IfNone result ((order : List Evaluation) → IsOrder order → bytes.now ≢ order_text order) }
{
    let Ok(text) = str::from_utf8(bytes) else {
        return None;
    };
    Order::read(text).ok()
}
