ghost use Rattle.std.specs.Prelude.{◌≡◌, ◌≢◌, ℕ, ◌≤◌, decimal, IfSome, IfNone};

use flag_rules::read_decimal;

/// The number within limits that bytes are, in decimal and without leading zeros.
pub(crate) fn number_of(bytes: &[u8], least: u64, most: u64) -> Option<u64>
    ensures some { IfSome result (λ number. (least ≤ number) × (number ≤ most) × (bytes.now ≡ decimal number)) }
    ensures none { IfNone result ((number : ℕ) → least ≤ number → number ≤ most → bytes.now ≢ decimal number) }
{
    match read_decimal(bytes) {
        Some(number) if least <= number && number <= most => Some(number),
        _ => None,
    }
}
