ghost use Rattle.std.specs.Prelude.{◌≡◌, ◌≢◌, ℕ, ◌<◌, ◌^◌, ◌++◌, decimal, IfSome, IfNone};
ghost use Rattle.arrayvec.specs.ArrayVec.{array_vec_len};
ghost use Rattle.flag_rules.specs.Line.{then_number};

use arrayvec::ArrayVec;
use itoa::Buffer;
use std::marker::Model;

/// The number that bytes are in decimal, without a sign and without leading zeros.
pub fn read_decimal(bytes: &[u8]) -> Option<u64>
    ensures some { IfSome result (λ number. bytes.now ≡ decimal number) }
    ensures none { IfNone result ((number : ℕ) → number < 2 ^ 64 → bytes.now ≢ decimal number) }
{
    let Ok(text) = str::from_utf8(bytes) else {
        return None;
    };
    let Ok(number) = text.parse::<u64>() else {
        return None;
    };
    if text == Buffer::new().format(number) {
        Some(number)
    } else {
        None
    }
}

/// How many bytes a space and a number of 64 bits have at most.
const MAX_NUMBER_BYTES: usize = 21;

/// A space and a number in decimal, as lines of text have it. Contracts see its bytes. It takes no memory.
#[derive(Drop)]
pub struct SpacedNumber {
    bytes: ArrayVec<u8, MAX_NUMBER_BYTES>,
}

impl Model for SpacedNumber {
    ghost use Rattle.std.specs.Prelude.{List, ℕ};

    ghost Value = { List ℕ };

    ghost view = { λ number. number.bytes.items };
}

impl SpacedNumber {
    /// A space and this number.
    pub fn of(number: u64) -> SpacedNumber
        ensures { result ≡ then_number number }
    {
        let mut bytes = ArrayVec::new();
        bytes.push(b' ');
        bytes
            .try_extend_from_slice(Buffer::new().format(number).as_bytes())
            .unwrap();
        SpacedNumber { bytes }
    }

    /// The bytes, in order.
    pub fn as_slice(&self) -> &[u8]
        ensures { result.now ≡ self.now }
    {
        self.bytes.as_slice()
    }
}
