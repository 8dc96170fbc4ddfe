ghost use Rattle.std.specs.Prelude.{◌≡◌, ◌+◌, ◌≤◌, ◌++◌, length, flat_map, codes};
ghost use Rattle.arrayvec.specs.ArrayVec.{array_vec_len};
ghost use Rattle.flag_rules.specs.Line.{then_number};
ghost use Rattle.family_gen.specs.Families.{family_name};

use arrayvec::ArrayVec;
use family_gen::Family;
use flag_rules::SpacedNumber;
use itoa::Buffer;

/// How many instances a family has at most.
const MAX_SIZES: usize = 8;

/// How long a line is at most, without its line feed: that of `sizes` and as many numbers, each after a space.
pub(crate) const MAX_LINE: usize = 173;

/// The line of a family and its number. It takes no memory.
pub(crate) fn family_line(family: Family, number: u32) -> ArrayVec<u8, MAX_LINE>
    ensures { result.items ≡ codes "family " ++ family_name family ++ codes " number" ++ then_number number }
{
    let mut text = ArrayVec::new();
    add(&mut text, b"family ");
    add(&mut text, family.name().as_bytes());
    add(&mut text, b" number");
    add_number(&mut text, u64::from(number));
    text
}

/// The line of the sizes of instances. It takes no memory.
pub(crate) fn sizes_line(sizes: &[u16]) -> ArrayVec<u8, MAX_LINE>
    requires { length sizes.now ≤ MAX_SIZES }
    ensures { result.items ≡ codes "sizes" ++ flat_map then_number sizes.now }
{
    let mut text = ArrayVec::new();
    add(&mut text, b"sizes");
    for size in sizes {
        add_number(&mut text, u64::from(*size));
    }
    text
}

/// The line of a number of splits. It takes no memory.
pub(crate) fn splits_line(splits: u128) -> ArrayVec<u8, MAX_LINE>
    ensures { result.items ≡ codes "splits" ++ then_number splits }
{
    let mut text = ArrayVec::new();
    add(&mut text, b"splits ");
    add(&mut text, Buffer::new().format(splits).as_bytes());
    text
}

// Adds a space and a number, for which there is room.
fn add_number(text: &mut ArrayVec<u8, MAX_LINE>, number: u64)
    requires { array_vec_len text.old + 21 ≤ MAX_LINE }
    ensures items { text.new.items ≡ text.old.items ++ then_number number }
    ensures few { array_vec_len text.new ≤ array_vec_len text.old + 21 }
{
    add(text, SpacedNumber::of(number).as_slice());
}

// Adds bytes for which there is room.
fn add(text: &mut ArrayVec<u8, MAX_LINE>, bytes: &[u8])
    requires { array_vec_len text.old + length bytes.now ≤ MAX_LINE }
    ensures { text.new.items ≡ text.old.items ++ bytes.now }
{
    text.try_extend_from_slice(bytes).unwrap();
}
