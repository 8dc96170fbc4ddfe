//! Renamings of the four pointers: which numbers are read as one, and one renaming after another.

use pointer_symmetry::{compose, inverse};
use program_model::Renaming;
use std::process::Abort;
use std::test::Fail;

// The new numbers of the pointers, in order.
type Numbers = (u8, u8, u8, u8);

fn renaming_of(numbers: Numbers) -> Option<Renaming> {
    Renaming::new([numbers.0, numbers.1, numbers.2, numbers.3])
}

fn numbers_of(renaming: &Renaming) -> Numbers {
    (
        renaming.of(0),
        renaming.of(1),
        renaming.of(2),
        renaming.of(3),
    )
}

#[test]
fn numbers_of_all_pointers_once_are_read(rt: HostRuntime) -> Result<(), Fail> {
    let mut count: u16 = 0;
    for code in 0..625u16 {
        let is_read = check_reading(&rt, numbers_at(code))?;
        count = count.saturating_add(u16::from(is_read));
    }
    assert_eq!(rt; count, 24);
    Ok(())
}

// Four numbers from 0 to 4, by the digits of a number to the base of 5.
fn numbers_at(code: u16) -> Numbers {
    (
        (code / 125 % 5) as u8,
        (code / 25 % 5) as u8,
        (code / 5 % 5) as u8,
        (code % 5) as u8,
    )
}

// Whether four numbers are read; checks that each pointer stands among them where they are, and what is read.
fn check_reading<R: Abort>(rt: &R, numbers: Numbers) -> Result<bool, Fail> {
    let all = bit_of(numbers.0) | bit_of(numbers.1) | bit_of(numbers.2) | bit_of(numbers.3);
    let renaming = renaming_of(numbers);
    assert_eq!(rt; renaming.is_some(), all == 0b1111, "{numbers:?}");
    match renaming {
        Some(renaming) => {
            assert_eq!(rt; numbers_of(&renaming), numbers);
            Ok(true)
        }
        None => Ok(false),
    }
}

fn bit_of(number: u8) -> u8 {
    match number {
        0 => 1,
        1 => 2,
        2 => 4,
        3 => 8,
        _ => 16,
    }
}

// What is no pointer keeps its number, and so do all pointers under the renaming that is none.
#[test]
fn numbers_that_stay(rt: HostRuntime) -> Result<(), Fail> {
    let renaming = read((3, 2, 1, 0))?;
    assert_eq!(rt; (renaming.of(4), renaming.of(255)), (4, 255));
    assert_eq!(rt; numbers_of(&Renaming::same()), (0, 1, 2, 3));
    Ok(())
}

fn read(numbers: Numbers) -> Result<Renaming, Fail> {
    match renaming_of(numbers) {
        Some(renaming) => Ok(renaming),
        None => Err(Fail::new("no renaming")),
    }
}

// One renaming, another, and both in turn.
const IN_TURN: &[(Numbers, Numbers, Numbers)] = &[
    ((1, 2, 0, 3), (0, 2, 1, 3), (2, 1, 0, 3)),
    ((0, 2, 1, 3), (1, 2, 0, 3), (1, 0, 2, 3)),
    ((3, 0, 1, 2), (3, 0, 1, 2), (2, 3, 0, 1)),
    ((0, 1, 2, 3), (1, 0, 3, 2), (1, 0, 3, 2)),
];

#[test]
fn renamings_in_turn(rt: HostRuntime) -> Result<(), Fail> {
    for (first, then, both) in IN_TURN {
        let composed = compose(&read(*first)?, &read(*then)?);
        assert_eq!(rt; numbers_of(&composed), *both);
    }
    Ok(())
}

// A renaming, and the one that takes it back.
const BACK: &[(Numbers, Numbers)] = &[
    ((0, 1, 2, 3), (0, 1, 2, 3)),
    ((1, 2, 0, 3), (2, 0, 1, 3)),
    ((3, 0, 1, 2), (1, 2, 3, 0)),
    ((3, 2, 1, 0), (3, 2, 1, 0)),
];

#[test]
fn renamings_taken_back(rt: HostRuntime) -> Result<(), Fail> {
    for (renaming, back) in BACK {
        let inverse = inverse(&read(*renaming)?);
        assert_eq!(rt; numbers_of(&inverse), *back);
    }
    Ok(())
}
