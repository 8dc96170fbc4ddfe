use crate::checks::{check_bytes, check_value};
use flag_rules::{List, OutOfMemory, Text, read_decimal};
use std::alloc::Global;

/// A list of three numbers.
fn three_numbers(alloc: Global) -> Result<List<u16>, OutOfMemory> {
    let mut list = List::new(alloc);
    for number in [3u16, 5, 7] {
        list.push(number)?;
    }
    Ok(list)
}

#[test]
fn lists_grow_with_ample_memory(rt: HostRuntime) -> Result<(), OutOfMemory> {
    let mut list = three_numbers(rt.alloc())?;
    assert_eq!(rt; list.as_slice(), [3, 5, 7].as_slice());
    assert_eq!(rt; list.len(), 3);
    let taken = list.remove(1);
    assert_eq!(rt; taken, 5);
    assert_eq!(rt; list.into_vec().as_slice(), [3, 7].as_slice());
    Ok(())
}

fn text_of(alloc: Global, word: &[u8]) -> Result<Text, OutOfMemory> {
    Text::of(alloc, word)
}

fn add_byte_and_word(text: &mut Text) -> Result<(), OutOfMemory> {
    text.push(b'd')?;
    text.append(b" of")
}

#[test]
fn texts_grow_with_ample_memory(rt: HostRuntime) -> Result<(), OutOfMemory> {
    let mut text = text_of(rt.alloc(), b"en")?;
    add_byte_and_word(&mut text)?;
    check_bytes(&rt, text.as_slice(), b"end of");
    Ok(())
}

fn add_two_numbers(text: &mut Text) -> Result<(), OutOfMemory> {
    text.append_number(u64::MAX)?;
    text.append_number(0)
}

#[test]
fn numbers_are_written_in_decimal(rt: HostRuntime) -> Result<(), OutOfMemory> {
    let mut text = text_of(rt.alloc(), b"of")?;
    add_two_numbers(&mut text)?;
    check_bytes(&rt, text.as_slice(), b"of 18446744073709551615 0");
    Ok(())
}

const DECIMALS: &[(&str, Option<u64>)] = &[
    ("18446744073709551615", Some(u64::MAX)),
    ("18446744073709551616", None),
    ("0", Some(0)),
    ("00", None),
    ("+1", None),
    ("", None),
];

#[test]
fn numbers_are_read_in_decimal(rt: HostRuntime) {
    for (word, number) in DECIMALS {
        check_value(&rt, word, &read_decimal(word.as_bytes()), number);
    }
}
