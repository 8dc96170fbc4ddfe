//! Marks on runs that come back to an earlier configuration. A row has the configurations of a run, step by step, a letter for each,
//! and the steps of the repetition that is noticed.

use loop_witness::{Marks, Turn};
use std::test::Fail;

// More steps than a row has.
const MOST_STEPS: u64 = 30;

#[test]
fn a_repetition_is_noticed_at_a_mark(rt: HostRuntime) -> Result<(), Fail> {
    for (configurations, from, to) in [
        ("aaaaaaaaaa", 0, 1),
        ("abababab", 1, 3),
        ("abbbbb", 1, 2),
        ("abcabcabc", 3, 6),
        ("abcdecdecde", 3, 6),
        ("abcdeeeee", 7, 8),
        ("abcdefghijklijklijkl", 15, 19),
        ("abcdefghijabcdefghijabcdefghij", 15, 25),
    ] {
        assert_eq!(rt;
            noticed(configurations.as_bytes()),
            Some((from, to)),
            "{configurations}"
        );
    }
    Ok(())
}

#[test]
fn a_run_that_does_not_repeat_goes_on(rt: HostRuntime) -> Result<(), Fail> {
    assert_eq!(rt; noticed(b"abcdefghijklmnopqrstuvwxyz"), None);
    Ok(())
}

// The repetition that marks notice of a run with these configurations.
fn noticed(configurations: &[u8]) -> Option<(u64, u64)> {
    let mut marks = Marks::begin();
    let mut marked = *configurations.first()?;
    while marks.steps() < MOST_STEPS {
        let here = *configurations.get(marks.steps() as usize + 1)?;
        match marks.turn(here == marked) {
            Turn::Go => {}
            Turn::MarkHere => marked = here,
            Turn::Repeat { from, to } => return Some((from, to)),
        }
    }
    None
}
