//! Documents of searches over two pointers, which say where twins were passed over.

use crate::calls::document_of;
use crate::changes::{check_changes, with_line};
use crate::verdicts::check_verdict;
use std::test::Fail;

// In the tree of the size that is not refuted any marks may stand that are of the grammar.
const CHANGES_OF_ONE_LIGHT: &str = "\
1 bfgp answer 1: accepted
7 t: rejected
10 t: accepted
11 f 0 1: accepted
11 f 0 2: accepted
11 g: accepted
11 t 0: rejected
12 t: accepted
2 pointers 1: rejected
";

#[test]
fn changes_of_one_light(rt: HostRuntime) -> Result<(), Fail> {
    check_changes(
        &rt,
        rt.alloc(),
        "synth --pointers 2 --lines 5 lights unlit",
        "check --pointers 2 --lines 5 --answer answer lights unlit",
        CHANGES_OF_ONE_LIGHT,
    )
}

// The words of a search for a program that lights two lights, and three, and of a check of the document that none does.
const SEARCH_TWO_AND_THREE: &str = "synth --pointers 2 --lines 3 lights two three";

const CHECK_TWO_AND_THREE: &str = "check --pointers 2 --lines 3 --answer answer lights two three";

// Where a twin is, what is so of its program may stand, and nothing else. A twin of one program is none of another that uses its
// pointers: so `act light p1` is where no pointer is used, and is not below `set p0 p1`, on line 128.
const CHANGES_OF_TWO_AND_THREE: &str = "\
1 bfgp answer 1: accepted
7 t: rejected
9 t: rejected
11 f 0 1: accepted
11 f 1 1: accepted
11 f 0 2: rejected
11 f 2 1: rejected
11 l 0 0 1: rejected
11 o: rejected
11 g: rejected
11 r 0: rejected
11 t 0: rejected
12 t: rejected
45 f 0 1: rejected
45 o: rejected
127 t: rejected
128 t: rejected
128 f 1 2: accepted
168 f 0 2: accepted
168 f 1 2: accepted
168 f 0 1: rejected
182 t: rejected
2 pointers 1: rejected
";

#[test]
fn changes_of_two_lights_and_three(rt: HostRuntime) -> Result<(), Fail> {
    check_changes(
        &rt,
        rt.alloc(),
        SEARCH_TWO_AND_THREE,
        CHECK_TWO_AND_THREE,
        CHANGES_OF_TWO_AND_THREE,
    )
}

// No mark but those of twins may be that of a twin.
#[test]
fn nothing_else_is_a_twin(rt: HostRuntime) -> Result<(), Fail> {
    let document = document_of(rt.alloc(), SEARCH_TWO_AND_THREE)?;
    for (above, line) in document.lines().enumerate() {
        let verdict = if line == "t" { "accepted" } else { "rejected" };
        let changed = with_line(rt.alloc(), document.as_str(), above + 1, "t")?;
        check_verdict(
            &rt,
            rt.alloc(),
            CHECK_TWO_AND_THREE,
            changed.as_bytes(),
            verdict,
        )?;
    }
    Ok(())
}
