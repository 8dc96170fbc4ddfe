//! Searches over two pointers, which pass over twins.

use crate::calls::lines_of;
use crate::searches::check_searches;
use std::test::Fail;

// One light, in two lines: `act light p1` is a twin of `act light p0`, and so on.
const ONE_LIGHT: &str = "\
bfgp answer 1 / pointers 2 / lines 5 / instances 1 / verdict program 2 / tree 1 / f 0 0 / \
tree 2 / s 0 0 / g / t / f 0 1 / t / f 0 1 / t / f 0 1 / t / f 0 1 / t / f 0 1 / t / f 0 1 / t / \
program / act light p0 / end / ends 0 1 / end of answer";

// Two lights, and three, which no program of three lines lights. Where the first line names one pointer of two, the other one is
// unused and has no twin; where it names both, none is unused; where it is a jump, both are.
const TWO_LIGHTS_AND_THREE: &str = "\
bfgp answer 1 / pointers 2 / lines 3 / instances 2 / verdict none / tree 1 / f 0 0 / \
tree 2 / s 0 0 / f 0 1 / t / f 0 1 / t / f 0 1 / t / f 0 1 / t / f 0 1 / t / f 0 1 / t / f 0 1 / t / \
tree 3 / s 0 1 / \
s 1 2 / f 0 2 / f 0 2 / f 0 2 / f 0 2 / f 0 2 / f 0 2 / f 0 2 / f 0 2 / f 0 2 / f 0 2 / f 0 2 / f 0 2 / f 0 2 / f 0 2 / f 0 2 / l 0 1 3 / l 0 1 3 / f 0 2 / t / \
s 1 3 / f 0 2 / f 0 2 / f 0 2 / f 0 2 / f 0 2 / f 0 2 / f 0 2 / f 0 2 / f 0 2 / f 0 2 / f 0 2 / f 0 2 / f 0 2 / f 0 2 / l 0 1 3 / f 0 2 / f 0 2 / l 0 1 3 / t / \
s 1 4 / f 0 2 / f 0 2 / f 0 2 / f 0 2 / f 0 2 / f 0 2 / f 0 2 / f 0 2 / f 0 2 / f 0 2 / f 0 2 / f 0 2 / f 0 2 / f 0 2 / f 0 2 / f 0 4 / f 0 4 / f 0 2 / t / \
s 1 5 / f 0 2 / f 0 2 / f 0 2 / f 0 2 / f 0 2 / f 0 2 / f 0 2 / f 0 2 / f 0 2 / f 0 2 / f 0 2 / f 0 2 / f 0 2 / f 0 2 / l 0 1 3 / f 0 2 / f 0 2 / l 0 1 3 / t / \
s 1 6 / f 0 2 / f 0 2 / f 0 2 / f 0 2 / f 0 2 / f 0 2 / f 0 2 / f 0 2 / f 0 2 / f 0 2 / f 0 2 / f 0 2 / f 0 2 / f 0 2 / l 0 1 3 / f 0 2 / f 0 2 / l 0 1 3 / t / \
s 1 7 / f 0 2 / f 0 2 / f 0 2 / f 0 2 / f 0 2 / f 0 2 / f 0 2 / f 0 2 / f 0 2 / f 0 2 / f 0 2 / f 0 2 / f 0 2 / f 0 2 / l 0 1 3 / f 0 2 / f 0 2 / l 0 1 3 / t / \
s 1 8 / f 0 2 / f 0 2 / f 0 2 / f 0 2 / f 0 2 / f 0 2 / f 0 2 / f 0 2 / f 0 2 / f 0 2 / f 0 2 / f 0 2 / f 0 2 / f 0 2 / l 0 1 3 / f 0 2 / f 0 2 / l 0 1 3 / t / \
s 1 9 / f 0 2 / t / f 0 2 / t / f 0 2 / t / f 0 2 / t / f 0 2 / t / f 0 2 / t / f 0 2 / t / f 0 2 / l 0 1 3 / f 0 2 / l 0 1 3 / f 0 1 / \
s 1 10 / f 0 2 / t / f 0 2 / t / f 0 2 / t / f 0 2 / t / f 0 2 / t / f 0 2 / t / f 0 2 / t / f 0 2 / l 0 1 3 / f 0 2 / l 0 1 3 / f 0 1 / \
end of answer";

#[test]
fn twins_are_passed_over(rt: HostRuntime) -> Result<(), Fail> {
    for (call, document) in [
        ("0 synth --pointers 2 --lines 5 lights unlit", ONE_LIGHT),
        (
            "1 synth --pointers 2 --lines 3 lights two three",
            TWO_LIGHTS_AND_THREE,
        ),
    ] {
        let document = lines_of(rt.alloc(), document)?;
        let search = format!(in rt.alloc(); "{call}\n{}", document.trim_end())?;
        check_searches(&rt, rt.alloc(), "", search.as_str())?;
    }
    Ok(())
}
