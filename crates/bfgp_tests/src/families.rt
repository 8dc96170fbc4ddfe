//! Searches over families of instances.

use crate::calls::{check_calls_over, shelf_of};
use std::test::Fail;

const FAMILIES: &str = "\
0 gen lights 0
family lights number 0
sizes 2 39 76 113 150 187 224 6
verdict program 4
splits 14
program
act light p0
inc p0
goto 0 if nonzero
end

0 gen lights 7
family lights number 7
sizes 9 46 83 120 157 194 231 13
verdict program 4
splits 14
program
act light p0
inc p0
goto 0 if nonzero
end

0 gen lights 99999999
family lights number 99999999
sizes 221 3 40 77 114 151 188 225
verdict program 4
splits 14
program
act light p0
inc p0
goto 0 if nonzero
end

0 gen corridor 0
family corridor number 0
sizes 3 8 5
verdict program 5
splits 1276
program
act move p0 p1
set p0 p1
inc p1
goto 0 if nonzero
end

0 gen corridor 7
family corridor number 7
sizes 10 7 4
verdict program 5
splits 1276
program
act move p0 p1
set p0 p1
inc p1
goto 0 if nonzero
end

0 gen corridor 99999999
family corridor number 99999999
sizes 10 7 4
verdict program 5
splits 1276
program
act move p0 p1
set p0 p1
inc p1
goto 0 if nonzero
end";

// No file is read: a read that would fail is not made.
#[test]
fn families_are_searched_without_files(rt: HostRuntime) -> Result<(), Fail> {
    let mut shelf = shelf_of(rt.alloc(), "")?;
    shelf.fail_at(0)?;
    check_calls_over(&rt, rt.alloc(), &mut shelf, FAMILIES)
}
