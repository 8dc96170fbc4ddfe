//! What a chain gives: the program of a node, and how many nodes are live.

use partial_program::Chain;
use program_model::{Instr, Partial};
use std::test::Fail;

// Operations of one action over one pointer, by number.
const ACT: Instr = Instr::Op(0);

const INC: Instr = Instr::Op(2);

#[test]
fn a_parent_is_live_as_long_as_its_child(rt: HostRuntime) -> Result<(), Fail> {
    let mut chain = Chain::new(rt.alloc(), 4)?;
    chain.reserve(2)?;
    let root = chain.root();
    let first = chain.child(root, 0, ACT);
    let second = chain.child(first, 1, INC);
    let mut program = Partial::empty(1);
    chain.write_into(second, &mut program);
    assert_eq!(rt; program.lines(), 4);
    assert_eq!(rt; program.at(0), Some(ACT));
    assert_eq!(rt; program.at(1), Some(INC));
    assert_eq!(rt; program.at(2), None);
    assert_eq!(rt; program.at(3), Some(Instr::End));
    chain.release(first);
    assert_eq!(rt; chain.count(), 3);
    chain.release(second);
    assert_eq!(rt; chain.count(), 1);
    Ok(())
}
