use flag_rules::Cond;

/// An instruction of a planning program.
#[derive(Clone, Copy, Debug, PartialEq, Eq)]
pub enum Instr {
    /// An operation of the machine, by its number from 0.
    Op(u32),
    /// A jump to the line `target`, from 0, where the condition holds; else the run goes on at the following line.
    Goto { target: u8, cond: Cond },
    /// The end of the program, which stands on the last line alone.
    End,
}
