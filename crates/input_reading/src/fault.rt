ghost use Rattle.std.specs.Prelude.{◌≡◌};

use ground_state::GroundRefusal;
use pddl_parser::ParseRefusal;
use pddl_task::{TaskRefusal, Which};
use pointer_machine::MachineRefusal;
use program_text::ProgramRefusal;
use std::fmt;

/// What is wrong with an input file.
#[derive(Clone, Copy, Debug, PartialEq, Eq)]
pub enum Fault {
    /// No such file.
    Absent,
    /// The file has more bytes than the limit.
    TooLong,
    /// A byte that begins no token. This position and those below count bytes from 0.
    Byte(u32),
    /// A left parenthesis without its partner.
    Unclosed(u32),
    /// A right parenthesis without its partner.
    Unopened(u32),
    /// A left parenthesis that is nested too deep.
    TooDeep(u32),
    /// A token that fits no text.
    Shape(u32),
    /// A form of PDDL that is left out.
    Unsupported(u32),
    /// A type, a predicate, a name or a variable that stands nowhere.
    Unknown(u32),
    /// The second of two equal words where words differ.
    Twice(u32),
    /// An atom with another number of arguments than its predicate has parameters.
    Arity(u32),
    /// A type that does not stand under `object`.
    TypeCycle(u32),
    /// The name of another domain.
    OtherDomain(u32),
    /// The instance has no object.
    NoObject,
    /// So many of them, which is more than the limit.
    Limit(Which, u64),
    /// The instance has this many ground atoms, which is more than the limit.
    Atoms(u64),
    /// The domain has this many operations over the pointers, which is more than the limit.
    Operations(u64),
    /// The program has this many instruction lines, which is more than the limit.
    ProgramTooLong(u32),
    /// The program has no instruction line, or its last one is not `end`.
    NoEnd,
    /// The line of this number, from 1, is the first instruction line of the program that may not stand at its place.
    Line(u32),
}

impl Fault {
    ghost use Rattle.input_reading.specs.Faults.{parsing_fault, task_fault, ground_fault, machine_fault, program_fault};

    /// The fault that a refusal of a text is, unless it is for want of memory.
    pub(crate) fn of_text(refusal: ParseRefusal) -> Option<Fault>
        ensures { result ≡ parsing_fault refusal }
    {
        match refusal {
            ParseRefusal::Byte(position) => Some(Fault::Byte(position)),
            ParseRefusal::Unclosed(position) => Some(Fault::Unclosed(position)),
            ParseRefusal::Unopened(position) => Some(Fault::Unopened(position)),
            ParseRefusal::TooDeep(position) => Some(Fault::TooDeep(position)),
            ParseRefusal::Shape(position) => Some(Fault::Shape(position)),
            ParseRefusal::Unsupported(position) => Some(Fault::Unsupported(position)),
            ParseRefusal::OutOfMemory => None,
        }
    }

    /// The fault that a refusal of a text as a task or as an instance is, unless it is for want of memory.
    pub(crate) fn of_task(refusal: TaskRefusal) -> Option<Fault>
        ensures { result ≡ task_fault refusal }
    {
        match refusal {
            TaskRefusal::Unknown(position) => Some(Fault::Unknown(position)),
            TaskRefusal::Twice(position) => Some(Fault::Twice(position)),
            TaskRefusal::Arity(position) => Some(Fault::Arity(position)),
            TaskRefusal::TypeCycle(position) => Some(Fault::TypeCycle(position)),
            TaskRefusal::OtherDomain(position) => Some(Fault::OtherDomain(position)),
            TaskRefusal::NoObject => Some(Fault::NoObject),
            TaskRefusal::Limit(which, count) => Some(Fault::Limit(which, count)),
            TaskRefusal::OutOfMemory => None,
        }
    }

    /// The fault that a refusal to ground an instance is, unless it is for want of memory.
    pub(crate) fn of_grounding(refusal: GroundRefusal) -> Option<Fault>
        ensures { result ≡ ground_fault refusal }
    {
        match refusal {
            GroundRefusal::TooManyAtoms(count) => Some(Fault::Atoms(count)),
            GroundRefusal::OutOfMemory => None,
        }
    }

    /// The fault that a refusal to make a machine is, unless it is for want of memory.
    pub(crate) fn of_machine(refusal: MachineRefusal) -> Option<Fault>
        ensures { result ≡ machine_fault refusal }
    {
        match refusal {
            MachineRefusal::TooManyOps(count) => Some(Fault::Operations(count)),
            MachineRefusal::OutOfMemory => None,
        }
    }

    /// The fault that a refusal of a program text is, unless it is for want of memory.
    pub(crate) fn of_program(refusal: ProgramRefusal) -> Option<Fault>
        ensures { result ≡ program_fault refusal }
    {
        match refusal {
            ProgramRefusal::TooLong(count) => Some(Fault::ProgramTooLong(count)),
            ProgramRefusal::NoEnd => Some(Fault::NoEnd),
            ProgramRefusal::Line(number) => Some(Fault::Line(number)),
            ProgramRefusal::OutOfMemory => None,
        }
    }
}

impl fmt::Display for Fault {
    ghost use Rattle.std.specs.Prelude.{Some};
    ghost use Rattle.input_reading.specs.Faults.{fault_text};

    ghost output = { λ fault. Some (fault_text fault) };

    fn fmt<W: fmt::Write>(&self, f: &mut fmt::Formatter<W>) -> fmt::Result {
        match self {
            Fault::Absent => f.write_str("absent"),
            Fault::TooLong => f.write_str("too long"),
            Fault::Byte(position) => write!(f, "byte {position}"),
            Fault::Unclosed(position) => write!(f, "unclosed {position}"),
            Fault::Unopened(position) => write!(f, "unopened {position}"),
            Fault::TooDeep(position) => write!(f, "too deep {position}"),
            Fault::Shape(position) => write!(f, "shape {position}"),
            Fault::Unsupported(position) => write!(f, "unsupported {position}"),
            Fault::Unknown(position) => write!(f, "unknown {position}"),
            Fault::Twice(position) => write!(f, "twice {position}"),
            Fault::Arity(position) => write!(f, "arity {position}"),
            Fault::TypeCycle(position) => write!(f, "type cycle {position}"),
            Fault::OtherDomain(position) => write!(f, "other domain {position}"),
            Fault::NoObject => f.write_str("no object"),
            Fault::Limit(Which::Parameters, count) => write!(f, "limit parameters {count}"),
            Fault::Limit(Which::Arity, count) => write!(f, "limit arity {count}"),
            Fault::Limit(Which::Objects, count) => write!(f, "limit objects {count}"),
            Fault::Atoms(count) => write!(f, "atoms {count}"),
            Fault::Operations(count) => write!(f, "operations {count}"),
            Fault::ProgramTooLong(count) => write!(f, "program too long {count}"),
            Fault::NoEnd => f.write_str("no end"),
            Fault::Line(number) => write!(f, "line {number}"),
        }
    }
}
