ghost use Rattle.std.specs.Prelude.{◌≡◌};
ghost use Rattle.pddl_task.specs.declared.refusal.TaskRefusal.TheVariants.{OutOfMemory as NoMemory};
ghost use Rattle.pddl_task.specs.Faults.{refusal_of};

use crate::fault::{Fault, FaultKind};
use flag_rules::OutOfMemory;
use thiserror::Error;

/// A limit on texts.
#[derive(Clone, Copy, Debug, PartialEq, Eq)]
pub enum Which {
    /// The parameters of an action.
    Parameters,
    /// The parameters of a predicate.
    Arity,
    /// The objects of an instance, constants among them, or the constants of a domain.
    Objects,
}

/// Why a text gives no task or no instance, with the place of the word that is at fault, in bytes from 0.
#[derive(Clone, Copy, Debug, PartialEq, Eq, Error)]
pub enum TaskRefusal {
    /// A type that is no type of the domain, the head of an atom that is no predicate, or an argument that is no parameter,
    /// constant or object.
    #[error("the word at {0} is not known")]
    Unknown(u32),
    /// The second of two equal words of a list whose words have to differ, where constants stand before objects.
    #[error("the word at {0} stands there twice")]
    Twice(u32),
    /// The head of an atom whose predicate has another number of parameters.
    #[error("the atom of {0} has another number of arguments than its predicate")]
    Arity(u32),
    /// A type whose parents never reach `object`, or the word `object` in `:types` with another parent.
    #[error("the type at {0} does not stand under object")]
    TypeCycle(u32),
    /// The name of a domain that is not the one given.
    #[error("the domain at {0} is another one")]
    OtherDomain(u32),
    /// An instance without objects and constants.
    #[error("there is no object")]
    NoObject,
    /// How many of them there are, which is more than may be.
    #[error("{1} are too many")]
    Limit(Which, u64),
    /// There was no more memory.
    #[error("out of memory")]
    OutOfMemory,
}

impl From<OutOfMemory> for TaskRefusal {
    ghost from_gives = { λ _ refusal. refusal ≡ NoMemory };

    fn from(_: OutOfMemory) -> Self {
        TaskRefusal::OutOfMemory
    }
}

impl From<Fault> for TaskRefusal {
    ghost from_gives = { λ fault refusal. refusal ≡ refusal_of fault };

    fn from(fault: Fault) -> Self {
        match fault.kind {
            FaultKind::Twice => TaskRefusal::Twice(fault.at),
            FaultKind::Unknown => TaskRefusal::Unknown(fault.at),
            FaultKind::Arity => TaskRefusal::Arity(fault.at),
            FaultKind::TypeCycle => TaskRefusal::TypeCycle(fault.at),
            FaultKind::OtherDomain => TaskRefusal::OtherDomain(fault.at),
        }
    }
}
