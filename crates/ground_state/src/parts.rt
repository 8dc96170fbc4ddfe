ghost use Rattle.std.specs.Prelude.{◌≡◌, length};
ghost use Rattle.ground_state.specs.Action.{object_of};
ghost use Rattle.ground_state.specs.Inner.Lifting.{IsBound};

use flag_rules::{List, Text};

/// How many objects an instance has at most, and so how many constants a task has at most.
pub const MAX_OBJECTS: usize = 256;

/// How many ground atoms an instance has at most, over all objects and without regard to types.
pub const MAX_ATOMS: u64 = 16_384;

/// How many parameters an action schema has at most.
pub const MAX_PARAMETERS: usize = 6;

/// How many arguments a predicate has at most.
pub const MAX_ARITY: u8 = 4;

/// A type, and the number of the type that it stands under. Types are numbered from 0, which is the root `object`.
#[derive(Debug, Drop)]
pub struct TypeEntry {
    pub name: Text,
    pub parent: u32,
}

/// An object or a constant, and the number of its type.
#[derive(Debug, Drop)]
pub struct ObjectEntry {
    pub name: Text,
    pub of: u32,
}

/// A predicate, and how many arguments it has.
#[derive(Debug, Drop)]
pub struct PredicateEntry {
    pub name: Text,
    pub arity: u8,
}

/// An argument of an atom in a schema: a parameter by its place from 0, or a constant by its number.
#[derive(Clone, Copy, Debug, PartialEq, Eq)]
pub enum Term {
    Param(u8),
    Object(u16),
}

impl Term {
    /// The object that it stands for, where these are the objects of the parameters.
    pub(crate) fn object(self, args: &[u16]) -> u16
        requires { IsBound (length args.now) self }
        ensures { result ≡ object_of args.now self }
    {
        match self {
            Term::Param(place) => args[usize::from(place)],
            Term::Object(number) => number,
        }
    }
}

/// An atom of an action schema: the number of a predicate, and its arguments.
#[derive(Debug, Drop)]
pub struct Lifted {
    pub pred: u32,
    pub args: List<Term>,
}

/// An action schema as PDDL 1.2 has it with `:strips` and `:typing`: the types of its parameters, the atoms of
/// its precondition, and the atoms that it adds and deletes.
#[derive(Debug, Drop)]
pub struct SchemaEntry {
    pub name: Text,
    pub params: List<u32>,
    pub pre: List<Lifted>,
    pub add: List<Lifted>,
    pub del: List<Lifted>,
}

/// What a planning domain says, with names replaced by numbers: places in these lists, from 0.
#[derive(Debug, Drop)]
pub struct TaskParts {
    pub types: List<TypeEntry>,
    pub constants: List<ObjectEntry>,
    pub predicates: List<PredicateEntry>,
    pub schemas: List<SchemaEntry>,
}

/// A ground atom: the number of a predicate, and the numbers of its objects.
#[derive(Debug, Drop)]
pub struct Fact {
    pub pred: u32,
    pub args: List<u16>,
}

/// What a planning problem says over a task: its objects, which begin with the task's constants, the atoms that
/// are true at the start, and the atoms that are to be true at the end.
#[derive(Debug, Drop)]
pub struct InstanceParts {
    pub objects: List<ObjectEntry>,
    pub init: List<Fact>,
    pub goal: List<Fact>,
}
