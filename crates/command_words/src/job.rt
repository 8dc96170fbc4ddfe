use family_gen::Family;
use flag_rules::{List, Text};
use search_bounds::Bounds;

/// The least budget of splits that `synth` takes.
pub const LEAST_BUDGET: u32 = 1;

/// The budget of splits where the words tell none.
pub const USUAL_BUDGET: u32 = 10_000;

/// The least limit of steps of a run that `synth` and `run` take.
pub const LEAST_RUN: u64 = 4;

/// The limit of steps of a run where the words tell none.
pub const USUAL_RUN: u64 = 100_000;

/// What the words of a command ask for.
#[derive(Debug, Drop)]
pub enum Job {
    /// To search for a smallest program that solves all instances.
    Synth(SynthJob),
    /// To check the answer document of a search.
    Check(CheckJob),
    /// To run a program on all instances.
    Run(RunJob),
    /// To search over a family of instances.
    Gen(GenJob),
}

/// A search for a smallest program.
#[derive(Debug, Drop)]
pub struct SynthJob {
    /// How many pointers programs have, from 1 to `MAX_POINTERS`.
    pub pointers: u8,
    /// How far it goes: its lines, from 1 to `MAX_LINES`; its budget, from `LEAST_BUDGET` to `MAX_BUDGET`; and its limit of
    /// steps, from `LEAST_RUN` to `MAX_RUN`.
    pub bounds: Bounds,
    pub inputs: Inputs,
}

/// A check of the answer document of a search for the same inputs, pointers and lines.
#[derive(Debug, Drop)]
pub struct CheckJob {
    /// How many pointers programs have, from 1 to `MAX_POINTERS`.
    pub pointers: u8,
    /// How many lines programs were to have at most, from 1 to `MAX_LINES`.
    pub lines: u8,
    /// The name of the file that holds the document.
    pub answer: Text,
    pub inputs: Inputs,
}

/// The runs of a program.
#[derive(Debug, Drop)]
pub struct RunJob {
    /// How many pointers the program has, from 1 to `MAX_POINTERS`.
    pub pointers: u8,
    /// How many steps a run has at most, from `LEAST_RUN` to `MAX_RUN`.
    pub run: u64,
    /// The name of the program file.
    pub program: Text,
    pub inputs: Inputs,
}

/// A search over a family of instances that is made from a number.
#[derive(Debug, Drop)]
pub struct GenJob {
    pub family: Family,
    /// The number that it is made from, at most `MAX_NUMBER`.
    pub number: u32,
}

/// The names of the files that pose the instances.
#[derive(Debug, Drop)]
pub struct Inputs {
    /// The name of the domain file.
    pub domain: Text,
    /// The names of the instance files, from 1 to `MAX_INSTANCES`.
    pub instances: List<Text>,
}
