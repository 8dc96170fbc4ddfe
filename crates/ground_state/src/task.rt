ghost use Rattle.std.specs.Prelude.{◌≡◌};
ghost use Rattle.ground_state.specs.Task.{IsTask};
ghost use Rattle.ground_state.specs.Instance.{IsInstance};

use crate::{InstanceParts, TaskParts};
use std::marker::Model;

/// A planning task: parts that fit together. Contracts see it as these parts.
#[derive(Debug, Drop)]
pub struct Task {
    parts: TaskParts,
}

impl Model for Task {
    ghost use Rattle.ground_state.specs.declared.parts.TaskParts.{TaskParts};
    ghost use Rattle.ground_state.specs.Task.{IsTask};

    ghost Value = { TaskParts };

    ghost view = { λ task. task.parts };

    ghost invariant = { λ task. IsTask task.parts };
}

impl Task {
    /// The task of these parts. It takes no memory.
    pub fn new(parts: TaskParts) -> Task
        requires { IsTask parts }
        ensures { result ≡ parts }
    {
        Task { parts }
    }

    /// The parts that the task was made of.
    pub fn parts(&self) -> &TaskParts
        ensures parts { result.now ≡ self.now }
        ensures fit { IsTask self.now }
    {
        &self.parts
    }
}

/// An instance of a planning task: parts that fit the task. Contracts see it as these parts.
#[derive(Debug, Drop)]
pub struct Instance {
    parts: InstanceParts,
}

impl Model for Instance {
    ghost use Rattle.ground_state.specs.declared.parts.InstanceParts.{InstanceParts};

    ghost Value = { InstanceParts };

    ghost view = { λ instance. instance.parts };
}

impl Instance {
    /// The instance of these parts, for the task that they fit. It takes no memory.
    pub fn new(task: &Task, parts: InstanceParts) -> Instance
        requires { IsInstance task.now parts }
        ensures { result ≡ parts }
    {
        Instance { parts }
    }

    /// The parts that the instance was made of.
    pub fn parts(&self) -> &InstanceParts
        ensures { result.now ≡ self.now }
    {
        &self.parts
    }
}
