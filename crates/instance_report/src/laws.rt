ghost use Rattle.std.specs.Prelude.{◌≡◌, ◌↔◌, ℕ, IsTrue};
ghost use Rattle.program_model.specs.Semantics.{Semantics};
ghost use Rattle.program_model.specs.Program.{Program, IsProgram};
ghost use Rattle.instance_report.specs.declared.answer.Report.{Report};
ghost use Rattle.instance_report.specs.Runs.{SolvesAllWithin};
ghost use Rattle.instance_report.specs.Report.{IsReport};

/// A law over all machines: there is at most one report on a program under a limit.
pub fn at_most_one_report<C>()
    ensures { (m : Semantics C) (program : Program) (limit : ℕ) (report other : Report) → IsProgram m.ops program →
        IsReport m program limit report → IsReport m program limit other → report ≡ other }
{}

/// A law over all machines: a report says that all instances are solved exactly where the program's run ends on each with
/// the goal met, after steps of at most the limit.
pub fn reports_tell_solutions<C>()
    ensures { (m : Semantics C) (program : Program) (limit : ℕ) (report : Report) → IsProgram m.ops program →
        IsReport m program limit report → (IsTrue report.all_solved ↔ SolvesAllWithin m program limit) }
{}
