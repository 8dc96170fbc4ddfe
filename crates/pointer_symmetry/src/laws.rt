ghost use Rattle.std.specs.Prelude.{◌≡◌, ◌↔◌, ℕ, ◌<◌, List};
ghost use Rattle.program_model.specs.declared.instr.Instr.{Instr};
ghost use Rattle.program_model.specs.Renaming.{IsRenamingOf};
ghost use Rattle.program_model.specs.Program.{Program, with_line, IsOpen, IsPartial, IsProgram, Completes};
ghost use Rattle.program_model.specs.Run.{Solves};
ghost use Rattle.refutation_tree.specs.Covers.{IsFair};
ghost use Rattle.pointer_symmetry.specs.Renamed.{renamed_program};
ghost use Rattle.pointer_symmetry.specs.Twins.{twins};
ghost use Rattle.pointer_symmetry.specs.Counterparts.{HasRenamed};

use program_model::Machine;

/// A law over all machines: a program over renamed pointers solves exactly the instances that the program solves. The call does
/// nothing.
pub fn renamed_programs_solve_alike<M: Machine>(machine: &M)
    ensures { let m = M.semantics machine.now in (by : List ℕ) (program : Program) (t : ℕ) →
        IsRenamingOf m.pointers by → IsProgram m.ops program → t < m.instances →
        Solves m program t ↔ Solves m (renamed_program m by program) t }
{
    machine.treats_pointers_alike();
}

/// A law over all machines: each completion of a partial program, also one with a twin, has a renamed one with an instruction that
/// is no twin, and one solves every instance exactly where the other does. The call does nothing.
pub fn twins_have_counterparts<M: Machine>(machine: &M)
    ensures { let m = M.semantics machine.now in (q program : Program) (line : ℕ) (instr : Instr) →
        IsPartial m.ops q → IsOpen q line → Completes m.ops program (with_line q line instr) →
        HasRenamed m q line instr program }
{
    machine.treats_pointers_alike();
    machine.pointers();
}

/// A law over all machines: passing twins over loses no solution. The call does nothing.
pub fn passing_twins_over_is_fair<M: Machine>(machine: &M)
    ensures { let m = M.semantics machine.now in IsFair m (twins m) }
{
    machine.treats_pointers_alike();
    machine.pointers();
}
