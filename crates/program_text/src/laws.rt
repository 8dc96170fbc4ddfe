ghost use Rattle.std.specs.Prelude.{◌≡◌, ◌≢◌, ◌<◌, ◌≤◌, ℕ, List, length, Result, Ok, Err};
ghost use Rattle.program_model.specs.declared.instr.Instr.{Instr};
ghost use Rattle.program_model.specs.Program.{Program, IsInstr, IsProgram};
ghost use Rattle.program_text.specs.declared.refusal.ProgramRefusal.{ProgramRefusal};
ghost use Rattle.program_text.specs.declared.refusal.ProgramRefusal.TheVariants.{OutOfMemory};
ghost use Rattle.program_text.specs.Names.{AreNames};
ghost use Rattle.program_text.specs.Texts.{instr_text, program_text};
ghost use Rattle.program_text.specs.Reading.{Reads};

use program_model::MAX_LINES;

/// A law: a program that is written is read back as it was.
pub fn written_programs_read_back()
    ensures { (texts : List (List ℕ)) (program : Program) →
        AreNames texts → IsProgram (length texts) program → length program ≤ MAX_LINES →
        Reads texts (program_text texts program) (Ok program) }
{}

/// A law: a program text says one program or has one refusal, but for want of memory.
pub fn one_answer()
    ensures { (texts : List (List ℕ)) (bytes : List ℕ) (one other : Result Program ProgramRefusal) →
        AreNames texts → Reads texts bytes one → Reads texts bytes other →
        one ≢ Err OutOfMemory → other ≢ Err OutOfMemory → one ≡ other }
{}

/// A law: no two instructions that may stand in a program have one text.
pub fn texts_tell_instructions()
    ensures { (texts : List (List ℕ)) (lines i j : ℕ) (one other : Instr) →
        AreNames texts → lines ≤ MAX_LINES → i < lines → j < lines →
        IsInstr (length texts) lines i one → IsInstr (length texts) lines j other →
        instr_text texts one ≡ instr_text texts other → one ≡ other }
{}
