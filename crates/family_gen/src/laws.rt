ghost use Rattle.std.specs.Prelude.{◌≡◌, ℕ, ◌<◌, ◌≤◌, length, All, Err};
ghost use Rattle.flag_rules.specs.declared.file.TheConstants.{MAX_FILE_BYTES};
ghost use Rattle.ground_state.specs.declared.parts.TheConstants.{MAX_ATOMS};
ghost use Rattle.ground_state.specs.Ground.{atoms_needed};
ghost use Rattle.program_model.specs.declared.machine.TheConstants.{MAX_INSTANCES};
ghost use Rattle.pddl_parser.specs.declared.refusal.ParseRefusal.{ParseRefusal};
ghost use Rattle.pddl_parser.specs.declared.refusal.ParseRefusal.TheVariants as parsing;
ghost use Rattle.pddl_parser.specs.declared.texts.DomainText.{DomainText};
ghost use Rattle.pddl_parser.specs.declared.texts.ProblemText.{ProblemText};
ghost use Rattle.pddl_parser.specs.Replies.{HasDomain, HasProblem, IsDomainReply, IsProblemReply};
ghost use Rattle.pddl_printer.specs.Printing.{printed_domain, printed_problem};
ghost use Rattle.pddl_task.specs.declared.refusal.TaskRefusal.{TaskRefusal};
ghost use Rattle.pddl_task.specs.declared.refusal.TaskRefusal.TheVariants as tasks;
ghost use Rattle.pddl_task.specs.Parts.{TaskOf, InstanceOf};
ghost use Rattle.pddl_task.specs.Replies.{IsTaskReply, IsInstanceReply};
ghost use Rattle.family_gen.specs.declared.kinds.Family.{Family};
ghost use Rattle.family_gen.specs.Domains.{domain_of};
ghost use Rattle.family_gen.specs.Problems.{problem_of};
ghost use Rattle.family_gen.specs.Families.{sizes_of};
ghost use Rattle.family_gen.specs.Parts.{family_task, family_instance};

use crate::MAX_NUMBER;

/// A law: the greatest number of a family, as a number.
pub fn limits()
    ensures { MAX_NUMBER ≡ 99999999 }
{}

/// A law: a family has an instance at every number, and no more of them than programs are searched for, each of 2 to 256 lamps or cells.
pub fn sizes_are_within_limits()
    ensures some { (family : Family) (number : ℕ) → 0 < length (sizes_of family number) }
    ensures few { (family : Family) (number : ℕ) → length (sizes_of family number) ≤ MAX_INSTANCES }
    ensures each { (family : Family) (number : ℕ) → All (λ size. (1 < size) × (size ≤ 256)) (sizes_of family number) }
{}

/// A law: the texts of a family are no longer than files may be.
pub fn texts_fit_into_files()
    ensures domain { (family : Family) → length (printed_domain (domain_of family)) ≤ MAX_FILE_BYTES }
    ensures problem { (family : Family) (size : ℕ) → size ≤ 256 → length (printed_problem (problem_of family size)) ≤ MAX_FILE_BYTES }
{}

/// A law: where the text of a family's domain is read, only memory can be wanting.
pub fn domains_are_read_without_a_refusal()
    ensures { (family : Family) (refusal : ParseRefusal) →
        IsDomainReply (printed_domain (domain_of family)) (Err refusal) → refusal ≡ parsing.OutOfMemory }
{}

/// A law: where the text of a family's instance is read, only memory can be wanting.
pub fn problems_are_read_without_a_refusal()
    ensures { (family : Family) (size : ℕ) (refusal : ParseRefusal) → size ≤ 256 →
        IsProblemReply (printed_problem (problem_of family size)) (Err refusal) → refusal ≡ parsing.OutOfMemory }
{}

/// A law: what the text of a family's domain reads as is the text of the family's task, and where the task is made of it, only
/// memory can be wanting.
pub fn tasks_are_made_without_a_refusal()
    ensures parts { (family : Family) (domain : DomainText) → HasDomain (printed_domain (domain_of family)) domain →
        TaskOf domain (family_task family) }
    ensures made { (family : Family) (domain : DomainText) (refusal : TaskRefusal) →
        HasDomain (printed_domain (domain_of family)) domain → IsTaskReply domain (Err refusal) → refusal ≡ tasks.OutOfMemory }
{}

/// A law: what the texts of a family's domain and of an instance read as are the texts of the family's instance, and where the
/// instance is made of them, only memory can be wanting.
pub fn instances_are_made_without_a_refusal()
    ensures parts { (family : Family) (size : ℕ) (domain : DomainText) (problem : ProblemText) → 0 < size → size ≤ 256 →
        HasDomain (printed_domain (domain_of family)) domain → HasProblem (printed_problem (problem_of family size)) problem →
        InstanceOf domain problem (family_instance family size) }
    ensures made { (family : Family) (size : ℕ) (domain : DomainText) (problem : ProblemText) (refusal : TaskRefusal) → 0 < size → size ≤ 256 →
        HasDomain (printed_domain (domain_of family)) domain → HasProblem (printed_problem (problem_of family size)) problem →
        IsInstanceReply domain problem (Err refusal) → refusal ≡ tasks.OutOfMemory }
{}

/// A law: no instance of a family has more ground atoms than a table of atoms takes.
pub fn families_have_few_atoms()
    ensures { (family : Family) (number : ℕ) →
        All (λ size. atoms_needed (family_task family) (family_instance family size) ≤ MAX_ATOMS) (sizes_of family number) }
{}
