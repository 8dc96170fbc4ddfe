ghost use Rattle.std.specs.Prelude.{◌≡◌, [], ◌∷◌, ◌++◌, codes, OnOk};
ghost use Rattle.std.specs.List.{flat_map};
ghost use Rattle.pddl_printer.specs.Printing.{spaced, in_parentheses, section, texts_of, typed_words, predicate_words, atom_words, formula_words, part_words, action_words, domain_section_words, problem_section_words};

use crate::formulas::{atoms, effect, formula, predicate};
use crate::words::{close, open, typed_list, word, words};
use flag_rules::{List, OutOfMemory, Text};
use pddl_parser::{ActionText, AtomText, DomainText, PredText, ProblemText, TypedWords, Word};

/// Adds a section of one word.
#[tactic(auto, using(crate::proofs::Spaced::spacing))]
pub(crate) fn word_section(out: &mut Text, key: &[u8], value: &Word) -> Result<(), OutOfMemory>
    ensures { OnOk result (out.new ≡ out.old ++ spaced (section key.now (value.now.text ∷ []))) }
{
    open(out, key)?;
    word(out, value.text.as_slice())?;
    close(out)
}

/// Adds a section of words.
#[tactic(auto, using(crate::proofs::Spaced::spacing))]
fn words_section(out: &mut Text, key: &[u8], values: &List<Word>) -> Result<(), OutOfMemory>
    ensures { OnOk result (out.new ≡ out.old ++ spaced (section key.now (texts_of values.now))) }
{
    open(out, key)?;
    words(out, values)?;
    close(out)
}

/// Adds a section that is a typed list.
#[tactic(auto, using(crate::proofs::Spaced::spacing))]
fn typed_section(out: &mut Text, key: &[u8], names: &TypedWords) -> Result<(), OutOfMemory>
    ensures { OnOk result (out.new ≡ out.old ++ spaced (section key.now (typed_words names.now))) }
{
    open(out, key)?;
    typed_list(out, names)?;
    close(out)
}

/// Adds some predicates.
fn predicates(out: &mut Text, predicates: &List<PredText>) -> Result<(), OutOfMemory>
    ensures { OnOk result (out.new ≡ out.old ++ spaced (flat_map predicate_words predicates.now)) }
{
    for each in predicates.as_slice() {
        predicate(out, each)?;
    }
    Ok(())
}

/// Adds the section of the predicates.
#[tactic(auto, using(crate::proofs::Spaced::spacing))]
fn predicates_section(out: &mut Text, all: &List<PredText>) -> Result<(), OutOfMemory>
    ensures { OnOk result (out.new ≡ out.old ++ spaced (section (codes ":predicates") (flat_map predicate_words all.now))) }
{
    open(out, b":predicates")?;
    predicates(out, all)?;
    close(out)
}

/// Adds the parameters of an action.
#[tactic(auto, using(crate::proofs::Spaced::spacing))]
fn parameters(out: &mut Text, params: &TypedWords) -> Result<(), OutOfMemory>
    ensures { OnOk result (out.new ≡ out.old ++ spaced (codes ":parameters" ∷ in_parentheses (typed_words params.now))) }
{
    word(out, b":parameters")?;
    word(out, b"(")?;
    typed_list(out, params)?;
    close(out)
}

/// Adds the precondition of an action.
#[tactic(auto, using(crate::proofs::Spaced::spacing))]
fn precondition(out: &mut Text, pre: &List<AtomText>) -> Result<(), OutOfMemory>
    ensures { OnOk result (out.new ≡ out.old ++ spaced (codes ":precondition" ∷ formula_words pre.now)) }
{
    word(out, b":precondition")?;
    formula(out, pre)
}

/// Adds the parts of an action.
#[tactic(auto, using(crate::proofs::Spaced::spacing), unfolding(crate::specs::Printing::part_words))]
fn parts(out: &mut Text, action: &ActionText) -> Result<(), OutOfMemory>
    ensures { OnOk result (out.new ≡ out.old ++ spaced (part_words action.now)) }
{
    parameters(out, &action.params)?;
    precondition(out, &action.pre)?;
    word(out, b":effect")?;
    effect(out, &action.add, &action.del)
}

/// Adds an action.
#[tactic(auto, using(crate::proofs::Spaced::spacing), unfolding(crate::specs::Printing::action_words))]
fn action(out: &mut Text, action: &ActionText) -> Result<(), OutOfMemory>
    ensures { OnOk result (out.new ≡ out.old ++ spaced (action_words action.now)) }
{
    open(out, b":action")?;
    word(out, action.name.text.as_slice())?;
    parts(out, action)?;
    close(out)
}

/// Adds some actions.
fn actions(out: &mut Text, actions: &List<ActionText>) -> Result<(), OutOfMemory>
    ensures { OnOk result (out.new ≡ out.old ++ spaced (flat_map action_words actions.now)) }
{
    for each in actions.as_slice() {
        action(out, each)?;
    }
    Ok(())
}

/// Adds the sections of a domain.
#[tactic(auto, using(crate::proofs::Spaced::spacing), unfolding(crate::specs::Printing::domain_section_words))]
pub(crate) fn domain_sections(out: &mut Text, domain: &DomainText) -> Result<(), OutOfMemory>
    ensures { OnOk result (out.new ≡ out.old ++ spaced (domain_section_words domain.now)) }
{
    words_section(out, b":requirements", &domain.requirements)?;
    typed_section(out, b":types", &domain.types)?;
    typed_section(out, b":constants", &domain.constants)?;
    predicates_section(out, &domain.predicates)?;
    actions(out, &domain.actions)
}

/// Adds the section of a problem's start.
#[tactic(auto, using(crate::proofs::Spaced::spacing))]
fn init_section(out: &mut Text, init: &List<AtomText>) -> Result<(), OutOfMemory>
    ensures { OnOk result (out.new ≡ out.old ++ spaced (section (codes ":init") (flat_map atom_words init.now))) }
{
    open(out, b":init")?;
    atoms(out, init)?;
    close(out)
}

/// Adds the section of a problem's goal.
#[tactic(auto, using(crate::proofs::Spaced::spacing))]
fn goal_section(out: &mut Text, goal: &List<AtomText>) -> Result<(), OutOfMemory>
    ensures { OnOk result (out.new ≡ out.old ++ spaced (section (codes ":goal") (formula_words goal.now))) }
{
    open(out, b":goal")?;
    formula(out, goal)?;
    close(out)
}

/// Adds the sections of a problem.
#[tactic(auto, using(crate::proofs::Spaced::spacing), unfolding(crate::specs::Printing::problem_section_words))]
pub(crate) fn problem_sections(out: &mut Text, problem: &ProblemText) -> Result<(), OutOfMemory>
    ensures { OnOk result (out.new ≡ out.old ++ spaced (problem_section_words problem.now)) }
{
    word_section(out, b":domain", &problem.domain)?;
    words_section(out, b":requirements", &problem.requirements)?;
    typed_section(out, b":objects", &problem.objects)?;
    init_section(out, &problem.init)?;
    goal_section(out, &problem.goal)
}
