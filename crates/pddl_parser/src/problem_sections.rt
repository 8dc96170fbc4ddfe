ghost use Rattle.std.specs.Prelude.{◌≡◌, ◌&&◌};
ghost use Rattle.std.specs.List.{list_any};
ghost use Rattle.pddl_lexer.specs.declared.lexer.Kind.TheVariants.{RightParen, Name, Keyword};
ghost use Rattle.pddl_forms.specs.declared.formulas.Terms.TheVariants.{Names};
ghost use Rattle.pddl_forms.specs.Offending.{problem_keywords};
ghost use Rattle.pddl_parser.specs.Grammar.{no_problem_sections};
ghost use Rattle.pddl_forms.specs.Inner.Reading.{Reads, comes, comes_as, any_word, many, atom, atom_body, closed_item, conjunction};
ghost use Rattle.pddl_forms.specs.Inner.TypedReading.{typed_list};
ghost use Rattle.pddl_parser.specs.Inner.Choosing.{requirement, any_may, choice_of};
ghost use Rattle.pddl_parser.specs.Inner.SectionReading.{put, problem_choices, section_of, stand_needed, problem_sections, problem_of, problem};

use crate::atom_lists::ground_atoms;
use crate::keys::{is_due, or_empty, or_no_words, why_no_key};
use crate::shared_parts::{opening, requirements};
use crate::texts::ProblemText;
use flag_rules::{List, Text};
use pddl_forms::{AtomText, Cursor, Stop, Terms, TypedWords, Why, Word, formula, typed_list};
use pddl_lexer::Kind;
use std::alloc::Global;
use std::marker::Model;

/// The sections of a problem that stand already.
#[derive(Debug, Drop)]
struct ProblemSections {
    domain: Option<Word>,
    requirements: Option<List<Word>>,
    objects: Option<TypedWords>,
    init: Option<List<AtomText>>,
    goal: Option<List<AtomText>>,
}

impl Model for ProblemSections {
    ghost use Rattle.pddl_parser.specs.Sections.{ProblemSections as Sections};

    ghost Value = { Sections };

    ghost view = { λ seen. record { domain = seen.domain; requirements = seen.requirements; objects = seen.objects; init = seen.init; goal = seen.goal } };
}

impl ProblemSections {
    /// None of the sections.
    fn none() -> ProblemSections
        ensures { result ≡ no_problem_sections }
    {
        ProblemSections {
            domain: None,
            requirements: None,
            objects: None,
            init: None,
            goal: None,
        }
    }

    /// Whether a section may still come.
    fn may_grow(&self) -> bool
        ensures { result ≡ any_may problem_choices self.now }
    {
        self.domain.is_none()
            || self.requirements.is_none()
            || self.objects.is_none()
            || self.init.is_none()
            || self.goal.is_none()
    }

    /// Whether the sections that a problem needs stand, and the right parenthesis comes.
    fn ends(&self, cursor: &Cursor<'_>) -> bool
        ensures { result ≡ (comes RightParen cursor.now && stand_needed self.now) }
    {
        cursor.is_at(Kind::RightParen) && self.domain.is_some() && self.goal.is_some()
    }
}

/// Whether the keyword of a section comes first.
fn is_at_section(cursor: &Cursor<'_>) -> bool
    ensures { result ≡ list_any (λ key. comes_as Keyword key cursor.now) problem_keywords }
{
    cursor.is_at_word(Kind::Keyword, b":domain")
        || cursor.is_at_word(Kind::Keyword, b":requirements")
        || cursor.is_at_word(Kind::Keyword, b":objects")
        || cursor.is_at_word(Kind::Keyword, b":init")
        || cursor.is_at_word(Kind::Keyword, b":goal")
}

/// `NAME )`
#[tactic(auto, unfolding(pddl_forms::specs::Inner::Reading::and_then))]
fn closed_name(alloc: Global, cursor: &mut Cursor<'_>) -> Result<Word, Stop>
    ensures { Reads (closed_item (any_word Name) cursor.old) result cursor.new }
{
    let name = cursor.any_word(alloc, Kind::Name)?;
    cursor.mark(Kind::RightParen)?;
    Ok(name)
}

/// `gformula )`
#[tactic(auto, unfolding(pddl_forms::specs::Inner::Reading::and_then))]
fn closed_formula(alloc: Global, cursor: &mut Cursor<'_>) -> Result<List<AtomText>, Stop>
    ensures { Reads (closed_item (conjunction (atom_body Names)) cursor.old) result cursor.new }
{
    let atoms = formula(alloc, cursor, Terms::Names)?;
    cursor.mark(Kind::RightParen)?;
    Ok(atoms)
}

/// `NAME )`, the domain.
#[tactic(auto, unfolding(pddl_forms::specs::Inner::Reading::and_then))]
fn domain_section(
    alloc: Global,
    cursor: &mut Cursor<'_>,
    seen: ProblemSections,
) -> Result<ProblemSections, Stop>
    ensures { Reads (put (closed_item (any_word Name)) (λ seen of. record seen { domain = Some of }) seen cursor.old) result cursor.new }
{
    let domain = Some(closed_name(alloc, cursor)?);
    Ok(ProblemSections { domain, ..seen })
}

/// `REQ* )`
#[tactic(auto, unfolding(pddl_forms::specs::Inner::Reading::and_then))]
fn requirements_section(
    alloc: Global,
    cursor: &mut Cursor<'_>,
    seen: ProblemSections,
) -> Result<ProblemSections, Stop>
    ensures { Reads (put (many requirement) (λ seen words. record seen { requirements = Some words }) seen cursor.old) result cursor.new }
{
    let requirements = Some(requirements(alloc, cursor)?);
    Ok(ProblemSections {
        requirements,
        ..seen
    })
}

/// `names )`
#[tactic(auto, unfolding(pddl_forms::specs::Inner::Reading::and_then))]
fn objects_section(
    alloc: Global,
    cursor: &mut Cursor<'_>,
    seen: ProblemSections,
) -> Result<ProblemSections, Stop>
    ensures { Reads (put (typed_list Name) (λ seen names. record seen { objects = Some names }) seen cursor.old) result cursor.new }
{
    let objects = Some(typed_list(alloc, cursor, Kind::Name)?);
    Ok(ProblemSections { objects, ..seen })
}

/// `gatom* )`
#[tactic(auto, unfolding(pddl_forms::specs::Inner::Reading::and_then))]
fn init_section(
    alloc: Global,
    cursor: &mut Cursor<'_>,
    seen: ProblemSections,
) -> Result<ProblemSections, Stop>
    ensures { Reads (put (many (atom Names)) (λ seen atoms. record seen { init = Some atoms }) seen cursor.old) result cursor.new }
{
    let init = Some(ground_atoms(alloc, cursor)?);
    Ok(ProblemSections { init, ..seen })
}

/// `gformula )`
#[tactic(auto, unfolding(pddl_forms::specs::Inner::Reading::and_then))]
fn goal_section(
    alloc: Global,
    cursor: &mut Cursor<'_>,
    seen: ProblemSections,
) -> Result<ProblemSections, Stop>
    ensures { Reads (put (closed_item (conjunction (atom_body Names))) (λ seen atoms. record seen { goal = Some atoms }) seen cursor.old) result cursor.new }
{
    let goal = Some(closed_formula(alloc, cursor)?);
    Ok(ProblemSections { goal, ..seen })
}

/// The keyword of a section and what follows it, with the right parenthesis.
fn keyed_section(
    alloc: Global,
    cursor: &mut Cursor<'_>,
    seen: ProblemSections,
) -> Result<ProblemSections, Stop>
    ensures { Reads (choice_of problem_keywords problem_choices seen cursor.old) result cursor.new }
{
    if is_due(cursor, b":domain", &seen.domain) {
        cursor.pass();
        return domain_section(alloc, cursor, seen);
    }
    if is_due(cursor, b":requirements", &seen.requirements) {
        cursor.pass();
        return requirements_section(alloc, cursor, seen);
    }
    if is_due(cursor, b":objects", &seen.objects) {
        cursor.pass();
        return objects_section(alloc, cursor, seen);
    }
    if is_due(cursor, b":init", &seen.init) {
        cursor.pass();
        return init_section(alloc, cursor, seen);
    }
    if is_due(cursor, b":goal", &seen.goal) {
        cursor.pass();
        return goal_section(alloc, cursor, seen);
    }
    let why = why_no_key(cursor, is_at_section(cursor), seen.may_grow());
    Err(Stop::Refused(why))
}

/// One section, which does not stand yet.
fn section(
    alloc: Global,
    cursor: &mut Cursor<'_>,
    seen: ProblemSections,
) -> Result<ProblemSections, Stop>
    ensures { Reads (section_of problem_keywords problem_choices seen cursor.old) result cursor.new }
{
    if !seen.may_grow() {
        return Err(Stop::Refused(Why::Shape));
    }
    cursor.mark(Kind::LeftParen)?;
    keyed_section(alloc, cursor, seen)
}

/// `psection* )`, with the sections that a problem needs.
fn sections_of(alloc: Global, cursor: &mut Cursor<'_>) -> Result<ProblemSections, Stop>
    ensures { Reads (problem_sections no_problem_sections cursor.old) result cursor.new }
{
    let mut seen = ProblemSections::none();
    while !seen.ends(cursor) {
        seen = section(alloc, cursor, seen)?;
    }
    cursor.pass();
    Ok(seen)
}

/// A problem of these sections, of which `:domain` is one. Another that is absent is empty.
fn problem_of(alloc: Global, name: Word, sections: ProblemSections) -> ProblemText
    ensures { result ≡ problem_of name sections }
{
    let no_word = Word {
        text: Text::new(alloc),
        at: 0,
    };
    ProblemText {
        name,
        domain: sections.domain.unwrap_or(no_word),
        requirements: or_empty(alloc, sections.requirements),
        objects: or_no_words(alloc, sections.objects),
        init: or_empty(alloc, sections.init),
        goal: or_empty(alloc, sections.goal),
    }
}

/// The text of a problem, with what stands after it left.
#[tactic(auto, unfolding(pddl_forms::specs::Inner::Reading::and_then, crate::specs::Inner::SectionReading::problem))]
pub(crate) fn problem_text(alloc: Global, cursor: &mut Cursor<'_>) -> Result<ProblemText, Stop>
    ensures { Reads (problem cursor.old) result cursor.new }
{
    let name = opening(alloc, cursor, b"problem")?;
    let sections = sections_of(alloc, cursor)?;
    Ok(problem_of(alloc, name, sections))
}
