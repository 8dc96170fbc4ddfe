ghost use Rattle.std.specs.Prelude.{◌≡◌, [], ◌∷◌, ◌++◌};
ghost use Rattle.std.specs.List.{list_any};
ghost use Rattle.pddl_lexer.specs.declared.lexer.Kind.TheVariants.{Name, Keyword};
ghost use Rattle.pddl_forms.specs.Offending.{domain_keywords};
ghost use Rattle.pddl_parser.specs.Grammar.{no_domain_sections, domain_of};
ghost use Rattle.pddl_forms.specs.Inner.Reading.{Reads, comes_as, many};
ghost use Rattle.pddl_forms.specs.Inner.TypedReading.{typed_list};
ghost use Rattle.pddl_parser.specs.Inner.Choosing.{requirement, choice_of};
ghost use Rattle.pddl_parser.specs.Inner.SectionReading.{predicate, action, put, domain_choices, section_of, domain_sections, domain};

use crate::actions::action;
use crate::atom_lists::predicates;
use crate::keys::{is_due, or_empty, or_no_words, why_no_key};
use crate::shared_parts::{opening, requirements};
use crate::texts::{ActionText, DomainText, PredText};
use flag_rules::List;
use pddl_forms::{Cursor, Stop, TypedWords, Word, typed_list};
use pddl_lexer::Kind;
use std::alloc::Global;
use std::marker::Model;

/// The sections of a domain that stand already.
#[derive(Debug, Drop)]
struct DomainSections {
    requirements: Option<List<Word>>,
    types: Option<TypedWords>,
    constants: Option<TypedWords>,
    predicates: Option<List<PredText>>,
    actions: List<ActionText>,
}

impl Model for DomainSections {
    ghost use Rattle.pddl_parser.specs.Sections.{DomainSections as Sections};

    ghost Value = { Sections };

    ghost view = { λ seen. record { requirements = seen.requirements; types = seen.types; constants = seen.constants; predicates = seen.predicates; actions = seen.actions } };
}

impl DomainSections {
    /// None of the sections.
    fn none(alloc: Global) -> DomainSections
        ensures { result ≡ no_domain_sections }
    {
        DomainSections {
            requirements: None,
            types: None,
            constants: None,
            predicates: None,
            actions: List::new(alloc),
        }
    }
}

/// Whether the keyword of a section comes first.
fn is_at_section(cursor: &Cursor<'_>) -> bool
    ensures { result ≡ list_any (λ key. comes_as Keyword key cursor.now) domain_keywords }
{
    cursor.is_at_word(Kind::Keyword, b":requirements")
        || cursor.is_at_word(Kind::Keyword, b":types")
        || cursor.is_at_word(Kind::Keyword, b":constants")
        || cursor.is_at_word(Kind::Keyword, b":predicates")
        || cursor.is_at_word(Kind::Keyword, b":action")
}

/// `REQ* )`
#[tactic(auto, unfolding(pddl_forms::specs::Inner::Reading::and_then))]
fn requirements_section(
    alloc: Global,
    cursor: &mut Cursor<'_>,
    seen: DomainSections,
) -> Result<DomainSections, Stop>
    ensures { Reads (put (many requirement) (λ seen words. record seen { requirements = Some words }) seen cursor.old) result cursor.new }
{
    let requirements = Some(requirements(alloc, cursor)?);
    Ok(DomainSections {
        requirements,
        ..seen
    })
}

/// `names )`, the types.
#[tactic(auto, unfolding(pddl_forms::specs::Inner::Reading::and_then))]
fn types_section(
    alloc: Global,
    cursor: &mut Cursor<'_>,
    seen: DomainSections,
) -> Result<DomainSections, Stop>
    ensures { Reads (put (typed_list Name) (λ seen names. record seen { types = Some names }) seen cursor.old) result cursor.new }
{
    let types = Some(typed_list(alloc, cursor, Kind::Name)?);
    Ok(DomainSections { types, ..seen })
}

/// `names )`, the constants.
#[tactic(auto, unfolding(pddl_forms::specs::Inner::Reading::and_then))]
fn constants_section(
    alloc: Global,
    cursor: &mut Cursor<'_>,
    seen: DomainSections,
) -> Result<DomainSections, Stop>
    ensures { Reads (put (typed_list Name) (λ seen names. record seen { constants = Some names }) seen cursor.old) result cursor.new }
{
    let constants = Some(typed_list(alloc, cursor, Kind::Name)?);
    Ok(DomainSections { constants, ..seen })
}

/// `pred* )`
#[tactic(auto, unfolding(pddl_forms::specs::Inner::Reading::and_then))]
fn predicates_section(
    alloc: Global,
    cursor: &mut Cursor<'_>,
    seen: DomainSections,
) -> Result<DomainSections, Stop>
    ensures { Reads (put (many predicate) (λ seen preds. record seen { predicates = Some preds }) seen cursor.old) result cursor.new }
{
    let predicates = Some(predicates(alloc, cursor)?);
    Ok(DomainSections { predicates, ..seen })
}

/// `NAME part* )`
#[tactic(auto, unfolding(pddl_forms::specs::Inner::Reading::and_then))]
fn action_section(
    alloc: Global,
    cursor: &mut Cursor<'_>,
    mut seen: DomainSections,
) -> Result<DomainSections, Stop>
    ensures { Reads (put action (λ seen a. record seen { actions = seen.actions ++ a ∷ [] }) seen cursor.old) result cursor.new }
{
    seen.actions.push(action(alloc, cursor)?)?;
    Ok(seen)
}

/// The keyword of a section and what follows it, with the right parenthesis.
fn keyed_section(
    alloc: Global,
    cursor: &mut Cursor<'_>,
    seen: DomainSections,
) -> Result<DomainSections, Stop>
    ensures { Reads (choice_of domain_keywords domain_choices seen cursor.old) result cursor.new }
{
    if is_due(cursor, b":requirements", &seen.requirements) {
        cursor.pass();
        return requirements_section(alloc, cursor, seen);
    }
    if is_due(cursor, b":types", &seen.types) {
        cursor.pass();
        return types_section(alloc, cursor, seen);
    }
    if is_due(cursor, b":constants", &seen.constants) {
        cursor.pass();
        return constants_section(alloc, cursor, seen);
    }
    if is_due(cursor, b":predicates", &seen.predicates) {
        cursor.pass();
        return predicates_section(alloc, cursor, seen);
    }
    if cursor.is_at_word(Kind::Keyword, b":action") {
        cursor.pass();
        return action_section(alloc, cursor, seen);
    }
    let why = why_no_key(cursor, is_at_section(cursor), true);
    Err(Stop::Refused(why))
}

/// One section. Those but an action stand once at most.
fn section(
    alloc: Global,
    cursor: &mut Cursor<'_>,
    seen: DomainSections,
) -> Result<DomainSections, Stop>
    ensures { Reads (section_of domain_keywords domain_choices seen cursor.old) result cursor.new }
{
    cursor.mark(Kind::LeftParen)?;
    keyed_section(alloc, cursor, seen)
}

/// `dsection* )`
fn sections_of(alloc: Global, cursor: &mut Cursor<'_>) -> Result<DomainSections, Stop>
    ensures { Reads (domain_sections no_domain_sections cursor.old) result cursor.new }
{
    let mut seen = DomainSections::none(alloc);
    while !cursor.is_at(Kind::RightParen) {
        seen = section(alloc, cursor, seen)?;
    }
    cursor.pass();
    Ok(seen)
}

/// A domain of these sections. A section that is absent is empty.
fn domain_of(alloc: Global, name: Word, sections: DomainSections) -> DomainText
    ensures { result ≡ domain_of name sections }
{
    DomainText {
        name,
        requirements: or_empty(alloc, sections.requirements),
        types: or_no_words(alloc, sections.types),
        constants: or_no_words(alloc, sections.constants),
        predicates: or_empty(alloc, sections.predicates),
        actions: sections.actions,
    }
}

/// The text of a domain, with what stands after it left.
#[tactic(auto, unfolding(pddl_forms::specs::Inner::Reading::and_then, crate::specs::Inner::SectionReading::domain))]
pub(crate) fn domain_text(alloc: Global, cursor: &mut Cursor<'_>) -> Result<DomainText, Stop>
    ensures { Reads (domain cursor.old) result cursor.new }
{
    let name = opening(alloc, cursor, b"domain")?;
    let sections = sections_of(alloc, cursor)?;
    Ok(domain_of(alloc, name, sections))
}
