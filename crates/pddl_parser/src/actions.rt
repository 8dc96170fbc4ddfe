ghost use Rattle.std.specs.Prelude.{◌≡◌, IfOk};
ghost use Rattle.std.specs.List.{list_any};
ghost use Rattle.pddl_lexer.specs.declared.lexer.Kind.TheVariants.{Keyword};
ghost use Rattle.pddl_forms.specs.Offending.{part_keywords};
ghost use Rattle.pddl_parser.specs.Grammar.{no_parts, action_of};
ghost use Rattle.pddl_forms.specs.Inner.Reading.{Reads, comes_as};
ghost use Rattle.pddl_parser.specs.Inner.Choosing.{any_may, choice_of};
ghost use Rattle.pddl_parser.specs.Inner.SectionReading.{parameters_choice, precondition_choice, effect_choice, part_choices, parts, action};

use crate::keys::{is_due, or_empty, or_no_words, why_no_key};
use crate::texts::ActionText;
use flag_rules::{List, OutOfMemory};
use pddl_forms::{
    AtomChange, AtomText, Cursor, Stop, Terms, TypedWords, Word, effect, formula, split_changes,
    typed_list,
};
use pddl_lexer::Kind;
use std::alloc::Global;
use std::marker::Model;

/// The parts of an action that stand already.
#[derive(Debug, Drop)]
struct ActionParts {
    params: Option<TypedWords>,
    pre: Option<List<AtomText>>,
    changes: Option<List<AtomChange>>,
}

impl Model for ActionParts {
    ghost use Rattle.pddl_parser.specs.Sections.{ActionParts as Parts};

    ghost Value = { Parts };

    ghost view = { λ parts. record { params = parts.params; pre = parts.pre; changes = parts.changes } };
}

impl ActionParts {
    /// None of the parts.
    fn none() -> ActionParts
        ensures { result ≡ no_parts }
    {
        ActionParts {
            params: None,
            pre: None,
            changes: None,
        }
    }

    /// Whether a part may still come.
    fn may_grow(&self) -> bool
        ensures { result ≡ any_may part_choices self.now }
    {
        self.params.is_none() || self.pre.is_none() || self.changes.is_none()
    }
}

/// Whether the keyword of a part comes first.
fn is_at_part(cursor: &Cursor<'_>) -> bool
    ensures { result ≡ list_any (λ key. comes_as Keyword key cursor.now) part_keywords }
{
    cursor.is_at_word(Kind::Keyword, b":parameters")
        || cursor.is_at_word(Kind::Keyword, b":precondition")
        || cursor.is_at_word(Kind::Keyword, b":effect")
}

/// `( vars )`
#[tactic(auto, unfolding(pddl_forms::specs::Inner::Reading::and_then))]
fn parameters(
    alloc: Global,
    cursor: &mut Cursor<'_>,
    seen: ActionParts,
) -> Result<ActionParts, Stop>
    ensures { Reads (parameters_choice.body seen cursor.old) result cursor.new }
{
    cursor.mark(Kind::LeftParen)?;
    let params = Some(typed_list(alloc, cursor, Kind::Variable)?);
    Ok(ActionParts { params, ..seen })
}

/// `formula`
#[tactic(auto, unfolding(pddl_forms::specs::Inner::Reading::and_then))]
fn precondition(
    alloc: Global,
    cursor: &mut Cursor<'_>,
    seen: ActionParts,
) -> Result<ActionParts, Stop>
    ensures { Reads (precondition_choice.body seen cursor.old) result cursor.new }
{
    let pre = Some(formula(alloc, cursor, Terms::NamesAndVariables)?);
    Ok(ActionParts { pre, ..seen })
}

/// `effect`
#[tactic(auto, unfolding(pddl_forms::specs::Inner::Reading::and_then))]
fn effect_part(
    alloc: Global,
    cursor: &mut Cursor<'_>,
    seen: ActionParts,
) -> Result<ActionParts, Stop>
    ensures { Reads (effect_choice.body seen cursor.old) result cursor.new }
{
    let changes = Some(effect(alloc, cursor)?);
    Ok(ActionParts { changes, ..seen })
}

/// One part, which does not stand yet.
fn part(alloc: Global, cursor: &mut Cursor<'_>, seen: ActionParts) -> Result<ActionParts, Stop>
    ensures { Reads (choice_of part_keywords part_choices seen cursor.old) result cursor.new }
{
    if is_due(cursor, b":parameters", &seen.params) {
        cursor.pass();
        return parameters(alloc, cursor, seen);
    }
    if is_due(cursor, b":precondition", &seen.pre) {
        cursor.pass();
        return precondition(alloc, cursor, seen);
    }
    if is_due(cursor, b":effect", &seen.changes) {
        cursor.pass();
        return effect_part(alloc, cursor, seen);
    }
    let why = why_no_key(cursor, is_at_part(cursor), seen.may_grow());
    Err(Stop::Refused(why))
}

/// `part* )`
fn parts_of(alloc: Global, cursor: &mut Cursor<'_>) -> Result<ActionParts, Stop>
    ensures { Reads (parts no_parts cursor.old) result cursor.new }
{
    let mut seen = ActionParts::none();
    while !cursor.is_at(Kind::RightParen) {
        seen = part(alloc, cursor, seen)?;
    }
    cursor.pass();
    Ok(seen)
}

/// An action of these parts. A part that is absent is empty.
fn action_of(alloc: Global, name: Word, parts: ActionParts) -> Result<ActionText, OutOfMemory>
    ensures { IfOk result (λ a. a ≡ action_of name parts) }
{
    let (add, del) = split_changes(alloc, or_empty(alloc, parts.changes))?;
    Ok(ActionText {
        name,
        params: or_no_words(alloc, parts.params),
        pre: or_empty(alloc, parts.pre),
        add,
        del,
    })
}

/// `NAME part* )`
#[tactic(auto, unfolding(pddl_forms::specs::Inner::Reading::and_then, crate::specs::Inner::SectionReading::action))]
pub(crate) fn action(alloc: Global, cursor: &mut Cursor<'_>) -> Result<ActionText, Stop>
    ensures { Reads (action cursor.old) result cursor.new }
{
    let name = cursor.any_word(alloc, Kind::Name)?;
    let parts = parts_of(alloc, cursor)?;
    Ok(action_of(alloc, name, parts)?)
}
