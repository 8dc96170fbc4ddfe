ghost use Rattle.std.specs.Prelude.{◌≡◌, ◌≢◌, ◌↔◌, ◌⊎◌, ℕ, List, IsTrue, Contains, length};
ghost use Rattle.ground_state.specs.declared.parts.TypeEntry.{TypeEntry};
ghost use Rattle.ground_state.specs.declared.parts.Fact.{Fact};
ghost use Rattle.ground_state.specs.declared.parts.TaskParts.{TaskParts};
ghost use Rattle.ground_state.specs.declared.parts.InstanceParts.{InstanceParts};
ghost use Rattle.ground_state.specs.declared.parts.TheConstants.{MAX_OBJECTS, MAX_PARAMETERS, MAX_ARITY, MAX_ATOMS};
ghost use Rattle.ground_state.specs.Task.{AreTypes, IsTask, Reaches, reaches};
ghost use Rattle.ground_state.specs.Instance.{IsInstance};
ghost use Rattle.ground_state.specs.State.{State, missing};
ghost use Rattle.ground_state.specs.Ground.{Ground, ground_of, Holds, IsStateOf, AreMissing};
ghost use Rattle.ground_state.specs.Action.{IsTableOf, IsAction, Adds, Deletes, Applicable, is_applicable, result_of, state_after};

/// A law: the numbers of the limits.
pub fn limits()
    ensures objects { MAX_OBJECTS ≡ 256 }
    ensures parameters { MAX_PARAMETERS ≡ 6 }
    ensures arity { MAX_ARITY ≡ 4 }
    ensures atoms { MAX_ATOMS ≡ 16384 }
{}

/// A law: no goal atom is missing in a state exactly where each fact that the goal lists is true in it.
pub fn goal_is_met_exactly_where_its_facts_hold()
    ensures { (task : TaskParts) (instance : InstanceParts) (state : State) → IsInstance task instance →
        IsStateOf (ground_of task instance) state →
        (missing (ground_of task instance).goal state ≡ 0)
        ↔ ((fact : Fact) → Contains instance.goal fact → Holds (ground_of task instance) state fact) }
{}

/// A law: no goal atom is missing at the start exactly where each fact that the goal lists is listed as true at the
/// start.
pub fn goal_is_met_exactly_where_listed()
    ensures { (task : TaskParts) (instance : InstanceParts) → IsInstance task instance →
        (missing (ground_of task instance).goal (ground_of task instance).initial ≡ 0)
        ↔ ((fact : Fact) → Contains instance.goal fact → Contains instance.init fact) }
{}

/// A law: where a goal atom is missing at the start, the goal lists a fact that is not listed as true at the start.
pub fn unmet_goal_has_a_fact_not_listed()
    ensures { (task : TaskParts) (instance : InstanceParts) → IsInstance task instance →
        missing (ground_of task instance).goal (ground_of task instance).initial ≢ 0 →
        (fact : Fact) × Contains instance.goal fact × ¬ Contains instance.init fact }
{}

/// A law: at the start an atom holds exactly where `:init` lists it.
pub fn atom_holds_at_the_start_exactly_where_listed()
    ensures { (task : TaskParts) (instance : InstanceParts) (fact : Fact) → IsInstance task instance →
        Holds (ground_of task instance) (ground_of task instance).initial fact ↔ Contains instance.init fact }
{}

/// A law: an atom holds in the result of an action exactly where the action adds it, or it held and the action does
/// not delete it.
pub fn atom_holds_in_the_result_exactly_where_added_or_kept()
    ensures { (task : TaskParts) (table : Ground) (schema : ℕ) (args : List ℕ) (state : State) (fact : Fact) →
        IsTask task → IsTableOf task table → IsAction task table schema args → IsStateOf table state →
        Holds table (result_of task table schema args state) fact
        ↔ (Adds task schema args fact ⊎ (Holds table state fact × ¬ Deletes task schema args fact)) }
{}

/// A law: acting leads to the result of the action where it is applicable, and elsewhere changes nothing.
pub fn acting_gives_the_result_exactly_where_applicable()
    ensures applicable { (task : TaskParts) (table : Ground) (schema : ℕ) (args : List ℕ) (state : State) →
        IsTask task → IsAction task table schema args → Applicable task table schema args state →
        state_after task table schema args state ≡ result_of task table schema args state }
    ensures elsewhere { (task : TaskParts) (table : Ground) (schema : ℕ) (args : List ℕ) (state : State) →
        IsTask task → IsAction task table schema args → ¬ Applicable task table schema args state →
        state_after task table schema args state ≡ state }
{}

/// A law: how many atoms of a goal are missing in a state is how many different atoms the goal lists that do not hold
/// in the state.
pub fn missing_atoms_are_those_listed_that_do_not_hold()
    ensures { (task : TaskParts) (instance : InstanceParts) (state : State) → IsInstance task instance →
        IsStateOf (ground_of task instance) state →
        (atoms : List Fact) × AreMissing (ground_of task instance) instance.goal state atoms
        × (missing (ground_of task instance).goal state ≡ length atoms) }
{}

/// A law: among valid types, a number is one that is another one or stands under it exactly where it is so by fewer
/// steps than there are types.
pub fn type_is_reached_exactly_where_tested()
    ensures { (types : List TypeEntry) (number above : ℕ) → AreTypes types →
        IsTrue (reaches types number above) ↔ Reaches types number above }
{}

/// A law: the test of an action of a task says exactly where it is applicable.
pub fn action_is_applicable_exactly_where_tested()
    ensures { (task : TaskParts) (table : Ground) (schema : ℕ) (args : List ℕ) (state : State) → IsTask task →
        IsAction task table schema args →
        IsTrue (is_applicable task table schema args state) ↔ Applicable task table schema args state }
{}
