ghost use Rattle.std.specs.Prelude.{◌≡◌, ◌≤◌, List, [], ◌∷◌, ℕ, Result, Err, codes};
ghost use Rattle.evaluations.specs.Orders.{IsReadOrder, order_text};
ghost use Rattle.evaluations.specs.declared.evaluation.Evaluation.{Evaluation};
ghost use Rattle.evaluations.specs.declared.evaluation.Evaluation.TheVariants.{Jumps, UndefinedLines, RepeatedInstructions, LinesBehind, MissingAtoms, Steps};
ghost use Rattle.evaluations.specs.declared.entries.TheConstants.{MAX_ENTRIES};
ghost use Rattle.evaluations.specs.declared.refusal.OrderRefusal.{OrderRefusal};
ghost use Rattle.evaluations.specs.declared.refusal.OrderRefusal.TheVariants.{Name, Repeated};

/// A law: the greatest number of entries of a key, as a number.
pub fn limits()
    ensures { MAX_ENTRIES ≡ 6 }
{}

/// A law: the text of the order of all six evaluations, which shows their names.
pub fn names()
    ensures { order_text (Jumps ∷ UndefinedLines ∷ RepeatedInstructions ∷ LinesBehind ∷ MissingAtoms ∷ Steps ∷ []) ≡ codes "e1,e2,e3,e4,e5,e6" }
{}

/// A law: a refusal of a text tells a place of at most six.
pub fn refusals_come_early()
    ensures name { (text : List ℕ) (place : ℕ) → IsReadOrder text (Err (Name place)) → place ≤ MAX_ENTRIES }
    ensures repeated { (text : List ℕ) (place : ℕ) → IsReadOrder text (Err (Repeated place)) → place ≤ MAX_ENTRIES }
{}

/// A law: a text is read in one way.
pub fn at_most_one_reading()
    ensures { (text : List ℕ) (one other : Result (List Evaluation) OrderRefusal) →
        IsReadOrder text one → IsReadOrder text other → one ≡ other }
{}
