ghost use Rattle.std.specs.Prelude.{◌≡◌, ◌≢◌, ℕ, ◌<◌, ◌≤◌, List, [], ◌∷◌};
ghost use Rattle.program_model.specs.declared.alphabet.TheConstants.{MAX_LINES};
ghost use Rattle.program_model.specs.declared.machine.TheConstants.{MAX_INSTANCES, MAX_POINTERS};
ghost use Rattle.refutation_tree.specs.declared.evidence.Outcome.TheVariants as outcomes;
ghost use Rattle.refutation_tree.specs.declared.evidence.Answer.{Answer};
ghost use Rattle.refutation_tree.specs.declared.ranges.TheConstants.{MAX_SPLITS, MAX_STEPS};
ghost use Rattle.refutation_tree.specs.Accepted.{IsAccepted};
ghost use Rattle.refutation_tree.specs.Grammar.{IsFromOneTo};
ghost use Rattle.synthesis.specs.Search.{Setting, Node, Leads, newest, first_solved, first_limited};
ghost use Rattle.synthesis.specs.Answers.{IsAnswer};
ghost use Rattle.synthesis.specs.Enough.{splits_up_to, IsEnoughFor, IsDecided};
ghost use Rattle.synthesis.specs.Spent.{SpendsBudget, SpendsRun};

/// A law over all machines that have an operation: the answer of a search is accepted, whatever orders the nodes that wait
/// and whichever children are passed over, where the numbers of the machine, the lines, the budget and the limit of steps are
/// in the ranges of the grammar of answers.
pub fn searched_answers_are_accepted<C>()
    ensures { (setting : Setting C) (budget lines : ℕ) (answer : Answer) →
        0 < setting.machine.ops → IsFromOneTo MAX_POINTERS setting.machine.pointers →
        IsFromOneTo MAX_INSTANCES setting.machine.instances → IsFromOneTo MAX_LINES lines →
        budget ≤ MAX_SPLITS → setting.limit ≤ MAX_STEPS → IsAnswer setting budget lines answer →
        IsAccepted setting.machine setting.skips lines answer }
{}

/// A law over all machines: a search has at most one answer, with every mark, stamp and step in it.
pub fn at_most_one_answer<C>()
    ensures { (setting : Setting C) (budget lines : ℕ) (answer other : Answer) →
        IsAnswer setting budget lines answer → IsAnswer setting budget lines other → answer ≡ other }
{}

/// A law over all machines: a size closes at the children of its last split, or at its root before any split. Where splits
/// have led to some nodes, and the size stayed open before each, the first node that is solved and the first at its limit
/// are the first among the newest nodes.
pub fn sizes_close_at_the_last_split<C>()
    ensures solved { (setting : Setting C) (budget from stamp : ℕ) (root : Node) (nodes : List Node)
        (leads : Leads setting budget from (root ∷ []) stamp nodes) →
        first_solved nodes ≡ first_solved (newest setting budget from (root ∷ []) stamp nodes leads) }
    ensures limited { (setting : Setting C) (budget from stamp : ℕ) (root : Node) (nodes : List Node)
        (leads : Leads setting budget from (root ∷ []) stamp nodes) →
        first_limited nodes ≡ first_limited (newest setting budget from (root ∷ []) stamp nodes leads) }
{}

/// A law over all machines: where a search answers that it spent its budget, its trees have as many splits as the budget, no
/// more and no fewer, and in the last a partial program still waits to be split.
pub fn a_spent_budget_is_shown<C>()
    ensures { (setting : Setting C) (budget lines size : ℕ) (answer : Answer) →
        IsAnswer setting budget lines answer → answer.outcome ≡ outcomes.SpentExpansions size →
        SpendsBudget budget size answer.trees }
{}

/// A law over all machines: where a search answers that it spent a run, the first mark at a limit in its last tree stands for
/// a partial program of that size, whose run on that instance makes as many steps as the limit, and comes to no configuration
/// twice in the first third of them.
pub fn a_spent_run_is_shown<C>()
    ensures { (setting : Setting C) (budget lines size t : ℕ) (answer : Answer) →
        IsAnswer setting budget lines answer → answer.outcome ≡ outcomes.SpentRun size t →
        SpendsRun setting.machine setting.limit size t answer.trees }
{}

/// A law over all machines: a budget of as many splits as there are partial programs that may be split is never spent; a limit of
/// steps by which each run comes to something is reached by no run; and with both a search comes to a program or to none.
pub fn enough_decides<C>()
    ensures budget { (setting : Setting C) (budget lines : ℕ) (answer : Answer) (size : ℕ) → splits_up_to setting.machine.ops lines ≤ budget →
        IsAnswer setting budget lines answer → answer.outcome ≢ outcomes.SpentExpansions size }
    ensures limit { (setting : Setting C) (budget lines : ℕ) (answer : Answer) (size t : ℕ) → IsEnoughFor setting.machine lines setting.limit →
        IsAnswer setting budget lines answer → answer.outcome ≢ outcomes.SpentRun size t }
    ensures both { (setting : Setting C) (budget lines : ℕ) (answer : Answer) → splits_up_to setting.machine.ops lines ≤ budget →
        IsEnoughFor setting.machine lines setting.limit → IsAnswer setting budget lines answer → IsDecided answer.outcome }
{}
