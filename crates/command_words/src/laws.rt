ghost use Rattle.std.specs.Prelude.{◌≡◌, ℕ, List as Sequence, codes};
ghost use Rattle.evaluations.specs.Orders.{order_text};
ghost use Rattle.command_words.specs.declared.job.TheConstants.{LEAST_BUDGET, LEAST_RUN, USUAL_BUDGET, USUAL_RUN};
ghost use Rattle.command_words.specs.declared.job.Job.{Job};
ghost use Rattle.command_words.specs.Words.{JobOf, IsJob, usual_order};

/// A law: the limits on the numbers of a job, and the text of the usual order.
pub fn limits()
    ensures least_budget { LEAST_BUDGET ≡ 1 }
    ensures usual_budget { USUAL_BUDGET ≡ 10000 }
    ensures least_run { LEAST_RUN ≡ 4 }
    ensures usual_run { USUAL_RUN ≡ 100000 }
    ensures usual_order { order_text usual_order ≡ codes "e5,e1" }
{}

/// A law: words are those of one job at most.
pub fn at_most_one_job()
    ensures { (words : Sequence (Sequence ℕ)) (one other : Job) → JobOf words one → JobOf words other → one ≡ other }
{}

/// A law: the numbers of the job that words are keep their limits.
pub fn the_job_of_words_keeps_its_limits()
    ensures { (words : Sequence (Sequence ℕ)) (job : Job) → JobOf words job → IsJob job }
{}
