//! The search for a smallest planning program over any machine, with its evidence: trees of the partial programs that it
//! rejected.
//!
//! Of specs/ read Search first, on the search at one size, then Answers, on the sizes in turn, BestFirst, on the search within
//! bounds, FreshWork, on what a search need not do twice, and Spent, on what an answer shows where a budget or a limit was spent; specs/Inner has what the code holds on the way.
#![tactic(auto)]

mod fill;
mod laws;
mod newest;
mod nodes;
mod searcher;
mod splitting;
mod walk;

pub use laws::{
    a_spent_budget_is_shown, a_spent_run_is_shown, at_most_one_answer, enough_decides,
    searched_answers_are_accepted, sizes_close_at_the_last_split,
};
pub use searcher::search;
