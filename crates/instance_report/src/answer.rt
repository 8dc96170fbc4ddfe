use flag_rules::Text;

/// The report on a program.
#[derive(Debug, Drop)]
pub struct Report {
    /// A line for each instance, and one with the count of those that are solved.
    pub text: Text,
    /// Whether the program solves every instance.
    pub all_solved: bool,
}
