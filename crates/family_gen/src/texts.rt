use flag_rules::{List, Text};
use search_bounds::Bounds;

/// The instances of a family at a number, as texts of PDDL 1.2, and what they are searched with.
#[derive(Debug, Drop)]
pub struct FamilyTexts {
    pub domain: Text,
    /// The instances, in order.
    pub problems: List<Text>,
    /// How many lamps or cells each instance has.
    pub sizes: List<u16>,
    /// How many pointers programs have.
    pub pointers: u8,
    pub bounds: Bounds,
}
