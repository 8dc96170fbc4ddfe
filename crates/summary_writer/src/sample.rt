use family_gen::Family;
use flag_rules::List;

/// The instances of a family at a number.
#[derive(Debug, Drop)]
pub struct Sample {
    pub family: Family,
    /// The number that the instances were made from.
    pub number: u32,
    /// How many lamps or cells each instance has, in order.
    pub sizes: List<u16>,
}
