/// A value, and how often it is held.
#[derive(Drop)]
pub(crate) struct Held<T> {
    pub(crate) value: T,
    pub(crate) count: u32,
}
