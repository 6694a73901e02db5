/// A value as it is taken, with its sender's number and its place among that sender's values, both from 0.
#[derive(Clone, Debug, PartialEq, Eq, Drop)]
pub struct Item<T> {
    pub sender: u32,
    pub seq: u64,
    pub value: T,
}
