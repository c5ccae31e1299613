use std::collections::VecDeque;

/// A change of a deque, with what leads back.
#[derive(Drop)]
pub enum Step<T> {
    /// An item was put in at this place.
    Inserted(usize),
    /// This item was taken out at this place.
    Removed(usize, T),
    /// All items were taken out.
    Cleared(VecDeque<T>),
}
