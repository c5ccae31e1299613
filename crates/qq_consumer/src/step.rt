use crate::seat::Seat;

/// A change of who is there.
#[derive(Drop)]
pub enum Step {
    /// A consumer joined at the end.
    Joined,
    /// A consumer left its place.
    Left(usize, Seat),
}
