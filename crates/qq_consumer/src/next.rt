use qq_model::Consumer;

/// What follows for a consumer once deliveries to it have ended.
#[derive(Clone, Copy)]
pub enum Next {
    /// It was cancelled, and nothing is out with it.
    Leaves,
    /// It had no free credit, and has some now.
    Draws(Consumer),
    /// It stays as it is.
    Stays,
}
