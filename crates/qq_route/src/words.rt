ghost use Rattle.std.specs.Prelude.{◌≡◌, ◌∷◌, [], MatchOption};
ghost use Rattle.qq_route.specs.Topic.{words};
ghost use Rattle.qq_route.specs.Words.{left};

/// The words of a key that weren't read yet.
#[derive(Clone, Copy)]
pub struct Words<'a> {
    /// None where no word is left.
    rest: Option<&'a str>,
}

impl<'a> Words<'a> {
    /// All words of a key.
    pub fn new(key: &'a str) -> Self
        ensures { left result ≡ words key.now }
    {
        if key.is_empty() {
            return Words { rest: None };
        }
        Words { rest: Some(key) }
    }

    /// The first word and the words behind it.
    pub fn split_first(self) -> Option<(&'a str, Words<'a>)>
        ensures { MatchOption result (left self.entry ≡ [])
            (λ p. left self.entry ≡ p.0.now ∷ left p.1) }
    {
        let text = self.rest?;
        match text.split_once('.') {
            Some((word, rest)) => Some((word, Words { rest: Some(rest) })),
            None => Some((text, Words { rest: None })),
        }
    }
}
