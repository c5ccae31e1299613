//! Lists, item by item.
ghost use Rattle.std.specs.Prelude.{◌≡◌, Bool};
ghost use Rattle.std.specs.Cmp.Lexicographic.{pointwise};

use qq_base::QueueId;

/// An item of a list that is compared with another.
pub(crate) trait Same {
    /// Whether two items are the same.
    ghost same: { Self → Self → Bool };

    /// Whether this item is the other one.
    fn is_same(&self, other: &Self) -> bool
        ensures { result ≡ same self.now other.now };
}

// Whether two lists have the same items, in order.
pub(crate) fn are_same<T: Same>(a: &[T], b: &[T]) -> bool
    ensures { result ≡ pointwise T.same a.now b.now }
{
    if a.len() != b.len() {
        return false;
    }
    'items: for at in 0..a.len() {
        if !a[at].is_same(&b[at]) {
            return false;
        }
    }
    true
}

impl Same for QueueId {
    ghost use Rattle.qq_entry.specs.Same.{same_queue};

    ghost same = { same_queue };

    fn is_same(&self, other: &Self) -> bool {
        self.0 == other.0
    }
}
