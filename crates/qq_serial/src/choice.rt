//! The one choice that a queue makes: of all items that have a key the one of least key.
ghost use Rattle.std.specs.Prelude.{◌≡◌, Option, Bool};
ghost use Rattle.std.specs.Option.{option_and_then};
ghost use Rattle.qq_model.specs.Choice.{is_lesser, least_by};
ghost use Rattle.qq_serial.specs.Choice.{Computes, Compares};

fn is_lesser<T: Copy, K: Copy, F: Fn(T) -> Option<K>, L: Fn(K, K) -> bool>(
    key: &F,
    less: &L,
    item: T,
    best: Option<T>,
) -> bool
    requires key { F.IsAlwaysCallable key.now }
    requires less { L.IsAlwaysCallable less.now }
    ensures { (k : T → Option K) (l : K → K → Bool) → Computes (F.post key.now) k
        → Compares (L.post less.now) l → result ≡ is_lesser l (k item) (option_and_then k best) }
{
    let Some(item) = key(item) else {
        return false;
    };
    let Some(best) = best else {
        return true;
    };
    let Some(best) = key(best) else {
        return true;
    };
    less(item, best)
}

/// Of all items that have a key the one of least key.
pub fn least_by<T: Copy, K: Copy, F: Fn(T) -> Option<K>, L: Fn(K, K) -> bool>(
    items: &[T],
    key: F,
    less: L,
) -> Option<T>
    requires key { F.IsAlwaysCallable key }
    requires less { L.IsAlwaysCallable less }
    ensures { (k : T → Option K) (l : K → K → Bool) → Computes (F.post key) k
        → Compares (L.post less) l → result ≡ least_by l k items.now }
{
    let mut best = None;
    for item in items {
        if is_lesser(&key, &less, *item, best) {
            best = Some(*item);
        }
    }
    best
}
