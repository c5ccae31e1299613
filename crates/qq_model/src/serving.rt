ghost use Rattle.std.specs.Prelude.{◌≡◌, ◌<◌, List, Bool, true, false, not, Some, None, find, Contains};
ghost use Rattle.qq_model.specs.declared.place.Row.{Row};
ghost use Rattle.qq_model.specs.declared.consumer.Consumer.{Consumer};
ghost use Rattle.qq_model.specs.Choice.{free_credit, next_consumer};

/// A law: the next consumer is one that is there, isn't cancelled and has free credit. There is none
/// only where no consumer that isn't cancelled has free credit; with a single active consumer, where
/// the longest joined one that isn't cancelled has none.
pub fn the_next_consumer_has_credit()
    ensures chosen { (single : Bool) (rows : List Row) (consumers : List Consumer)
        (one : Consumer) →
        next_consumer single rows consumers ≡ Some one →
        Contains consumers one × (one.cancelled ≡ false) × (0 < free_credit rows one) }
    ensures nobody { (rows : List Row) (consumers : List Consumer) (one : Consumer) →
        next_consumer false rows consumers ≡ None → Contains consumers one → one.cancelled ≡ false →
        free_credit rows one ≡ 0 }
    ensures active { (rows : List Row) (consumers : List Consumer) (one : Consumer) →
        next_consumer true rows consumers ≡ None →
        find (λ (other : Consumer). not other.cancelled) consumers ≡ Some one
        → free_credit rows one ≡ 0 }
{}
