//! Laws of a queue's numbers: the functions do nothing, and their contracts are the laws. `queues_are_sound`
//! of `qq_model` says that every queue is so.
ghost use Rattle.std.specs.Prelude.{◌≡◌, ◌<◌, ◌≤◌, ◌-◌, ℕ, List, All, AllPairs, Contains, true, false, count_by, length};
ghost use Rattle.qq_base.specs.Ids.{same_consumer};
ghost use Rattle.qq_base.specs.declared.ids.ConsumerId.{ConsumerId};
ghost use Rattle.qq_entry.specs.declared.message.Reason.{Reason};
ghost use Rattle.qq_model.specs.declared.consumer.Consumer.{Consumer};
ghost use Rattle.qq_model.specs.declared.place.Row.{Row};
ghost use Rattle.qq_model.specs.declared.place.Place.TheVariants.{Ready, Out, Dead};
ghost use Rattle.qq_model.specs.declared.place.Key.TheVariants.{Front, Back};
ghost use Rattle.qq_model.specs.declared.session.OpenSession.{OpenSession};
ghost use Rattle.qq_model.specs.declared.session.Worker.{Worker};
ghost use Rattle.qq_model.specs.Choice.{out_count};
ghost use Rattle.qq_model.specs.Gate.{IsNumbered, greatest_tag, is_ended};
ghost use Rattle.qq_model.specs.Serving.{given_count};
ghost use Rattle.qq_model.specs.Sound.{IsSound};
ghost use Rattle.qq_model.specs.State.{State};

/// A law: the messages of a sound queue.
///
/// - `rows`, `messages`: there is a row, and a message, for each that arrived.
/// - `order`, `applied`: their indices rise up to that of the last entry.
/// - `fronts`, `backs`, `deads`: the numbers of their places are drawn, from 1 up.
/// - `front`, `back`, `dead`: no two have one place.
/// - `given`, `under_way`: the worker was given no number that wasn't drawn, and at most 32 dead letters are
///   under way.
/// - `held`: what is out is with a consumer that is there.
pub fn messages_have_numbers()
    ensures rows { (s : State) → IsSound s → length s.rows ≡ s.arrivals }
    ensures messages { (s : State) → IsSound s → length s.messages ≡ s.arrivals }
    ensures order { (s : State) → IsSound s →
        AllPairs (λ (a b : Row). a.index.0 < b.index.0) s.rows }
    ensures applied { (s : State) → IsSound s →
        All (λ (row : Row). row.index.0 ≤ s.applied) s.rows }
    ensures fronts { (s : State) (row : Row) (n : ℕ) → IsSound s → Contains s.rows row →
        row.place ≡ Ready (Front n) → (0 < n) × (n ≤ s.returns) }
    ensures backs { (s : State) (row : Row) (n : ℕ) → IsSound s → Contains s.rows row →
        row.place ≡ Ready (Back n) → (0 < n) × (n ≤ s.orders) }
    ensures deads { (s : State) (row : Row) (n : ℕ) (reason : Reason) → IsSound s →
        Contains s.rows row → row.place ≡ Dead n reason → (0 < n) × (n ≤ s.deads) }
    ensures front { (s : State) (a b : Row) (n : ℕ) → IsSound s → Contains s.rows a →
        Contains s.rows b → a.place ≡ Ready (Front n) → b.place ≡ Ready (Front n) → a ≡ b }
    ensures back { (s : State) (a b : Row) (n : ℕ) → IsSound s → Contains s.rows a →
        Contains s.rows b → a.place ≡ Ready (Back n) → b.place ≡ Ready (Back n) → a ≡ b }
    ensures dead { (s : State) (a b : Row) (n : ℕ) (first second : Reason) → IsSound s →
        Contains s.rows a → Contains s.rows b → a.place ≡ Dead n first → b.place ≡ Dead n second →
        a ≡ b }
    ensures given { (s : State) → IsSound s → s.given ≤ s.deads }
    ensures under_way { (s : State) → IsSound s → given_count s.given s.rows ≤ 32 }
    ensures held { (s : State) (row : Row) (consumer : ConsumerId) (id : ℕ) → IsSound s →
        Contains s.rows row → row.place ≡ Out consumer id →
        (one : Consumer) × Contains s.consumers one × (one.id ≡ consumer) }
{}

/// A law: the consumers of a sound queue. Of clients' consumers and those of workers that dead-letter at
/// least once is said `tag`, `alone`, `ids` and `id`.
///
/// - `few`: there are 1,024 at most.
/// - `turn`, `drawn`: two that have one turn have one id, and no turn is above the counter.
/// - `busy`: one that was cancelled has something out.
/// - `tag`, `alone`: its tag is one that its session used, and no other consumer has its id.
/// - `ids`, `id`: each id of what is out with it is one that it was given, and is that of one message.
pub fn consumers_have_turns()
    ensures few { (s : State) → IsSound s → length s.consumers ≤ 1024 }
    ensures turn { (s : State) (a b : Consumer) → IsSound s → Contains s.consumers a →
        Contains s.consumers b → a.turn ≡ b.turn → a.id ≡ b.id }
    ensures drawn { (s : State) (one : Consumer) → IsSound s → Contains s.consumers one →
        one.turn ≤ s.turns }
    ensures busy { (s : State) (one : Consumer) → IsSound s → Contains s.consumers one →
        one.cancelled ≡ true → 0 < out_count one.id s.rows }
    ensures tag { (s : State) (one : Consumer) → IsSound s → Contains s.consumers one →
        IsNumbered one.id.session → is_ended s.sessions one.id.session ≡ false →
        one.id.tag ≤ greatest_tag one.id.session s.sessions }
    ensures alone { (s : State) (id : ConsumerId) → IsSound s → IsNumbered id.session →
        count_by (λ (one : Consumer). same_consumer one.id id) s.consumers ≤ 1 }
    ensures ids { (s : State) (one : Consumer) (row : Row) (id : ℕ) → IsSound s →
        Contains s.consumers one → IsNumbered one.id.session → Contains s.rows row →
        row.place ≡ Out one.id id → (0 < id) × (id ≤ one.next_id - 1) }
    ensures id { (s : State) (one : Consumer) (a b : Row) (id : ℕ) → IsSound s →
        Contains s.consumers one → IsNumbered one.id.session → Contains s.rows a →
        Contains s.rows b → a.place ≡ Out one.id id → b.place ≡ Out one.id id → a ≡ b }
{}

/// A law: the sessions of a sound queue.
///
/// - `ended`, `owners`: the numbers of ended sessions rise, and so do the owners of workers.
/// - `alone`: no two open sessions have one id.
/// - `mark`, `answers`, `window`: the low mark of an open one lies below its next number, and it keeps the
///   answers to the numbers between, 256 at most.
pub fn sessions_have_numbers()
    ensures ended { (s : State) → IsSound s → AllPairs (λ (a b : ℕ). a < b) s.sessions.ended }
    ensures owners { (s : State) → IsSound s →
        AllPairs (λ (a b : Worker). a.owner < b.owner) s.sessions.workers }
    ensures alone { (s : State) → IsSound s →
        AllPairs (λ (a b : OpenSession). a.session ≡ b.session → ⊥) s.sessions.opened }
    ensures mark { (s : State) (one : OpenSession) → IsSound s → Contains s.sessions.opened one →
        one.mark < one.next }
    ensures answers { (s : State) (one : OpenSession) → IsSound s → Contains s.sessions.opened one →
        length one.kept ≡ one.next - 1 - one.mark }
    ensures window { (s : State) (one : OpenSession) → IsSound s → Contains s.sessions.opened one →
        length one.kept ≤ 256 }
{}
