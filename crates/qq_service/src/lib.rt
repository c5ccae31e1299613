//! Who is served next, of any table of consumers (RabbitMQ, "Consumers" and "Single Active Consumer").
#![tactic(auto)]

ghost use Rattle.std.specs.Prelude.{◌≡◌, List, Option, map, find, nat_lt};
ghost use Rattle.std.specs.Option.{option_map};
ghost use Rattle.qq_model.specs.declared.place.Row.{Row};
ghost use Rattle.qq_model.specs.declared.consumer.Consumer.{Consumer};
ghost use Rattle.qq_model.specs.Choice.{is_lesser, lesser, next_consumer};
ghost use Rattle.qq_service.specs.Next.{is_servable, servable_turn, longest_servable, is_active, active_servable, next, standing_of};

pub use qq_base::ConsumerId;
pub use qq_entry::{Standing, Table};

fn is_servable(one: Standing) -> bool
    ensures { result ≡ is_servable one }
{
    !one.cancelled && 0 < one.credit
}

fn servable_turn(one: Standing) -> Option<u64>
    ensures { result ≡ servable_turn one }
{
    if is_servable(one) {
        Some(one.turn)
    } else {
        None
    }
}

fn is_lesser(turn: Option<u64>, best: Option<u64>) -> bool
    ensures { result ≡ is_lesser nat_lt turn best }
{
    match (turn, best) {
        (None, _) => false,
        (Some(_), None) => true,
        (Some(turn), Some(best)) => turn < best,
    }
}

fn lesser(best: Option<Standing>, one: Standing) -> Option<Standing>
    ensures { result ≡ lesser nat_lt servable_turn best one }
{
    let turn = match best {
        None => None,
        Some(best) => servable_turn(best),
    };
    if is_lesser(servable_turn(one), turn) {
        Some(one)
    } else {
        best
    }
}

fn longest_servable<T: Table>(consumers: &T) -> Option<Standing>
    ensures { result ≡ longest_servable (T.standings consumers.now) }
{
    let mut best = None;
    'consumers: for place in 0..consumers.count() {
        best = lesser(best, consumers.standing(place));
    }
    best
}

fn first_active<T: Table>(consumers: &T) -> Option<Standing>
    ensures { result ≡ find is_active (T.standings consumers.now) }
{
    'consumers: for place in 0..consumers.count() {
        let one = consumers.standing(place);
        if !one.cancelled {
            return Some(one);
        }
    }
    None
}

fn active_servable<T: Table>(consumers: &T) -> Option<Standing>
    ensures { result ≡ active_servable (T.standings consumers.now) }
{
    match first_active(consumers) {
        None => None,
        Some(one) => { if is_servable(one) { Some(one) } else { None } }
    }
}

fn next_standing<T: Table>(consumers: &T, single_active: bool) -> Option<Standing>
    ensures { option_map (λ one. one.id) result ≡ next single_active (T.standings consumers.now) }
{
    if single_active {
        active_servable(consumers)
    } else {
        longest_servable(consumers)
    }
}

fn id_of(one: Option<Standing>) -> Option<ConsumerId>
    ensures { result ≡ option_map (λ one. one.id) one }
{
    one.map(|one| one.id)
}

/// The consumer that is served next: of those that aren't cancelled and have credit the one of least
/// turn; with a single active consumer the longest joined one that isn't cancelled, if it has credit.
/// None exactly where nobody may be served. It goes through the table.
pub fn next<T: Table>(consumers: &T, single_active: bool) -> Option<ConsumerId>
    ensures value { result ≡ next single_active (T.standings consumers.now) }
    ensures queue { (rows : List Row) (all : List Consumer) →
        T.standings consumers.now ≡ map (standing_of rows) all →
        result ≡ option_map (λ one. one.id) (next_consumer single_active rows all) }
{
    id_of(next_standing(consumers, single_active))
}
