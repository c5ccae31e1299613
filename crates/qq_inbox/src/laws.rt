//! Laws of what passes and seats know: the functions do nothing, and their contracts are the laws.
ghost use Rattle.std.specs.Prelude.{◌≡◌, ◌≢◌, ◌+◌, ◌<◌, ◌≤◌, ◌++◌, ◌∷◌, ℕ, List, true, length, nat_eq, slice_index, unwrap_or};
ghost use Rattle.std.specs.List.{list_any};
ghost use Rattle.qq_base.specs.declared.ids.QueueId.{QueueId};
ghost use Rattle.qq_log.specs.Carries.{Carries, new_carry};
ghost use Rattle.qq_log.specs.declared.op.Op.{Op};
ghost use Rattle.qq_log.specs.Op.{queue, number};
ghost use Rattle.qq_log.specs.Writable.{MayWrite};
ghost use Rattle.qq_inbox.specs.declared.pass.PassView.{PassView};
ghost use Rattle.qq_inbox.specs.declared.seat.SeatView.{SeatView};
ghost use Rattle.qq_inbox.specs.HandOver.{InOrder, IsFull, NoneOf};
ghost use Rattle.qq_inbox.specs.Seats.{AtMost, raised_to, reader, joined_seat};

/// What ops in order are, as they are offered and taken.
///
/// - `next`: of two ops of a queue, with none of it between them, the second has the number after the first's.
/// - `first`: a queue's first op has the number after that of the carry at which the log stood.
/// - `listed`: each is of a queue of the log.
/// - `written`: each op is one that the log writes.
pub fn ops_in_order_count_on()
    ensures next { (queues : List QueueId) (carries : Carries) (front between back : List Op)
        (first second : Op) →
        InOrder queues carries (front ++ first ∷ (between ++ second ∷ back)) →
        (queue second).0 ≡ (queue first).0 → NoneOf (queue first).0 between →
        number second ≡ number first + 1 }
    ensures first { (queues : List QueueId) (carries : Carries) (front back : List Op) (op : Op) →
        InOrder queues carries (front ++ op ∷ back) → NoneOf (queue op).0 front →
        number op ≡ (unwrap_or (carries (queue op).0) (new_carry (queue op))).op + 1 }
    ensures listed { (queues : List QueueId) (carries : Carries) (front back : List Op) (op : Op) →
        InOrder queues carries (front ++ op ∷ back) →
        list_any (λ (id : QueueId). nat_eq id.0 (queue op).0) queues ≡ true }
    ensures written { (queues : List QueueId) (carries : Carries) (front back : List Op) (op : Op) →
        InOrder queues carries (front ++ op ∷ back) → MayWrite op }
{}

/// What an op that comes back tells of the inbox.
///
/// - `waiting`: where the pass may take too, as many ops wait as the inbox may hold.
/// - `few`: where fewer were offered in all, none comes back.
pub fn a_full_inbox_holds_its_capacity()
    ensures waiting { (capacity : ℕ) (v : PassView) (waiting : List Op) → IsFull capacity v →
        v.takes ≡ true → v.offered ≡ v.taken ++ waiting → length waiting ≡ capacity }
    ensures few { (capacity : ℕ) (v : PassView) →
        IsFull capacity v → length v.offered < capacity → ⊥ }
{}

/// What a seat has seen it has seen for good.
///
/// - `raises`: a raise takes nothing back, and the seat has seen what it raised.
/// - `splits`: a new seat has seen what the old one has.
/// - `joins`: a joined seat has seen what either has.
pub fn no_seat_forgets()
    ensures raises { (v : SeatView) (mark n : ℕ) → AtMost v.seen v.raised →
        AtMost v.seen (raised_to v mark n).seen }
    ensures raised { (v : SeatView) (mark n : ℕ) → mark < length v.seen →
        n ≤ slice_index (raised_to v mark n).seen mark }
    ensures splits { (v : SeatView) → AtMost v.seen (reader v).seen }
    ensures joins { (v w : SeatView) →
        AtMost v.seen (joined_seat v w).seen × AtMost w.seen (joined_seat v w).seen }
{}
