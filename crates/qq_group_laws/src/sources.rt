//! Laws of where entries come from: the functions do nothing, and their contracts are the laws.
ghost use Rattle.std.specs.Prelude.{◌≡◌, ◌⊎◌, ◌≤◌, ◌++◌, ℕ, ◌∷◌, [], List, Some, length, take, true};
ghost use Rattle.qq_entry.specs.declared.command.Command.TheVariants.{Noop};
ghost use Rattle.qq_entry.specs.declared.command.Entry.{Entry};
ghost use Rattle.qq_log.specs.Stable.{Stable, known_entries, stable};
ghost use Rattle.qq_raft_protocol.specs.Facts.{In};
ghost use Rattle.qq_raft_protocol.specs.Moves.{Move, run};
ghost use Rattle.qq_raft_protocol.specs.Moves.Move.{Append};
ghost use Rattle.qq_raft_protocol.specs.Starts.{IsAppended, WasThere};
ghost use Rattle.qq_raft_protocol.specs.World.{Lane, Member, World, lanes};
ghost use Rattle.qq_raft_protocol.specs.World.Role.{Leader};
ghost use Rattle.qq_raft_model.specs.Group.{Event, Group, group_after};
ghost use Rattle.qq_raft_model.specs.Group.Event.{Add, Submit};
ghost use Rattle.qq_raft_model.specs.Promises.{IsSubmitted, WasLeft, members_of};
ghost use Rattle.qq_raft_model.specs.Refines.{IsNoop};
ghost use Rattle.qq_raft_model.specs.Server.{is_ready};
ghost use Rattle.qq_raft_model.specs.State.{Server};

/// A law: where an entry of a group comes from.
///
/// - `appended`: one of the moves adds it at a leader of its term, whose log is what is before it.
/// - `there`: a disk of a member of the start has it after the same entries.
/// - `first`: a leader's first entry has no time, and names version 1 of the machine.
/// - `submitted`: one of the events is that its command, with its time, reaches a ready leader of its term,
///   whose log is what is before it; the leader sends it then, or later.
/// - `left`: ops that a member's log was handed at the start come to a log that has it after the same entries.
pub fn where_an_entry_comes_from()
    ensures appended { (w : World) (moves : List Move) (a : List Entry) (e : Entry) →
        IsAppended w moves a e → (first : List Move) × (node : ℕ) × (rest : List Move) ×
        (moves ≡ first ++ Append node e ∷ rest) × ((run w first).role node ≡ Leader) ×
        (e.term.0 ≡ ((run w first).member node).mine.term) ×
        (((run w first).member node).mine.log ≡ a) }
    ensures there { (members : List ℕ) (member : ℕ → Member) (a : List Entry) (e : Entry) →
        WasThere members member a e → (node : ℕ) × (lane : Lane) × (more : List Entry) ×
        In node members × In lane (lanes (member node)) × (lane.log ≡ (a ++ e ∷ []) ++ more) }
    ensures first { (e : Entry) → IsNoop e → (e.time ≡ 0) × (e.command ≡ Noop 1) }
    ensures submitted { (g : Group) (events : List Event) (a : List Entry) (e : Entry) →
        IsSubmitted g events a e → (first : List Event) × (node : ℕ) × (event : Event) ×
        (rest : List Event) × (s : Server) × (events ≡ first ++ event ∷ rest) ×
        ((event ≡ Submit node e.time e.command) ⊎ (event ≡ Add node e.time e.command)) ×
        (((group_after g first).seat node).server ≡ Some s) × (is_ready s ≡ true) ×
        (e.term ≡ s.term) × (s.log ≡ a) }
    ensures left { (g : Group) (a : List Entry) (e : Entry) → WasLeft g a e →
        (node : ℕ) × (upto : ℕ) × (more : List Entry) × (state : Stable) ×
        In node (members_of g.nodes) × ((g.seat node).noticed ≤ upto) ×
        (upto ≤ length (g.seat node).ops) × (stable (take upto (g.seat node).ops) ≡ Some state) ×
        (known_entries state.log ≡ (a ++ e ∷ []) ++ more) }
{}
