//! What a drill draws and asks for, as laws: the functions do nothing, and their contracts are the laws.
ghost use Rattle.std.specs.Prelude.{◌≡◌, ◌<◌, ◌≤◌, ℕ, [], ◌∷◌, Some, None, codes, true, false};
ghost use Rattle.qq_base.specs.Ids.{client};
ghost use Rattle.qq_disk.specs.declared.image.Tail.TheVariants.{Cut};
ghost use Rattle.qq_entry.specs.declared.command.Mode.TheVariants.{Prefetch};
ghost use Rattle.qq_entry.specs.declared.command.Unstamped.TheVariants as commands;
ghost use Rattle.qq_script_lines.specs.declared.line.Nodes.TheVariants.{One};
ghost use Rattle.qq_script_lines.specs.declared.line.ScriptLine.TheVariants as script_lines;
ghost use Rattle.qq_drill.specs.Draw.{draw_of, drawn, next_x};
ghost use Rattle.qq_drill.specs.Drill.{after_by, after_step, hear, is_sixteenth, last_restart, lines_by, new_drill, resends, step_lines};
ghost use Rattle.qq_drill.specs.declared.draw.Deed.TheVariants.{Crashes, Gets, Returns, Sends, Settles, Subscribes, Ticks};

/// A law: of which queues, nodes and bytes draws speak.
pub fn draws_are_of_their_ranges()
    ensures first_queue { (nodes number : ℕ) → 1 ≤ (draw_of nodes number).queue }
    ensures last_queue { (nodes number : ℕ) → (draw_of nodes number).queue ≤ 4 }
    ensures first_node { (nodes number : ℕ) → 1 ≤ (draw_of nodes number).node }
    ensures last_node { (nodes number : ℕ) → 0 < nodes → (draw_of nodes number).node ≤ nodes }
    ensures cut { (nodes number : ℕ) → (draw_of nodes number).cut < 128 }
{}

/// A law: how often each deed is drawn of sixteen times.
pub fn deeds_are_drawn_by_weight()
    ensures sends { ((draw_of 3 0).deed ≡ Sends) × ((draw_of 3 27).deed ≡ Sends) }
    ensures gets { ((draw_of 3 28).deed ≡ Gets) × ((draw_of 3 39).deed ≡ Gets) }
    ensures subscribes { ((draw_of 3 40).deed ≡ Subscribes) × ((draw_of 3 43).deed ≡ Subscribes) }
    ensures settles { ((draw_of 3 44).deed ≡ Settles) × ((draw_of 3 51).deed ≡ Settles) }
    ensures returns { ((draw_of 3 52).deed ≡ Returns) × ((draw_of 3 55).deed ≡ Returns) }
    ensures crashes { ((draw_of 3 56).deed ≡ Crashes) × ((draw_of 3 59).deed ≡ Crashes) }
    ensures ticks { ((draw_of 3 60).deed ≡ Ticks) × ((draw_of 3 63).deed ≡ Ticks) }
    ensures again { (draw_of 3 64).deed ≡ Sends }
{}

/// A law: what the drill of 7 over three nodes begins with.
#[tactic(auto, unfolding(crate::specs::Draw::next_x, crate::specs::Draw::drawn))]
pub fn a_drill_of_seven_begins_with_a_get()
    ensures drawn { drawn (next_x 7) ≡ 1059165278 }
    ensures first { step_lines 1 (new_drill 7 3)
        ≡ script_lines.Client (record { class = 1; owner = 0; number = 3 }) (record { 0 = 3 })
        commands.Get ∷ [] }
    ensures second { step_lines 2 (after_step (new_drill 7 3))
        ≡ script_lines.Tick (record { 0 = 3 }) (record { 0 = 4 }) ∷ script_lines.Pump ∷ [] }
    ensures third { step_lines 3 (after_step (after_step (new_drill 7 3))) ≡ [] }
    ensures fourth { step_lines 4 (after_step (after_step (after_step (new_drill 7 3))))
        ≡ script_lines.Send (record { class = 1; owner = 0; number = 2 }) [] (codes "q2")
        (codes "m4") ∷ [] }
    ensures fifth { step_lines 5 (after_step (after_step (after_step (after_step (new_drill 7 3)))))
        ≡ script_lines.Client (record { class = 1; owner = 0; number = 12 }) (record { 0 = 2 })
        (commands.Subscribe 1 (Prefetch 4)) ∷ [] }
{}

/// A law: a queue's second session has at most eight consumers.
pub fn consumers_are_at_most_eight()
    ensures second { let d = draw_of 3 40 in
        lines_by Subscribes 9 d (after_by Subscribes d (new_drill 7 3))
        ≡ script_lines.Client (client 11) (record { 0 = 1 })
        (commands.Subscribe 2 (Prefetch 4)) ∷ [] }
    ensures eighth { lines_by Subscribes 9 (draw_of 3 40) (record {
      x = 0;
      nodes = 3;
      crashed = None;
      sides = record { tags = 7; held = [] } ∷ [];
    })
        ≡ script_lines.Client (client 11) (record { 0 = 1 })
        (commands.Subscribe 8 (Prefetch 4)) ∷ [] }
    ensures ninth { lines_by Subscribes 9 (draw_of 3 40) (record {
      x = 0;
      nodes = 3;
      crashed = None;
      sides = record { tags = 8; held = [] } ∷ [];
    }) ≡ [] }
{}

/// A law: what was printed of a queue's second session is settled or returned, the oldest first.
pub fn deliveries_are_ended_oldest_first()
    ensures first { lines_by Settles 9 (draw_of 3 1)
        (hear (record { session = client 12; tag = 2 }) 1
        (hear (record { session = client 12; tag = 1 }) 7 (new_drill 7 3)))
        ≡ script_lines.Client (client 12) (record { 0 = 2 }) (commands.Settle 1 (7 ∷ [])) ∷ [] }
    ensures second { lines_by Returns 9 (draw_of 3 1) (after_by Settles (draw_of 3 1)
        (hear (record { session = client 12; tag = 2 }) 1
        (hear (record { session = client 12; tag = 1 }) 7 (new_drill 7 3))))
        ≡ script_lines.Client (client 12) (record { 0 = 2 }) (commands.Return 2 (1 ∷ [])) ∷ [] }
    ensures none { lines_by Settles 9 (draw_of 3 1) (after_by Returns (draw_of 3 1)
        (hear (record { session = client 12; tag = 1 }) 7 (new_drill 7 3))) ≡ [] }
    ensures other_queue { lines_by Settles 9 (draw_of 3 1)
        (hear (record { session = client 13; tag = 1 }) 7 (new_drill 7 3)) ≡ [] }
    ensures other_session { (id : ℕ) → hear (record { session = client 2; tag = 1 })
        id (new_drill 7 3) ≡ new_drill 7 3 }
{}

/// A law: a node crashes with some bytes of a message, is down, and restarts.
pub fn nodes_crash_in_a_write()
    ensures crash { lines_by Crashes 9 (draw_of 5 37953) (new_drill 7 5)
        ≡ script_lines.Pace false
        ∷ script_lines.Send (client 2) [] (codes "q2") (codes "m9")
        ∷ script_lines.Pace true
        ∷ script_lines.Write (record { 0 = 4 })
        ∷ script_lines.Crash (One (record { 0 = 4 }))
        (record { newest_log = Cut 74; others = Cut 0; removed_back = false }) ∷ [] }
    ensures restart { (step number : ℕ) → lines_by Crashes step (draw_of 5 number)
        (after_by Crashes (draw_of 5 37953) (new_drill 7 5))
        ≡ script_lines.Restart (One (record { 0 = 4 })) ∷ [] }
    ensures last { last_restart (after_by Crashes (draw_of 5 37953) (new_drill 7 5)).crashed
        ≡ script_lines.Restart (One (record { 0 = 4 })) ∷ [] }
    ensures up_again { (number : ℕ) → (after_by Crashes (draw_of 5 number)
        (after_by Crashes (draw_of 5 37953) (new_drill 7 5))).crashed ≡ None }
{}

/// A law: time passes at members that are up.
pub fn members_that_are_up_are_ticked()
    ensures member { lines_by Ticks 9 (draw_of 5 65) (new_drill 7 5)
        ≡ script_lines.Tick (record { 0 = 2 }) (record { 0 = 2 }) ∷ script_lines.Pump ∷ [] }
    ensures last_member { lines_by Ticks 9 (draw_of 5 193) (new_drill 7 5)
        ≡ script_lines.Tick (record { 0 = 4 }) (record { 0 = 2 }) ∷ script_lines.Pump ∷ [] }
    ensures none { lines_by Ticks 9 (draw_of 5 257) (new_drill 7 5) ≡ script_lines.Pump ∷ [] }
    ensures down { lines_by Ticks 9 (draw_of 5 193)
        (after_by Crashes (draw_of 5 37953) (new_drill 7 5)) ≡ script_lines.Pump ∷ [] }
{}

/// A law: which sessions send again, and after which steps.
pub fn all_sessions_send_again_after_sixteen_steps()
    ensures sessions { resends
        ≡ script_lines.Resend (client 1) ∷ script_lines.Resend (client 2)
        ∷ script_lines.Resend (client 3) ∷ script_lines.Resend (client 4)
        ∷ script_lines.Resend (client 11) ∷ script_lines.Resend (client 12)
        ∷ script_lines.Resend (client 13) ∷ script_lines.Resend (client 14) ∷ [] }
    ensures steps { (is_sixteenth 16 ≡ true) × (is_sixteenth 3984 ≡ true)
        × (is_sixteenth 15 ≡ false) × (is_sixteenth 17 ≡ false) }
{}
