ghost use Rattle.std.specs.Prelude.{◌≡◌, None};
ghost use Rattle.qq_model.specs.declared.consumer.Consumer.{Consumer};
ghost use Rattle.qq_model.specs.Changes.{Progress};
ghost use Rattle.qq_model.specs.Commands.{return_first, return_all};
ghost use Rattle.qq_model.specs.Serving.{check_out, check_out_all, drop_head, keep_limits, give_dead, give_all_dead};

/// A law: no loop of a step is cut short. Where the checkouts, the limits, the dead giving, or the
/// returns of a consumer whose session ends are through, there is no next one.
pub fn loops_run_out()
    ensures delivered { (p : Progress) → check_out (check_out_all p) ≡ None }
    ensures returned { (consumer : Consumer) (p : Progress) →
        return_first consumer.id (return_all consumer p) ≡ None }
    ensures dropped { (p : Progress) → drop_head (keep_limits p) ≡ None }
    ensures given { (p : Progress) → give_dead (give_all_dead p) ≡ None }
{}
