//! What follows of every answer, as a law: the function does nothing, and its contract is the law.
ghost use Rattle.std.specs.Prelude.{◌≡◌, ◌<◌, ◌≤◌, ◌^◌, ℕ, Bool, List, Some, None, Result, Ok, Err};
ghost use Rattle.qq_base.specs.declared.memory.Memory.TheVariants.{Want};
ghost use Rattle.qq_defs.specs.declared.fault.DefsFault.{DefsFault};
ghost use Rattle.qq_defs.specs.declared.fault.DefsFault.TheVariants.{Memory};
ghost use Rattle.qq_route.specs.declared.setup.Setup.{Setup};
ghost use Rattle.qq_defs.specs.Definitions.{document, read_setup};
ghost use Rattle.qq_defs.specs.Reading.{Gives, with_memory};
ghost use Rattle.qq_defs.specs.Runnable.{IsRunnable};
ghost use Rattle.qq_route.specs.Setup.{SetupState, plain_setup, state_of};

/// Memory takes part in no answer but its own: any other answer of `read` is what reading the text gives, the
/// setup itself or the first fault itself.
pub fn memory_takes_no_part()
    ensures answer { (result : Result Setup DefsFault)
        (reading given : Result SetupState DefsFault) → Gives state_of result reading
        → with_memory state_of result ≡ Some given → reading ≡ given }
    ensures want { (result : Result Setup DefsFault) (reading : Result SetupState DefsFault) →
        Gives state_of result reading → with_memory state_of result ≡ None
        → result ≡ Err (Memory Want) }
{}

/// A law: a run may be given the setup of some queues without arguments, and each setup that is read, over seven
/// nodes at most.
pub fn setups_may_be_run()
    ensures plain { (nodes group count log_bytes : ℕ) → 0 < nodes → nodes ≤ 7 → count < 2 ^ 32 →
        IsRunnable (plain_setup nodes group count log_bytes) }
    ensures read { (ignore : Bool) (nodes log_bytes : ℕ) (bytes : List ℕ) (s : SetupState) →
        0 < nodes → nodes ≤ 7 → read_setup ignore nodes log_bytes (document bytes) ≡ Ok s →
        IsRunnable s }
{}
