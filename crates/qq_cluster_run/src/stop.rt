ghost use Rattle.std.specs.Prelude.{◌≡◌};
ghost use Rattle.qq_cluster_run.specs.Runs.{ending_of};

use crate::ending::Ending;

/// Why a line asks for nothing.
#[derive(Drop)]
pub enum AskStop {
    /// The script ends at this line.
    Ended(Ending),
    /// There was no memory.
    NoMemory,
}

/// Why a text isn't written whole.
#[derive(Clone, Copy)]
pub enum PrintFault {
    /// The sink failed.
    Failed,
    /// There was no memory.
    NoMemory,
}

/// Why a run stops before the end of its input.
#[derive(Drop)]
pub enum Stop {
    /// One of its lines ends it.
    Ended(Ending),
    /// The source failed.
    ReadFault,
    /// The sink failed.
    WriteFault,
    /// There was no memory.
    NoMemory,
}

impl Stop {
    /// How a run ends that stops so.
    pub fn ending(self) -> Ending
        ensures { result ≡ ending_of self }
    {
        match self {
            Stop::Ended(ending) => ending,
            Stop::ReadFault => Ending::read_fault(),
            Stop::WriteFault => Ending::write_fault(),
            Stop::NoMemory => Ending::no_memory(),
        }
    }
}

impl From<AskStop> for Stop {
    ghost use Rattle.qq_cluster_run.specs.Runs.{stop_of};

    ghost from_gives = { λ ask stop. stop ≡ stop_of ask };

    fn from(ask: AskStop) -> Self {
        match ask {
            AskStop::Ended(ending) => Stop::Ended(ending),
            AskStop::NoMemory => Stop::NoMemory,
        }
    }
}
