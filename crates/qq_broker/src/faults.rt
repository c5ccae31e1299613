use qq_opening::RestartFault;
use thiserror::Error;

/// Why a cluster isn't opened over disks.
#[derive(Clone, Copy, Debug, PartialEq, Eq, Error)]
pub enum OpenFault {
    /// The disk of each node has failed.
    #[error("the disk of each node has failed")]
    Disk,
    /// The logs of a node break the rules, those of a queue aren't of one run or aren't what was promised, there was
    /// no memory, or a number is at its end.
    #[error("{0}")]
    Nodes(RestartFault),
}

/// Why a line isn't served.
#[derive(Clone, Copy, Debug, PartialEq, Eq, Error)]
pub enum StepFault {
    /// No taker is there of the number that the line names, or it was given away.
    #[error("no such taker")]
    NoSuch,
    /// The yard makes no crash.
    #[error("the yard has failed")]
    Yard,
    /// A node isn't restarted, there was no memory, or a number is at its end.
    #[error("{0}")]
    Nodes(RestartFault),
}
