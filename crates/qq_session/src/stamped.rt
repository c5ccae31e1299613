ghost use Rattle.std.specs.Prelude.{◌≡◌};
ghost use Rattle.qq_session.specs.Publishing.{stamped, closes};

use qq_entry::{Answer, Command, Stamp, Unstamped};

/// A client's command with its stamp.
pub fn stamped(stamp: Stamp, body: Unstamped) -> Command
    ensures { result ≡ stamped stamp body }
{
    match body {
        Unstamped::Enqueue { origin, message } => Command::Enqueue {
            stamp,
            origin,
            message,
        },
        Unstamped::Get => Command::Get { stamp },
        Unstamped::Subscribe { tag, mode } => Command::Subscribe { stamp, tag, mode },
        Unstamped::Cancel { tag } => Command::Cancel { stamp, tag },
        Unstamped::Credit {
            tag,
            count,
            credit,
            drain,
        } => Command::Credit {
            stamp,
            tag,
            count,
            credit,
            drain,
        },
        Unstamped::Settle { tag, ids } => Command::Settle { stamp, tag, ids },
        Unstamped::Return { tag, ids } => Command::Return { stamp, tag, ids },
        Unstamped::Discard { tag, ids } => Command::Discard { stamp, tag, ids },
        Unstamped::Purge => Command::Purge { stamp },
    }
}

/// Whether an answer closes its number. Where the gate let nothing in, for a gap, a full window or too
/// many sessions, the command is to be sent again.
pub fn closes(answer: &Answer) -> bool
    ensures { result ≡ closes answer.now }
{
    !matches!(
        answer,
        Answer::Gap { .. } | Answer::WindowFull | Answer::SessionsFull
    )
}
