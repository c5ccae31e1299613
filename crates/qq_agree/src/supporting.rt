//! Whether the logs of a group's members support an audit.
ghost use Rattle.std.specs.Prelude.{◌<◌, ◌^◌, length};
ghost use Rattle.std.specs.Bool.{Decides};
ghost use Rattle.qq_agree.specs.Support.{HaveAll, SupportAudit};

use crate::electing::all_have_elections;
use crate::holder::Holder;
use crate::matching::all_match;
use crate::rising::all_rise;
use qq_base::NodeId;

/// Whether the logs of a group's members support an audit, where nobody else has entries: whether terms rise
/// along each, each two match, and each term of an entry may have had its election.
pub fn support_audit<H: Holder>(holder: &H, nodes: &[NodeId]) -> bool
    requires sound { H.is_sound holder.now }
    requires count { length nodes.now < 2 ^ 32 }

    ensures { HaveAll nodes.now (H.lane holder.now) →
        Decides result (SupportAudit nodes.now (H.lane holder.now)) }
{
    let rise = all_rise(holder, nodes);
    if !rise {
        return false;
    }
    let agree = all_match(holder, nodes);
    if !agree {
        return false;
    }
    all_have_elections(holder, nodes)
}
