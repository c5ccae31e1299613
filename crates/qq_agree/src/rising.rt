//! Whether terms rise along a log.
ghost use Rattle.std.specs.Prelude.{◌≡◌};
ghost use Rattle.std.specs.Bool.{Decides};
ghost use Rattle.std.specs.List.{list_all};
ghost use Rattle.qq_base.specs.declared.ids.NodeId.{NodeId};
ghost use Rattle.qq_agree.specs.Support.{TermsRise};
ghost use Rattle.qq_agree.specs.Tests.{all_rise, rises, terms_rise};

use crate::holder::Holder;
use qq_base::NodeId;

/// Whether terms don't fall along a member's log, and none is later than that of its lane.
pub(crate) fn terms_rise<H: Holder>(holder: &H, node: NodeId) -> bool
    requires { H.is_sound holder.now }

    ensures test { result ≡ terms_rise (H.lane holder.now node.0) }
    ensures exact { Decides result (TermsRise (H.lane holder.now node.0)) }
{
    let own = holder.term(node).0;
    let mut before = 0;
    'entries: for place in 0..holder.count(node) {
        let Some(entry) = holder.entry(node, place) else {
            return true;
        };
        let term = entry.term.0;
        if term < before || own < term {
            return false;
        }
        before = term;
    }
    true
}

/// Whether it is so of each member.
pub(crate) fn all_rise<H: Holder>(holder: &H, nodes: &[NodeId]) -> bool
    requires { H.is_sound holder.now }

    ensures { result ≡ all_rise (H.lane holder.now) nodes.now }
{
    'nodes: for node in nodes {
        if !terms_rise(holder, *node) {
            return false;
        }
    }
    true
}
