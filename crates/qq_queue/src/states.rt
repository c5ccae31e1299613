//! The line that tells the state of a member.
ghost use Rattle.std.specs.Prelude.{◌≡◌, ◌++◌, Option, OnOk, OnErr, IsOkUnless, option_map};
ghost use Rattle.qq_cluster_model.specs.Texts.{role_text, state_line, state_text};
ghost use Rattle.qq_raft_core.specs.Raft.{state_of};
ghost use Rattle.qq_raft_model.specs.State.{Server};
ghost use Rattle.qq_queue.specs.ClusterQueue.{OfItsQueue};
ghost use Rattle.qq_queue.specs.Members.{AreSound};

use crate::cluster_queue::ClusterQueue;
use qq_base::{Memory, NodeId};
use qq_raft_msg::{MemberState, Role};
use qq_script::{push_number, push_text};
use std::alloc::Global;

fn role_text(role: Role) -> &'static str
    ensures { result.now ≡ role_text role }
{
    match role {
        Role::Follower => "follower",
        Role::Candidate => "candidate",
        Role::Leader => "leader",
    }
}

// What a member tells of itself, or that it is down.
fn push_state(line: &mut Vec<u8>, member: Option<MemberState>) -> Result<(), Memory>
    ensures ok { OnOk result ((server : Option Server) → member ≡ option_map state_of server →
        line.new.items ≡ line.old.items ++ state_text server) }
    ensures want { IsOkUnless result Memory.Want }
{
    let Some(state) = member else {
        return push_text(line, "down");
    };
    push_text(line, role_text(state.role))?;
    push_text(line, " term ")?;
    push_number(line, state.term.0)?;
    push_text(line, " last ")?;
    push_number(line, state.last.0)?;
    push_text(line, " commit ")?;
    push_number(line, state.commit.0)?;
    Ok(())
}

impl ClusterQueue {
    /// Adds the line of the state of the member on a node. The only error is `Memory::Want`, out of memory, after
    /// which `out` is as it was.
    pub fn state_text(&self, alloc: Global, node: NodeId, out: &mut Vec<u8>) -> Result<(), Memory>
        requires { AreSound self.now.group }

        ensures ok { OnOk result (OfItsQueue self.now (λ q. out.new.items ≡ out.old.items
            ++ state_line self.now.name node.0 (q.group.seat node.0).server)) }
        ensures err { OnErr result (out.new.items ≡ out.old.items) }
        ensures want { IsOkUnless result Memory.Want }
    {
        let mut line = Vec::new(alloc);
        push_text(&mut line, self.name.as_str())?;
        push_text(&mut line, " ")?;
        push_number(&mut line, u64::from(node.0))?;
        push_text(&mut line, " ")?;
        push_state(&mut line, self.group.member(node))?;
        push_text(&mut line, "\n")?;
        out.extend_from_slice(line.as_slice())?;
        Ok(())
    }
}
