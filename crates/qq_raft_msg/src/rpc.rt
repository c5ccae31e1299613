ghost use Rattle.std.specs.Prelude.{◌≡◌};
ghost use Rattle.qq_raft_msg.specs.Rpc.{envelope, kind};

use crate::envelope::Envelope;
use crate::kinds;
use qq_base::{Bytes, Duplicate, Index, Memory, NodeId, Term};
use qq_entry::Entries;
use std::alloc::Global;

/// A candidate asks for a vote (Ongaro's dissertation, figure 3.1, RequestVote).
#[derive(Clone, Copy, Debug, PartialEq, Eq)]
pub struct VoteMsg {
    /// The candidate.
    pub from: NodeId,
    /// Whom it asks.
    pub to: NodeId,
    /// The candidate's term.
    pub term: Term,
    /// The index of the candidate's last entry.
    pub last_index: Index,
    /// The term of that entry.
    pub last_term: Term,
}

/// The answer to a `VoteMsg`.
#[derive(Clone, Copy, Debug, PartialEq, Eq)]
pub struct VotedMsg {
    /// Who was asked.
    pub from: NodeId,
    /// The candidate.
    pub to: NodeId,
    /// The answering server's term.
    pub term: Term,
    /// Whether the candidate has the vote.
    pub granted: bool,
}

/// A leader replicates entries (Ongaro's dissertation, figure 3.1, AppendEntries).
#[derive(Debug, Drop, PartialEq)]
pub struct AppendMsg {
    /// The leader.
    pub from: NodeId,
    /// The follower.
    pub to: NodeId,
    /// The leader's term.
    pub term: Term,
    /// The index of the entry before the new ones, 0 for none.
    pub prev_index: Index,
    /// The term of that entry.
    pub prev_term: Term,
    /// The leader's commit index.
    pub commit: Index,
    /// The new entries, none for a heartbeat.
    pub entries: Entries,
}

/// The answer to an `AppendMsg`.
#[derive(Clone, Copy, Debug, PartialEq, Eq)]
pub struct AppendedMsg {
    /// The follower.
    pub from: NodeId,
    /// The leader.
    pub to: NodeId,
    /// The answering server's term.
    pub term: Term,
    /// Whether the entries stand in the follower's log.
    pub ok: bool,
    /// Where they do, the last of them; else an index from which the leader may go on.
    pub index: Index,
}

/// A leader sends a snapshot (Ongaro's dissertation, figure 5.3, InstallSnapshot).
#[derive(Debug, Drop, PartialEq)]
pub struct InstallMsg {
    /// The leader.
    pub from: NodeId,
    /// The follower.
    pub to: NodeId,
    /// The leader's term.
    pub term: Term,
    /// The last entry that the snapshot replaces.
    pub index: Index,
    /// The term of that entry.
    pub last_term: Term,
    /// The last entry that was applied when the snapshot was taken.
    pub through: Index,
    /// The snapshot's bytes.
    pub shadow: Bytes,
}

/// The answer to an `InstallMsg`.
#[derive(Clone, Copy, Debug, PartialEq, Eq)]
pub struct InstalledMsg {
    /// The follower.
    pub from: NodeId,
    /// The leader.
    pub to: NodeId,
    /// The answering server's term.
    pub term: Term,
    /// The entry up to which the follower has all that the snapshot holds.
    pub index: Index,
}

/// A message from one server of a group to another.
#[derive(Debug, Drop, PartialEq)]
pub enum Rpc {
    /// A candidate asks for a vote.
    Vote(VoteMsg),
    /// The answer to it.
    Voted(VotedMsg),
    /// A leader replicates entries.
    Append(AppendMsg),
    /// The answer to it.
    Appended(AppendedMsg),
    /// A leader sends a snapshot.
    Install(InstallMsg),
    /// The answer to it.
    Installed(InstalledMsg),
}

impl Rpc {
    /// Who sends the message, who is to get it, and the sender's term.
    pub fn envelope(&self) -> Envelope
        ensures { result ≡ envelope self.now }
    {
        let (from, to, term) = match self {
            Rpc::Vote(m) => (m.from, m.to, m.term),
            Rpc::Voted(m) => (m.from, m.to, m.term),
            Rpc::Append(m) => (m.from, m.to, m.term),
            Rpc::Appended(m) => (m.from, m.to, m.term),
            Rpc::Install(m) => (m.from, m.to, m.term),
            Rpc::Installed(m) => (m.from, m.to, m.term),
        };
        Envelope { from, to, term }
    }

    /// The number of the message's kind.
    pub fn kind(&self) -> u8
        ensures { result ≡ kind self.now }
    {
        match self {
            Rpc::Vote(_) => kinds::VOTE,
            Rpc::Voted(_) => kinds::VOTED,
            Rpc::Append(_) => kinds::APPEND,
            Rpc::Appended(_) => kinds::APPENDED,
            Rpc::Install(_) => kinds::INSTALL,
            Rpc::Installed(_) => kinds::INSTALLED,
        }
    }
}

impl Duplicate for AppendMsg {
    fn copy(&self, alloc: Global) -> Result<Self, Memory> {
        Ok(AppendMsg {
            from: self.from,
            to: self.to,
            term: self.term,
            prev_index: self.prev_index,
            prev_term: self.prev_term,
            commit: self.commit,
            entries: self.entries.copy(alloc)?,
        })
    }
}

impl Duplicate for InstallMsg {
    fn copy(&self, alloc: Global) -> Result<Self, Memory> {
        Ok(InstallMsg {
            from: self.from,
            to: self.to,
            term: self.term,
            index: self.index,
            last_term: self.last_term,
            through: self.through,
            shadow: self.shadow.copy(alloc)?,
        })
    }
}

impl Duplicate for Rpc {
    fn copy(&self, alloc: Global) -> Result<Self, Memory> {
        Ok(match self {
            Rpc::Vote(m) => Rpc::Vote(*m),
            Rpc::Voted(m) => Rpc::Voted(*m),
            Rpc::Append(m) => Rpc::Append(m.copy(alloc)?),
            Rpc::Appended(m) => Rpc::Appended(*m),
            Rpc::Install(m) => Rpc::Install(m.copy(alloc)?),
            Rpc::Installed(m) => Rpc::Installed(*m),
        })
    }
}
