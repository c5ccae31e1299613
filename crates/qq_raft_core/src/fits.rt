//! Which messages a server takes.
ghost use Rattle.std.specs.Prelude.{◌≡◌, ◌+◌, All, length};
ghost use Rattle.std.specs.List.{list_all, list_any};
ghost use Rattle.qq_entry.specs.Range.{IsWritable as IsEntry};
ghost use Rattle.qq_raft_msg.specs.Rpc.{IsWritable};
ghost use Rattle.qq_raft_model.specs.Server.{is_peer};
ghost use Rattle.qq_raft_core.specs.Ends.{is_within, has_term, has_indices, is_short, has_size};

use qq_base::{NUMBER_END, NodeId};
use qq_command::encoded_len;
use qq_entry::Entry;
use qq_log::RECORD_LIMIT;
use qq_raft_model::Peer;
use qq_raft_msg::{AppendMsg, Rpc};

/// The bytes of a change's record beside its entries.
const CHANGE_LEN: usize = 46;

pub(crate) fn has_peer(node: NodeId, peers: &[Peer]) -> bool
    ensures { result ≡ list_any (is_peer node) peers.now }
{
    peers.iter().any(|peer| peer.node.0 == node.0)
}

pub(crate) fn is_within(number: u64) -> bool
    ensures { result ≡ is_within number }
{
    number <= NUMBER_END
}

fn has_end(m: &AppendMsg) -> bool
    ensures { result ≡ is_within (m.now.prev_index.0 + length m.now.entries) }
{
    let count = m.entries.len() as u64;
    count <= NUMBER_END && m.prev_index.0 <= NUMBER_END - count
}

fn has_terms(entries: &[Entry]) -> bool
    ensures { result ≡ list_all has_term entries.now }
{
    entries.iter().all(|entry| is_within(entry.term.0))
}

/// Whether the log may write entries in one change.
fn is_short(entries: &[Entry]) -> bool
    requires { All IsEntry entries.now }
    ensures { result ≡ is_short entries.now }
{
    let mut len = CHANGE_LEN;
    'entries: for entry in entries {
        if len > RECORD_LIMIT {
            return false;
        }
        len += encoded_len(entry);
    }
    len <= RECORD_LIMIT
}

/// Whether a message's entries may be written in one change.
pub(crate) fn has_size(rpc: &Rpc) -> bool
    requires { IsWritable rpc.now }
    ensures { result ≡ has_size rpc.now }
{
    match rpc {
        Rpc::Append(m) => is_short(m.entries.as_slice()),
        _ => true,
    }
}

/// Whether the indices and terms of a message are within their ends.
pub(crate) fn has_indices(rpc: &Rpc) -> bool
    ensures { result ≡ has_indices rpc.now }
{
    match rpc {
        Rpc::Vote(m) => is_within(m.last_index.0) && is_within(m.last_term.0),
        Rpc::Voted(_) => true,
        Rpc::Append(m) => {
            is_within(m.prev_index.0)
                && is_within(m.prev_term.0)
                && is_within(m.commit.0)
                && has_end(m)
                && has_terms(m.entries.as_slice())
        }
        Rpc::Appended(m) => is_within(m.index.0),
        Rpc::Install(m) => {
            is_within(m.index.0) && is_within(m.last_term.0) && is_within(m.through.0)
        }
        Rpc::Installed(m) => is_within(m.index.0),
    }
}
