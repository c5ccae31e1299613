//! What a Raft server and its surroundings share: the messages between servers with their bytes, the bag
//! in which they travel, and what a server asks of its machine and its log.
#![tactic(auto)]

mod bag;
mod envelope;
mod fields;
mod kinds;
mod laws;
mod log_view;
mod queue;
mod reading;
mod rpc;
mod state;
mod writing;

pub use bag::{BAG_LIMIT, Bag, CopyFault, NoSuch};
pub use envelope::Envelope;
pub use laws::{messages_read_back, no_message_begins_another};
pub use log_view::LogView;
pub use queue::Queue;
pub use reading::decode;
pub use rpc::{AppendMsg, AppendedMsg, InstallMsg, InstalledMsg, Rpc, VoteMsg, VotedMsg};
pub use state::{Jobs, MemberState, Role, SnapshotJob};
pub use writing::encode;
