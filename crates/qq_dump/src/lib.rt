//! What a node's log files hold, as text: a line for each record that reads, and one for where a file's records
//! end. It looks at the files as they are, whatever recovery would make of them.
#![tactic(auto)]

mod fault;
mod laws;
mod logs;
mod text;

pub use fault::DumpFault;
pub use laws::{
    a_dump_tells_what_it_wrote, a_worked_disk_is_dumped, log_files_are_those_that_are_shown,
};
pub use logs::dump;
