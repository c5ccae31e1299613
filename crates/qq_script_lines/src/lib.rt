//! What the lines of a script say. No input is read here.
#![tactic(auto)]

mod arguments;
mod bodies;
mod commands;
mod fault;
mod images;
mod laws;
mod line;
mod names;
mod numbers;
mod parse;
mod words;

pub use fault::ScriptFault;
pub use laws::{faults_of_lines_have_causes, numbers_are_decimal_texts};
pub use line::{LINE_LIMIT, Nodes, Place, ScriptLine};
pub use numbers::number_in;
pub use parse::{parse_line, text_in};
pub use words::{parts_of, text_of};
