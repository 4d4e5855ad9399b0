// turnover's input: the numbers of a line, the command that a line says, and lines of any length.
#![tactic(auto)]

pub mod command;
pub mod fields;
pub mod line;
pub mod lines;
