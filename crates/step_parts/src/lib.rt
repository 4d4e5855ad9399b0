// What the four steps share: the configuration read, the answers, and what the reset rules lead a station to, tested and written.
#![tactic(auto)]

pub mod answer;
pub mod config;
pub mod turned;
