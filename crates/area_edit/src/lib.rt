// The state area edited in place: one station's record or one link at a time, and control items on every link out of a station.
#![tactic(auto)]

pub mod controls;
pub mod parts;
