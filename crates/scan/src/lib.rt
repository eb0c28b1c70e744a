// The scan: how far one list of codes strays from another, by looking at the cells themselves.
#![tactic(auto)]

pub mod directed;
pub mod fault;
mod round;
pub mod two_way;
mod worst;
