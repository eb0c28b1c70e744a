// The search for the nearest square of a store: waiting lists, the walk in depth, and keys with their partners.
#![tactic(auto)]

pub mod first;
mod hunt;
pub mod nearest;
pub mod neighbour;
mod stack;
pub mod waiting;
pub mod walk;
