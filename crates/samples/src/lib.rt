// What the programs that try and count share: numbers from a fixed generator, lists in order, and films in hexadecimal.
#![tactic(auto)]

pub mod dice;
pub mod films;
pub mod lists;
