// The whole job: two films as bytes in, one line out.
#![tactic(auto)]

pub mod failure;
pub mod fault;
pub mod files;
pub mod films;
pub mod line;
pub mod records;
