// A comparison by script: how an operator works step by step, and how a log is replayed.
#![tactic(auto)]

pub mod answer;
pub mod films;
pub mod kind;
pub mod script;
pub mod session;
