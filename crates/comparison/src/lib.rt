// The guided search: a comparison that goes step by step, with a low and a high figure at any moment.
#![tactic(auto)]

pub mod call;
pub mod comparison;
pub mod fault;
mod ground;
pub mod record;
pub mod run;
pub mod suspect;
mod trial;
