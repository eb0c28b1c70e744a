// Trees: sets of cells as bitmaps, level by level; their directory, a reader that is a store, a writer, and the tally.
#![tactic(auto)]

mod bitmaps;
pub mod directory;
pub mod fault;
mod height;
pub mod laws;
mod opening;
pub mod query;
pub mod reader;
mod tally;
pub mod writer;
