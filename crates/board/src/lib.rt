// The board: cells and their codes, squares and their quarters, measures, the near and far amounts of two squares, and lists of codes.
#![tactic(auto)]

pub mod amounts;
pub mod cell;
pub mod finding;
pub mod list;
pub mod measure;
pub mod refusal;
pub mod side;
pub mod span;
pub mod square;
