// Stores: what is known of a set of cells, square by square.
#![tactic(auto)]

pub mod either;
pub mod list;
pub mod rectangle;
pub mod sound;
pub mod store;
pub mod window;
