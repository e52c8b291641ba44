// Tables of fixed memory: the rows of a lent one, and a buffer with its length beside it.
#![tactic(auto)]

mod edit;
mod fixed_vec;
mod full;
mod part;

pub use edit::{insert_row, remove_row, replace_row};
pub use fixed_vec::FixedVec;
pub use full::Full;
pub use part::{rows_from, used_rows};
