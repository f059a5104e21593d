// The byte forms of cell and recipe records, both ways.
#![tactic(auto)]

mod get;
mod put;

pub use get::{bytes_at, get_cell, get_recipe, no_cell, no_recipe};
pub use put::{put_cell, put_recipe};
