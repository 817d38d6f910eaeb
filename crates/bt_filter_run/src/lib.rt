//! Row filters that run over rows.
#![tactic(auto)]

mod building;
mod cell_test;
mod cuts;
mod given;
mod leaf;
mod marking;
mod merging;
mod node;
mod row;
mod step;

pub use node::Node;
pub use row::filter_row;

#[cfg(test)]
mod tests;
