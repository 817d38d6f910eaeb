//! Laws of states, of filters and of the answers of reads, which follow from the definitions alone.
#![tactic(auto)]

mod answers;
mod labels;
mod reads;
mod states;

pub use answers::answers_join;
pub use labels::labels_once;
pub use reads::reads_join;
pub use states::{states_cut, states_held, states_reached, states_valid};
