// The greedy rule, and pickers that keep it.
#![tactic(auto)]

mod greedy;
mod oldest;
mod picker;
mod turn;
mod write;
mod youngest;

pub use greedy::pick_greedily;
pub use oldest::Oldest;
pub use picker::Picker;
pub use turn::Turn;
pub use youngest::Youngest;
