// Kinds of figure by their meaning, ticks and bands.
#![tactic(auto)]

mod band;
mod ends;
mod exact;
mod fault;
mod figure;
mod laws;
mod tick;

pub use band::Bands;
pub use fault::FigureFault;
pub use figure::Figure;
pub use laws::{
    ends_stay_ordered, fraction_dropped_towards_zero, least_and_greatest_product,
    points_answer_as_ticks,
};
pub use tick::Ticks;
