// When a screen may start, and what a frame of it comes to (01, "Starting a screen", "Refusal numbers").
#![tactic(auto)]

mod conversions;
pub mod limits;
mod range;
pub mod totals;
