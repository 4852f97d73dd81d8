// The lines of the script that draws a chart, put into a lent room.
#![tactic(auto)]

pub mod ending;
pub mod pokes;
pub mod settings;
