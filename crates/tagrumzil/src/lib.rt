// The port for C and Rust: plain numbers and slices, and a state in a lent row.
#![tactic(auto)]

pub mod bare;
pub mod day;
pub mod fault;
pub mod frames;
pub mod nested;
pub mod picking;
pub mod reading;
pub mod settling;
pub mod writing;
