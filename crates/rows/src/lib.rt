// A state in a lent row of numbers, and what a call leaves with a caller that has such a row: what the exports of `tagrumzil` are made of.
#![tactic(auto)]

pub mod row;
pub mod stops;
pub mod structs;
pub mod told;
