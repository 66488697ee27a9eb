// The archive for C and Rust: each export calls crate tagrumzil's function of the same name, and states its clauses again. The header that declares
// them is host/tagrumzil.h.
#![tactic(auto)]

mod bare;
mod day;
mod fault;
mod frames;
mod nested;
mod picking;
mod reading;
mod settling;
mod writing;
