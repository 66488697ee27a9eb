// A frame's state in a lent row of numbers: what the frame exports of `tagrumzil` are made of. Its enums cross as numbers, each form by one of its own.
#![tactic(auto)]

use frame::{Goal, Nest, Now};

pub mod open;
pub mod rest;
pub mod state;

// An open container, what a number is for, and where a frame rests: by their numbers, where they are such.
#[derive(Clone, Copy)]
pub enum NestRead {
    Got(Nest),
    Refused,
}

#[derive(Clone, Copy)]
pub enum GoalRead {
    Got(Goal),
    Refused,
}

#[derive(Clone, Copy)]
pub enum NowRead {
    Got(Now),
    Refused,
}
