// What every part of the collection shares: elements, commands, replies, answers and refusals.
#![tactic(auto)]

pub mod answers;
pub mod commands;
pub mod element;
pub mod kinds;
pub mod numbers;
pub mod refusals;
