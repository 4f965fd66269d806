// Runs of the shared objects: any list of calls of a tray, what no run brings back, and the run of the held feeder.
#![tactic(auto)]

pub mod events;
pub mod held_feeder;
pub mod no_return;
pub mod off;
pub mod play;
