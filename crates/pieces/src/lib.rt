// What a piece is, a shared object that workers use one access at a time, and what it has to show; and the tray.
#![tactic(auto)]

pub mod alone;
pub mod ordinary;
pub mod piece;
pub mod refusals;
pub mod seats;
pub mod tray;
