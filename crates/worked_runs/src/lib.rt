// Pieces through the one interface, as tests. They stand in a crate above all pieces, so that what they test is proved once.
#![tactic(auto)]

#[cfg(test)]
mod tests;
