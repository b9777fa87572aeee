//! Tests of `dmr_arq`: worked histories of a receiver, a sender, and both together.
#![tactic(auto)]

#[cfg(test)]
mod cells_tests;
#[cfg(test)]
mod receiver_tests;
#[cfg(test)]
mod sender_tests;
#[cfg(test)]
mod tests;
