//! Tests of `dmr_gateway`: what it hears, receives and sends in worked frames.
#![tactic(auto)]

#[cfg(test)]
mod receiving_tests;
#[cfg(test)]
mod sending_tests;
#[cfg(test)]
mod tests;
#[cfg(test)]
mod traffic;
