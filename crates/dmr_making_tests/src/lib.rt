//! Tests of `dmr_making`: the bursts of transmissions, octet for octet.
#![tactic(auto)]

#[cfg(test)]
mod tests;
