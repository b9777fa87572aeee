//! Tests of `dmr_planning`: the recordings and outgoing lists of scripts, octet for octet, and what is said of lines that are
//! refused.
#![tactic(auto)]

#[cfg(test)]
mod tests;
