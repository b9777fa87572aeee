//! Tests of the crates for bits, codes, units of the air, packets, datagrams and files: values from outside, damage and faults.
//! Most calls on good values stand in dmr_surface_tests, and so does all that is tested of checks and Reed-Solomon words.
#![tactic(auto)]

#[cfg(test)]
mod tests;
