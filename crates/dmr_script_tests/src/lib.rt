//! Tests of `dmr_script`: the statements of lines, and what is said of lines that are refused.
#![tactic(auto)]

#[cfg(test)]
mod tests;
