//! Tests of `dmr_log_forms`: what is printed of logs, as lines, as CSV, and as JSON.
#![tactic(auto)]

#[cfg(test)]
mod page_tests;
#[cfg(test)]
mod recordings;
#[cfg(test)]
mod tests;
