//! Tests of `dmr_show`: what is printed of small files, cut and whole, and sinks that fail; of the lines that it prints
//! (dmr_listing); and of files as text (dmr_text).
#![tactic(auto)]

#[cfg(test)]
mod listing_tests;
#[cfg(test)]
mod tests;
