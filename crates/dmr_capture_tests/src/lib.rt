//! Tests of `dmr_capture`, `dmr_datagrams`, `dmr_dmrd` and `dmr_dmrd_export`: captures of others, what is written, and devices
//! that fail.
#![tactic(auto)]

#[cfg(test)]
mod burst_tests;
#[cfg(test)]
mod capture_tests;
#[cfg(test)]
mod captures;
#[cfg(test)]
mod comparing;
#[cfg(test)]
mod datagram_tests;
#[cfg(test)]
mod hotspot_tests;
