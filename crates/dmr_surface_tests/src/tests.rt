//! A module a layer.
mod codes;
mod files;
mod packets;
mod refusals;
mod units;
mod voice;
