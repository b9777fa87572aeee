//! A module a crate.
mod bits;
mod bptc;
mod burst;
mod codes;
mod csbk;
mod data;
mod embedded;
mod ip;
mod link;
mod record;
mod texts;
mod words;
