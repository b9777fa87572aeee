//! The public calls that programs are written against, each by its name and in its shape, on values from outside.
#![tactic(auto)]

#[cfg(test)]
mod tests;
