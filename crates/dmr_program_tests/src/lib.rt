//! Tests of what the program that repeats does with its command line, its files and its two outputs (dmr_lines, dmr_reading,
//! dmr_files, dmr_watch, dmr_options, dmr_command, dmr_program).
#![tactic(auto)]

#[cfg(test)]
mod tests;
