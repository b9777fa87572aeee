//! Tests of the command lines of the tools (`dmr_tools`, `dmr_tool_options`): what words ask for, which are refused, and what is
//! printed.
#![tactic(auto)]

#[cfg(test)]
mod tests;
