//! A module for each command, over one system that stands in.
mod capturing;
mod carrying;
mod command_line;
mod comparing;
mod damaging;
mod logging;
mod making;
mod stand_in;
