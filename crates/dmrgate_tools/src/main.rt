//! `dmrgate`: a two-slot DMR repeater with an IP data gateway, run on recordings.
//!
//! These are its tools, a program of their own that has every command but those that repeat: `dmrgate show` lists what any of the
//! four files of a run holds. All that it does stands in libraries: `dmr_tools` reads the command line and does what it asks for.
//!
//! Its stored run is the listing of a recording, which comes in by standard input.
#![tactic(auto)]

use std::process::ExitCode;

fn main(rt: HostRuntime) -> ExitCode {
    ExitCode::from(dmr_tools::program(&rt))
}
