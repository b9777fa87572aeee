//! `dmrgate`: a two-slot DMR repeater with an IP data gateway, run on recordings.
//!
//! This is the program that repeats. `dmrgate run` repeats an uplink file into a downlink file, and `dmrgate slot` prints what one
//! burst is. All that it does stands in libraries: `dmr_command` reads the command line, and `dmr_program` does what it asks for.
//! Every other command of `dmrgate` is another program's, the tools (`dmrgate_tools`).
//!
//! Its stored run is over a recording: the uplink and the received file are files, the outgoing list comes in by standard input,
//! and the downlink goes out by standard output. The numbers of the run are then printed to standard error.
#![tactic(auto)]

use std::process::ExitCode;

fn main(rt: HostRuntime) -> ExitCode {
    ExitCode::from(dmr_program::program(&rt))
}
