//! What is made of scripts.
mod made;
mod outgoing;
mod refusals;

use dmr_planning::{PlanFault, plan_script};
use dmr_record::{FromRead, ToWrite};
use dmr_script::read_script;
use std::alloc::{AllocError, Global};
use std::process::Abort;

/// The line of what was made of a script, and the recording in hexadecimal digits, or why there is none.
fn recording_of(alloc: Global, text: &str, is_outgoing_taken: bool) -> Result<String, AllocError> {
    let mut source = FromRead::new(text.as_bytes());
    let script = read_script(alloc, &mut source)?;
    let plan = match plan_script(alloc, &script, is_outgoing_taken) {
        Ok(plan) => plan,
        Err(PlanFault::Refused(refused)) => return format!(in alloc; "{refused}"),
        Err(PlanFault::Memory) => return Err(AllocError),
    };
    let mut sink = ToWrite::new(Vec::new(alloc));
    match plan.write_uplink(&mut sink) {
        Ok(made) => {
            let octets = hex::encode(alloc, sink.into_inner().as_slice())?;
            format!(in alloc; "{made}\n{octets}")
        }
        Err(_) => Err(AllocError),
    }
}

/// That this is what is made of a script that has `slot 1` in front, where no outgoing list is.
fn is_made(rt: &impl Abort, alloc: Global, lines: &str, expected: &str) -> Result<(), AllocError> {
    let text = format!(in alloc; "slot 1\n{lines}\n")?;
    let made = recording_of(alloc, text.as_str(), false)?;
    assert_eq!(rt; made.as_str(), expected, "{lines}");
    Ok(())
}
