//! Outgoing lists, against octets from outside.
use dmr_planning::{PlanFault, plan_script};
use dmr_record::{FromRead, ToWrite};
use dmr_script::read_script;
use std::alloc::{AllocError, Global};
use std::test::Fail;

/// The outgoing list of a script in hexadecimal digits, or why there is none.
fn list_of(alloc: Global, text: &str) -> Result<String, AllocError> {
    let mut source = FromRead::new(text.as_bytes());
    let script = read_script(alloc, &mut source)?;
    let plan = match plan_script(alloc, &script, true) {
        Ok(plan) => plan,
        Err(PlanFault::Refused(refused)) => return format!(in alloc; "{refused}"),
        Err(PlanFault::Memory) => return Err(AllocError),
    };
    let mut sink = ToWrite::new(Vec::new(alloc));
    match plan.write_outgoing(&mut sink) {
        Ok(()) => hex::encode(alloc, sink.into_inner().as_slice()),
        Err(_) => Err(AllocError),
    }
}

/// A datagram without data, and records by their frames, then slot 1 first, then by their lines.
#[test]
fn lists(rt: HostRuntime) -> Result<(), Fail> {
    let rows = [
        (
            "slot 1\nsend at 5, UDP 12.0.0.1:5016 -> 12.0.0.2:5018, id 4660\n",
            "444d524f0100000002000000050100001c4500001c123400004011509b0c0000010c0000021398139a0008c0a9",
        ),
        (
            "slot 2\nsend at 5, octets 01\nslot 1\nsend at 5, confirmed, rate 1, octets 0203\nsend at 4, octets -\nsend at \
5, octets 04\n",
            "444d524f0100000002000000040100000002000000050103000202030200000005010000010402000000050200000101",
        ),
    ];
    for (text, expected) in rows {
        let list = list_of(rt.alloc(), text)?;
        assert_eq!(&rt; list.as_str(), expected, "{text}");
    }
    Ok(())
}
