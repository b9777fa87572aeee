//! Calls: their link controls, keys, and what they carry.
use super::{says, sends};
use dmr_link::FullLc;
use dmr_script::{
    Call, CallShape, CallStart, Carried, HeaderKind, Headers, Sender, Statement, Transmission,
    Transmit,
};
use std::alloc::{AllocError, Global};
use std::process::Abort;
use std::test::Fail;

/// A link control of the standard's feature set.
fn lc(flco: u8, body: [u8; 7]) -> FullLc {
    FullLc {
        protect: false,
        reserved: false,
        flco,
        fid: 0,
        body,
    }
}

/// One voice LC header.
fn header(alloc: Global) -> CallShape {
    CallShape {
        start: CallStart::Headers(Headers {
            more: Vec::new(alloc),
            silences: 0,
        }),
        places: Vec::new(alloc),
        terminators: 0,
    }
}

/// A call that is one voice LC header, with this link control.
fn call_of(alloc: Global, link_control: FullLc) -> Transmission {
    Transmission::Call(Call {
        link_control,
        pi: false,
        key: [0; 10],
        carried: Vec::new(alloc),
        shape: header(alloc),
    })
}

/// The call from 2 to talk group 1.
const GROUP_CALL: [u8; 7] = [0, 0, 0, 1, 0, 0, 2];

#[test]
fn link_controls(rt: HostRuntime) -> Result<(), Fail> {
    let alloc = rt.alloc();
    let rows = [
        ("group call 2 -> 1: H", lc(0, GROUP_CALL)),
        ("unit call 2 -> 1: H", lc(3, GROUP_CALL)),
        (
            "unit call 16777215 -> 66051: H",
            lc(3, [0, 1, 2, 3, 255, 255, 255]),
        ),
        (
            "group call 2 -> 1, emergency: H",
            lc(0, [0x80, 0, 0, 1, 0, 0, 2]),
        ),
        (
            "group call 2 -> 1, privacy: H",
            lc(0, [0x40, 0, 0, 1, 0, 0, 2]),
        ),
        (
            "group call 2 -> 1, broadcast: H",
            lc(0, [0x08, 0, 0, 1, 0, 0, 2]),
        ),
        (
            "group call 2 -> 1, OVCM, priority 3: H",
            lc(0, [0x07, 0, 0, 1, 0, 0, 2]),
        ),
        (
            "group call 2 -> 1, emergency, privacy, broadcast, OVCM, priority 1: H",
            lc(0, [0xcd, 0, 0, 1, 0, 0, 2]),
        ),
        (
            "talker alias header 01020304050607: H",
            lc(4, [1, 2, 3, 4, 5, 6, 7]),
        ),
        (
            "talker alias block 1 01020304050607: H",
            lc(5, [1, 2, 3, 4, 5, 6, 7]),
        ),
        (
            "talker alias block 3 01020304050607: H",
            lc(7, [1, 2, 3, 4, 5, 6, 7]),
        ),
        ("GPS info 01020304050607: H", lc(8, [1, 2, 3, 4, 5, 6, 7])),
        (
            "LC opcode 63 01020304050607: H",
            lc(63, [1, 2, 3, 4, 5, 6, 7]),
        ),
        (
            "LC opcode 5, fid 16, 01020304050607: H",
            FullLc {
                protect: false,
                reserved: false,
                flco: 5,
                fid: 16,
                body: [1, 2, 3, 4, 5, 6, 7],
            },
        ),
    ];
    for (line, link_control) in rows {
        sends(&rt, alloc, line, call_of(alloc, link_control))?;
    }
    Ok(())
}

#[test]
fn key_and_pi(rt: HostRuntime) -> Result<(), Fail> {
    let alloc = rt.alloc();
    sends(
        &rt,
        alloc,
        "group call 2 -> 1, PI, key 00010203040506070809: HP",
        Transmission::Call(Call {
            link_control: lc(0, GROUP_CALL),
            pi: true,
            key: [0, 1, 2, 3, 4, 5, 6, 7, 8, 9],
            carried: Vec::new(alloc),
            shape: CallShape {
                start: CallStart::Headers(Headers {
                    more: [HeaderKind::Privacy].to_vec(alloc)?,
                    silences: 0,
                }),
                places: Vec::new(alloc),
                terminators: 0,
            },
        }),
    )?;
    Ok(())
}

/// That a call carries this, in its superframes.
fn carries(
    rt: &impl Abort,
    alloc: Global,
    line: &str,
    expected: &[Carried],
) -> Result<(), AllocError> {
    sends(
        rt,
        alloc,
        line,
        Transmission::Call(Call {
            link_control: lc(0, GROUP_CALL),
            pi: false,
            key: [0; 10],
            carried: expected.to_vec(alloc)?,
            shape: header(alloc),
        }),
    )
}

#[test]
fn carried_items(rt: HostRuntime) -> Result<(), Fail> {
    let alloc = rt.alloc();
    carries(
        &rt,
        alloc,
        "group call 2 -> 1, carrying own / none / GPS info 01020304050607 / unit call 3 -> 4, emergency / own: H",
        &[
            Carried::Own,
            Carried::Nothing,
            Carried::LinkControl(lc(8, [1, 2, 3, 4, 5, 6, 7])),
            Carried::LinkControl(lc(3, [0x80, 0, 0, 4, 0, 0, 3])),
            Carried::Own,
        ],
    )?;
    carries(
        &rt,
        alloc,
        "group call 2 -> 1, carrying alias \"\": H",
        &[Carried::LinkControl(lc(4, [0x80, 0, 0, 0, 0, 0, 0]))],
    )?;
    carries(
        &rt,
        alloc,
        "group call 2 -> 1, carrying alias \"ABCDEF\": H",
        &[Carried::LinkControl(lc(4, [0x8c, 65, 66, 67, 68, 69, 70]))],
    )?;
    carries(
        &rt,
        alloc,
        "group call 2 -> 1, carrying alias \"ABCDEFG\": H",
        &[
            Carried::LinkControl(lc(4, [0x8e, 65, 66, 67, 68, 69, 70])),
            Carried::LinkControl(lc(5, [71, 0, 0, 0, 0, 0, 0])),
        ],
    )?;
    carries(
        &rt,
        alloc,
        "group call 2 -> 1, carrying alias \"ABCDEFGHIJKLMNOPQRSTUVWXYZ#\" / own: H",
        &[
            Carried::LinkControl(lc(4, [0xb6, 65, 66, 67, 68, 69, 70])),
            Carried::LinkControl(lc(5, [71, 72, 73, 74, 75, 76, 77])),
            Carried::LinkControl(lc(6, [78, 79, 80, 81, 82, 83, 84])),
            Carried::LinkControl(lc(7, [85, 86, 87, 88, 89, 90, 35])),
            Carried::Own,
        ],
    )?;
    Ok(())
}

#[test]
fn another_colour_code(rt: HostRuntime) -> Result<(), Fail> {
    let alloc = rt.alloc();
    says(
        &rt,
        alloc,
        "foreign 2 group call 2 -> 1: H",
        Statement::Transmit(Transmit {
            sender: Sender::Foreign(2),
            transmission: call_of(alloc, lc(0, GROUP_CALL)),
        }),
    )?;
    Ok(())
}
