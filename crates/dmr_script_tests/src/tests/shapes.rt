//! Shapes of calls.
use super::{are_same, script_of};
use dmr_script::{CallShape, CallStart, HeaderKind, Headers, Statement, Transmission};
use std::alloc::{AllocError, Global};
use std::process::Abort;
use std::test::Fail;

/// The shape of the call that a statement sends, if it does.
fn shape_in(statement: Statement) -> Option<CallShape> {
    match statement {
        Statement::Transmit(transmit) => match transmit.transmission {
            Transmission::Call(call) => Some(call.shape),
            _ => None,
        },
        _ => None,
    }
}

/// The shape of a call with these letters.
fn shape_of(alloc: Global, letters: &str) -> Result<Option<CallShape>, AllocError> {
    let text = format!(in alloc; "slot 1\ngroup call 2 -> 1: {letters}")?;
    let mut script = script_of(alloc, text.as_str())?;
    Ok(
        script
            .statements
            .pop()
            .and_then(|last| shape_in(last.statement)),
    )
}

/// For each letter, whether it isn't a dot.
fn presence(alloc: Global, letters: &[u8]) -> Result<Vec<bool>, AllocError> {
    letters.iter().map(|letter| *letter != b'.').collect(alloc)
}

/// These letters are a call with these headers behind the first, silences, places and terminators.
fn expect_headed(
    rt: &(impl Abort + AllocGlobal),
    letters: &str,
    more: &[HeaderKind],
    silences: u8,
    places: &[u8],
    terminators: u32,
) -> Result<(), AllocError> {
    let alloc = rt.alloc();
    let shape = CallShape {
        start: CallStart::Headers(Headers {
            more: more.to_vec(alloc)?,
            silences,
        }),
        places: presence(alloc, places)?,
        terminators,
    };
    are_same(rt, letters, &shape_of(alloc, letters)?, &Some(shape));
    Ok(())
}

/// These letters are a call that is cut off, with these places in front of the first A and from there on, and terminators.
fn expect_late(
    rt: &(impl Abort + AllocGlobal),
    letters: &str,
    tail: &[u8],
    places: &[u8],
    terminators: u32,
) -> Result<(), AllocError> {
    let alloc = rt.alloc();
    let shape = CallShape {
        start: CallStart::Late(presence(alloc, tail)?),
        places: presence(alloc, places)?,
        terminators,
    };
    are_same(rt, letters, &shape_of(alloc, letters)?, &Some(shape));
    Ok(())
}

#[test]
fn calls_with_headers(rt: HostRuntime) -> Result<(), Fail> {
    let again = HeaderKind::Voice;
    let privacy = HeaderKind::Privacy;
    let three = [privacy, again, privacy];
    expect_headed(&rt, "H", &[], 0, b"", 0)?;
    expect_headed(&rt, "HHPT T", &[again, privacy], 0, b"", 2)?;
    expect_headed(&rt, "H . A.CDEF T", &[], 1, b"A.CDEF", 1)?;
    expect_headed(&rt, "H..... A", &[], 5, b"A", 0)?;
    expect_headed(&rt, "H A.....T", &[], 0, b"A.....", 1)?;
    expect_headed(&rt, "H A..... ABC", &[], 0, b"A.....ABC", 0)?;
    expect_headed(&rt, "2*HP 2*ABCDEF 3*T", &three, 0, b"ABCDEFABCDEF", 3)?;
    Ok(())
}

#[test]
fn late_calls(rt: HostRuntime) -> Result<(), Fail> {
    expect_late(&rt, "EF ABCDEF", b"EF", b"ABCDEF", 0)?;
    expect_late(&rt, "B.D.F A....F AB", b"B.D.F", b"A....FAB", 0)?;
    expect_late(&rt, ".....ABCDEFT", b".....", b"ABCDEF", 1)?;
    expect_late(&rt, "AB", b"", b"AB", 0)?;
    Ok(())
}

#[test]
fn second_call_behind_absent_places(rt: HostRuntime) -> Result<(), Fail> {
    let letters = "B.D.F A.....AB";
    are_same(&rt, letters, &shape_of(rt.alloc(), letters)?, &None);
    Ok(())
}

#[test]
fn longest_voice(rt: HostRuntime) -> Result<(), Fail> {
    let shape = shape_of(rt.alloc(), "174762*ABCDEF")?;
    let places = shape.map(|shape| shape.places.len());
    are_same(&rt, "places", &places, &Some(1_048_572));
    Ok(())
}

#[test]
fn most_terminators(rt: HostRuntime) -> Result<(), Fail> {
    let shape = shape_of(rt.alloc(), "H 1048575*T")?;
    let terminators = shape.map(|shape| shape.terminators);
    are_same(&rt, "terminators", &terminators, &Some(1_048_575));
    Ok(())
}
