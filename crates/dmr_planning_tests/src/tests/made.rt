//! Recordings, against octets from outside.
use super::{is_made, recording_of};
use std::test::Fail;

/// Single bursts, which samples of this project have too.
#[test]
fn single_bursts(rt: HostRuntime) -> Result<(), Fail> {
    let rows = [
        (
            "opcode 0, fid 0, 0000000000000000",
            "frames 1 slot-1 1 slot-2 0 transmissions 1 datagrams 0
444d525501000000010062008201900100042004e004cd5d7f77fd757ac81800280250028000c012002200",
        ),
        (
            "status 3 -> 1, port 1 -> 2, status 5",
            "frames 1 slot-1 1 slot-2 0 transmissions 1 datagrams 0
444d5255010000000101710302074a017405282ac1058d5d7f77fd757339b4214a0db0010d231801807d00",
        ),
        (
            "group call 2 -> 1, key 00010203040506070809: HP\nframes 8",
            "frames 8 slot-1 2 slot-2 0 transmissions 1 datagrams 0
444d525501000000010010015e028812380e304440046d5d7f77fd757e322c0328019007a005410d0055000107e3065e05ed0a582213af\
83440d5d7f77fd757d9d9c2138c8130ce6078116144200000000000000000000000000",
        ),
    ];
    for (lines, expected) in rows {
        is_made(&rt, rt.alloc(), lines, expected)?;
    }
    Ok(())
}

/// A call with a silence behind its header, and an absent place.
#[test]
fn call(rt: HostRuntime) -> Result<(), Fail> {
    is_made(
        &rt,
        rt.alloc(),
        "group call 2 -> 1: H . A.CDEF T",
        "frames 9 slot-1 7 slot-2 0 transmissions 1 datagrams 0
444d525501000000010010015e028812380e304440046d5d7f77fd757e322c0328019007a005410d005500000001800002800002800002\
8000028007f7d5dd57dfd00280000280000280000280000200000001800004800004800004800004800170009000074004800004800004\
8000048000040001800005800005800005800005800170300060a740058000058000058000058000050001800006800006800006800006\
80015030f060c0700680000680000680000680000600018000078000078000078000078001100000000e20078000078000078000078000\
070001007f018a023812400e4044e004ad5d7f77fd75796738001006f00be00d4114006600",
    )?;
    Ok(())
}

/// Transmissions in both slots: how many frames, bursts and transmissions there are.
#[test]
fn both_slots(rt: HostRuntime) -> Result<(), Fail> {
    let alloc = rt.alloc();
    let rows = [
        (
            "group call 2 -> 1: H .. ABCDEF A..DEF T\nsilence 4\ngroup call 3 -> 1, emergency: EF ABCDEF
slot 2\nat 12\nstatus 4 -> 1, port 1 -> 2, status 5\nframes 40",
            "frames 40 slot-1 20 slot-2 1 transmissions 3 datagrams 0",
        ),
        (
            "opcode 0, fid 0, 0000000000000000\nopcode 0, fid 0, 0000000000000000\nslot 2\nsilence 3",
            "frames 3 slot-1 2 slot-2 0 transmissions 2 datagrams 0",
        ),
        (
            "group call 2 -> 1: H\nstatus 2 -> 1, port 1 -> 2, status 5\ngroup call 2 -> 1: H ABCDEF\nfull: D",
            "line 5: no confirmed packet in this slot to try again",
        ),
    ];
    for (lines, expected) in rows {
        let text = format!(in alloc; "slot 1\n{lines}\n")?;
        let made = recording_of(alloc, text.as_str(), false)?;
        let mut first = made.as_str().lines();
        assert_eq!(&rt; first.next(), Some(expected), "{lines}");
    }
    Ok(())
}
