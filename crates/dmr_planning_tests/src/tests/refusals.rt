//! What is said of scripts of which there is no recording.
use super::is_made;
use std::test::Fail;

/// That what is refused is told of the first line that shows it, and of `frames` behind all others.
#[test]
fn refused_lines(rt: HostRuntime) -> Result<(), Fail> {
    let rows = [
        (
            "group call 2 -> 1: H ABCDEF\nsilence 5\ngroup call 2 -> 1: H T",
            "line 4: 5 silences where 6 are needed behind line 2",
        ),
        (
            "group call 2 -> 1: H ABDDEF T",
            "line 2: letter 3 of the voice is C or '.', and not D",
        ),
        (
            "group call 2 -> 1: H A..... .BCDEF",
            "line 2: six absent places in a row",
        ),
        (
            "at 10\ngroup call 2 -> 1: H T\nat 5",
            "line 4: frame 5 has passed: the slot stands at 12",
        ),
        (
            "confirmed 2 -> 1, UDP 5018 -> 5016, \"hi\": D bb",
            "line 2: 2 blocks in the shape, 4 in the packet",
        ),
        (
            "group call 2 -> 1: H T\nframes 1",
            "line 3: 1 frames are too few: 2 are sent",
        ),
        (
            "frames 1\ngroup call 2 -> 1: H T\nsilence 4",
            "line 2: 1 frames are too few: 6 are sent",
        ),
        (
            "frames 1\ngroup call 2 -> 1: H T\ngrup",
            "line 4: unknown word 'grup'",
        ),
        (
            "frames 5\nframes 5",
            "line 3: the number of frames stands once",
        ),
        (
            "silence 1048576\nsilence 1\ngrup",
            "line 3: too long: more than 1048576 frames",
        ),
        ("at 1048577", "line 2: too long: more than 1048576 frames"),
        (
            "silence 1048575\ngroup call 2 -> 1: H T",
            "line 3: too long: more than 1048576 frames",
        ),
        (
            "frames 1048577",
            "line 2: too long: more than 1048576 frames",
        ),
        (
            "full",
            "line 2: no confirmed packet in this slot to try again",
        ),
        (
            "confirmed 2 -> 1, octets 00\nslot 2\nfull",
            "line 4: no confirmed packet in this slot to try again",
        ),
        (
            "confirmed 2 -> 1, octets 00\npartial 1",
            "line 3: a block past the packet",
        ),
        (
            "confirmed 2 -> 1, octets 00\nfull: D bb",
            "line 3: 2 blocks in the shape, 1 in the packet",
        ),
        (
            "send at 0, octets 00",
            "line 2: a datagram to send: name a list for it with --outgoing",
        ),
        (
            "opcode 0, fid 0, 0000000000000000\nsilence 0\nopcode 0, fid 0, 0000000000000000",
            "line 4: 0 silences where 1 are needed behind line 2",
        ),
        (
            "group call 2 -> 1: H\nsilence 5\ngroup call 2 -> 1: F ABCDEF T",
            "line 4: 5 silences where 6 are needed behind line 2",
        ),
        (
            "group call 2 -> 1: H\nsilence 0\nstatus 2 -> 1, port 1 -> 2, status 5",
            "line 4: 0 silences where 1 are needed behind line 2",
        ),
    ];
    for (lines, expected) in rows {
        is_made(&rt, rt.alloc(), lines, expected)?;
    }
    Ok(())
}
