//! Packets, short data, status and answers.
use super::sends;
use dmr_data::{Rate, Status};
use dmr_script::{
    Again, Answer, AnswerKind, Body, PacketShape, PacketTry, PartialTry, ShortDataTry, StatusSent,
    Transmission, UdpMessage, Wanted,
};
use std::alloc::{AllocError, Global};
use std::process::Abort;
use std::test::Fail;

/// A header and all of so many blocks.
fn whole(alloc: Global, blocks: usize) -> Result<PacketShape, AllocError> {
    Ok(PacketShape {
        preambles: 0,
        blocks: vec![in alloc; true; blocks]?,
    })
}

#[test]
fn confirmed_datagram(rt: HostRuntime) -> Result<(), Fail> {
    let alloc = rt.alloc();
    let body = Body::Udp(UdpMessage {
        source_port: 5018,
        destination_port: 5016,
        identification: 0,
        data: b"fine, thank you".to_vec(alloc)?,
    });
    // 28 octets of headers, 15 of data and 4 of check, in blocks of 10.
    let shape = PacketShape {
        preambles: 2,
        blocks: [true, true, false, true, false].to_vec(alloc)?,
    };
    sends(
        &rt,
        alloc,
        "confirmed 2 -> 1, N(S) 0, UDP 5018 -> 5016, \"fine, thank you\": ccD bb.b.",
        Transmission::Packet(PacketTry {
            confirmed: true,
            source: 2,
            group: false,
            destination: 1,
            sap: 4,
            number: 0,
            rate: Rate::Half,
            wanted: true,
            body,
            shape,
        }),
    )?;
    Ok(())
}

#[test]
fn confirmed_datagram_with_short_headers(rt: HostRuntime) -> Result<(), Fail> {
    let alloc = rt.alloc();
    let body = Body::Udp(UdpMessage {
        source_port: 1,
        destination_port: 2,
        identification: 258,
        data: [1, 2, 3, 4, 5, 6, 7, 8, 9].to_vec(alloc)?,
    });
    // Five octets, two ports of two, 9 of data and 4 of check, in one block of 22.
    let shape = whole(alloc, 1)?;
    sends(
        &rt,
        alloc,
        "confirmed 2 -> 1, SAP 3, N(S) 7, rate 1, unanswered, UDP 1 -> 2, id 258, 010203040506070809",
        Transmission::Packet(PacketTry {
            confirmed: true,
            source: 2,
            group: false,
            destination: 1,
            sap: 3,
            number: 7,
            rate: Rate::Full,
            wanted: false,
            body,
            shape,
        }),
    )?;
    Ok(())
}

#[test]
fn unconfirmed_datagram(rt: HostRuntime) -> Result<(), Fail> {
    let alloc = rt.alloc();
    let body = Body::Udp(UdpMessage {
        source_port: 5016,
        destination_port: 5017,
        identification: 0,
        data: Vec::new(alloc),
    });
    // Five octets and 4 of check, in one block of 12: both ports have identifiers.
    let shape = whole(alloc, 1)?;
    sends(
        &rt,
        alloc,
        "unconfirmed 2 -> group 1, SAP 3, UDP 5016 -> 5017",
        Transmission::Packet(PacketTry {
            confirmed: false,
            source: 2,
            group: true,
            destination: 1,
            sap: 3,
            number: 0,
            rate: Rate::Half,
            wanted: false,
            body,
            shape,
        }),
    )?;
    Ok(())
}

#[test]
fn octets(rt: HostRuntime) -> Result<(), Fail> {
    let alloc = rt.alloc();
    // Nine octets and 4 of check, in two blocks of 12.
    sends(
        &rt,
        alloc,
        "unconfirmed 2 -> 1, octets 010203040506070809",
        Transmission::Packet(PacketTry {
            confirmed: false,
            source: 2,
            group: false,
            destination: 1,
            sap: 4,
            number: 0,
            rate: Rate::Half,
            wanted: false,
            body: Body::Octets([1, 2, 3, 4, 5, 6, 7, 8, 9].to_vec(alloc)?),
            shape: whole(alloc, 2)?,
        }),
    )?;
    Ok(())
}

#[test]
fn full_tries(rt: HostRuntime) -> Result<(), Fail> {
    let alloc = rt.alloc();
    sends(&rt, alloc, "full", Transmission::Again(Again::Full(None)))?;
    let shape = PacketShape {
        preambles: 1,
        blocks: [true, false].to_vec(alloc)?,
    };
    let transmission = Transmission::Again(Again::Full(Some(shape)));
    sends(&rt, alloc, "full: cD b.", transmission)?;
    Ok(())
}

/// That a line is another try with these blocks, and that all of them are sent.
fn is_partial(
    rt: &impl Abort,
    alloc: Global,
    line: &str,
    serials: &[u8],
) -> Result<(), AllocError> {
    let shape = whole(alloc, serials.len())?;
    let serials = serials.to_vec(alloc)?;
    let transmission = Transmission::Again(Again::Partial(PartialTry { serials, shape }));
    sends(rt, alloc, line, transmission)
}

#[test]
fn partial_tries(rt: HostRuntime) -> Result<(), Fail> {
    is_partial(&rt, rt.alloc(), "partial 2 4: D bb", &[2, 4])?;
    is_partial(&rt, rt.alloc(), "partial 126", &[126])?;
    Ok(())
}

#[test]
fn short_data(rt: HostRuntime) -> Result<(), Fail> {
    let alloc = rt.alloc();
    let octets = [1, 2].to_vec(alloc)?;
    let shape = whole(alloc, 1)?;
    sends(
        &rt,
        alloc,
        "short data 2 -> group 1, format 63, octets 0102",
        Transmission::ShortData(ShortDataTry {
            source: 2,
            group: true,
            destination: 1,
            format: 63,
            octets,
            shape,
        }),
    )?;
    Ok(())
}

/// That a line sends this status, with so many preambles.
fn sends_status(
    rt: &impl Abort,
    alloc: Global,
    line: &str,
    header: Status,
    preambles: u8,
) -> Result<(), AllocError> {
    let shape = PacketShape {
        preambles,
        blocks: Vec::new(alloc),
    };
    sends(
        rt,
        alloc,
        line,
        Transmission::Status(StatusSent { header, shape }),
    )
}

#[test]
fn status(rt: HostRuntime) -> Result<(), Fail> {
    sends_status(
        &rt,
        rt.alloc(),
        "status 3 -> 1, port 1 -> 2, status 5",
        Status {
            group: false,
            wanted: false,
            destination: 1,
            source: 3,
            source_port: 1,
            destination_port: 2,
            status: 5,
        },
        0,
    )?;
    sends_status(
        &rt,
        rt.alloc(),
        "status 3 -> group 1, port 7 -> 0, status 1023: ccD",
        Status {
            group: true,
            wanted: false,
            destination: 1,
            source: 3,
            source_port: 7,
            destination_port: 0,
            status: 1023,
        },
        2,
    )?;
    Ok(())
}

/// That a line says this answer from 2 to 1, with so many blocks of flags.
fn answers(
    rt: &impl Abort,
    alloc: Global,
    line: &str,
    number: u8,
    sap: u8,
    kind: AnswerKind,
    flags: usize,
) -> Result<(), AllocError> {
    let shape = whole(alloc, flags)?;
    sends(
        rt,
        alloc,
        line,
        Transmission::Answer(Answer {
            source: 2,
            destination: 1,
            number,
            sap,
            kind,
            shape,
        }),
    )
}

#[test]
fn acknowledged(rt: HostRuntime) -> Result<(), Fail> {
    let alloc = rt.alloc();
    let kind = AnswerKind::Acknowledged;
    answers(&rt, alloc, "ACK 2 -> 1, N(S) 0", 0, 4, kind, 0)?;
    let kind = AnswerKind::Acknowledged;
    answers(&rt, alloc, "ACK 2 -> 1, N(S) 7, SAP 3", 7, 3, kind, 0)?;
    Ok(())
}

#[test]
fn failed(rt: HostRuntime) -> Result<(), Fail> {
    let kind = AnswerKind::Failed;
    answers(&rt, rt.alloc(), "failed 2 -> 1, N(S) 1: D", 1, 4, kind, 0)?;
    Ok(())
}

#[test]
fn selective_repeat(rt: HostRuntime) -> Result<(), Fail> {
    let serials = [1].to_vec(rt.alloc())?;
    let kind = AnswerKind::SelectiveRepeat(Wanted { serials, blocks: 5 });
    let line = "selective repeat 2 -> 1, N(S) 0, wanted 1 of 5";
    answers(&rt, rt.alloc(), line, 0, 4, kind, 1)?;
    Ok(())
}

#[test]
fn selective_repeat_of_two_blocks_of_flags(rt: HostRuntime) -> Result<(), Fail> {
    let serials = [0, 64].to_vec(rt.alloc())?;
    let kind = AnswerKind::SelectiveRepeat(Wanted {
        serials,
        blocks: 65,
    });
    let line = "selective repeat 2 -> 1, N(S) 0, wanted 0 64 of 65, SAP 15: D bb";
    answers(&rt, rt.alloc(), line, 0, 15, kind, 2)?;
    Ok(())
}
