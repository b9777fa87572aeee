//! The bursts of transmissions, against octets that were worked out from the standard's tables.
ghost use Rattle.std.specs.Prelude.{◌≡◌, ◌<◌, None, false, replicate};
ghost use Rattle.dmr_script.specs.declared.statement.Sender.TheVariants as sender;
ghost use Rattle.dmr_script.specs.declared.statement.Transmission.TheVariants as said;
ghost use Rattle.dmr_making.specs.Senders.{IsSenderColour, IsSendable};

use dmr_csbk::Csbk;
use dmr_link::FullLc;
use dmr_making::{PlacedTransmission, SlotTransmission, write_recording};
use dmr_record::ToWrite;
use dmr_script::{
    Call, CallShape, CallStart, Headers, NumberedStatement, Sender, Statement, Transmission,
    Transmit,
};
use std::alloc::{AllocError, Global};
use std::process::Abort;
use std::test::Fail;

/// What goes out in a slot of a transmission with colour code 1 in this frame, in hexadecimal, and nothing where nothing does.
fn printed(
    alloc: Global,
    transmit: &Transmit,
    place: usize,
    frame: u32,
) -> Result<String, AllocError>
    requires frame { frame < 1048576 }
    requires sender { IsSenderColour transmit.now.sender }
    requires fit { IsSendable None transmit.now.transmission }
{
    let sending = SlotTransmission {
        transmit,
        last: None,
    };
    match sending.slot(1, place, frame) {
        None => format!(in alloc; ""),
        Some(burst) => hex::encode(alloc, &burst),
    }
}

/// A call from radio 2 to talk group 1: a header, a silence, a superframe whose B is absent, and a terminator.
#[test]
fn call_with_an_absent_place(rt: HostRuntime) -> Result<(), Fail> {
    let alloc = rt.alloc();
    let call = Call {
        link_control: FullLc {
            protect: false,
            reserved: false,
            flco: 0,
            fid: 0,
            body: [0, 0, 0, 1, 0, 0, 2],
        },
        pi: false,
        key: [0; 10],
        carried: Vec::new(alloc),
        shape: CallShape {
            start: CallStart::Headers(Headers {
                more: Vec::new(alloc),
                silences: 1,
            }),
            places: vec![in alloc; true, false, true, true, true, true]?,
            terminators: 1,
        },
    };
    let transmit = Transmit {
        sender: Sender::Own,
        transmission: Transmission::Call(call),
    };
    let wanted = [
        "0010015e028812380e304440046d5d7f77fd757e322c0328019007a005410d0055",
        "",
        "8000028000028000028000028007f7d5dd57dfd002800002800002800002800002",
        "",
        "800004800004800004800004800170009000074004800004800004800004800004",
        "800005800005800005800005800170300060a74005800005800005800005800005",
        "80000680000680000680000680015030f060c07006800006800006800006800006",
        "8000078000078000078000078001100000000e2007800007800007800007800007",
        "007f018a023812400e4044e004ad5d7f77fd75796738001006f00be00d41140066",
    ];
    for (place, octets) in wanted.iter().enumerate() {
        let burst = printed(alloc, &transmit, place, place as u32)?;
        assert_eq!(&rt; burst.as_str(), *octets, "slot {place}");
    }
    Ok(())
}

/// A control signalling block of zeros.
fn zeros() -> Transmit
    ensures value { result ≡ record {
      sender = sender.Own;
      transmission = said.Control
          (record { last = false; protect = false; code = 0; fid = 0; body = replicate 8 0 });
    } }
{
    Transmit {
        sender: Sender::Own,
        transmission: Transmission::Control(Csbk {
            last: false,
            protect: false,
            code: 0,
            fid: 0,
            body: [0; 8],
        }),
    }
}

/// The burst of a control signalling block of zeros.
#[test]
fn control_block(rt: HostRuntime) -> Result<(), Fail> {
    let alloc = rt.alloc();
    let burst = printed(alloc, &zeros(), 0, 0)?;
    assert_eq!(&rt;
        burst.as_str(),
        "0062008201900100042004e004cd5d7f77fd757ac81800280250028000c0120022"
    );
    Ok(())
}

/// A recording of a control signalling block of zeros in slot 1 of its one frame.
#[test]
fn recording_of_a_control_block(rt: HostRuntime) -> Result<(), Fail> {
    let alloc = rt.alloc();
    let mut statements = Vec::new(alloc);
    statements.push(NumberedStatement {
        line: 2,
        statement: Statement::Transmit(zeros()),
    })?;
    let placed = [PlacedTransmission {
        statement: 0,
        packet: None,
        start: 0,
        length: 1,
    }];
    let mut sink = ToWrite::new(Vec::new(alloc));
    let written = write_recording(&statements, 1, &placed, &[], 1, &mut sink);
    assert!(&rt; written.is_ok());
    let octets = hex::encode(alloc, sink.into_inner().as_slice())?;
    let wanted =
        "444d525501000000010062008201900100042004e004cd5d7f77fd757ac81800280250028000c012002200";
    assert_eq!(&rt; octets.as_str(), wanted);
    Ok(())
}
