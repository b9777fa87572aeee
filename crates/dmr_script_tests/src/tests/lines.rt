//! Statements that send nothing, blanks, remarks and lines.
use super::{are_same, says, script_of};
use dmr_data::Rate;
use dmr_script::{
    AddressedMessage, Datagram, NumberedStatement, Send, Slot, Statement, UdpMessage,
};
use std::test::Fail;

#[test]
fn statements_that_send_nothing(rt: HostRuntime) -> Result<(), Fail> {
    let rows = [
        ("slot 1", Statement::Slot(Slot::One)),
        ("slot 2", Statement::Slot(Slot::Two)),
        ("silence 4", Statement::Silence(4)),
        ("at 0", Statement::At(0)),
        ("at 4294967295", Statement::At(4294967295)),
        ("frames 40", Statement::Frames(40)),
        ("  silence \t 4 # five", Statement::Silence(4)),
        ("silence 4# five", Statement::Silence(4)),
    ];
    for (line, expected) in rows {
        says(&rt, rt.alloc(), line, expected)?;
    }
    Ok(())
}

#[test]
fn blanks_and_remarks(rt: HostRuntime) -> Result<(), Fail> {
    let text = "# a remark\n\ncolour 1\n   # another\nframes 5\r\nslot 2";
    let script = script_of(rt.alloc(), text)?;
    are_same(&rt, text, &script.refused, &None);
    let expected = [
        NumberedStatement {
            line: 3,
            statement: Statement::Colour(1),
        },
        NumberedStatement {
            line: 5,
            statement: Statement::Frames(5),
        },
        NumberedStatement {
            line: 6,
            statement: Statement::Slot(Slot::Two),
        },
    ];
    are_same(
        &rt,
        text,
        &script.statements.as_slice(),
        &expected.as_slice(),
    );
    Ok(())
}

#[test]
fn no_statement(rt: HostRuntime) -> Result<(), Fail> {
    let script = script_of(rt.alloc(), "\n# nothing\n")?;
    are_same(&rt, "refused", &script.refused, &None);
    assert!(rt; script.statements.is_empty());
    Ok(())
}

#[test]
fn records_of_the_outgoing_list(rt: HostRuntime) -> Result<(), Fail> {
    let alloc = rt.alloc();
    says(
        &rt,
        alloc,
        "send at 5, confirmed, UDP 12.0.0.1:5016 -> 12.0.0.2:5018, \"how are you\"",
        Statement::Send(Send {
            frame: 5,
            confirmed: true,
            rate: Rate::Half,
            datagram: Datagram::Udp(AddressedMessage {
                source: [12, 0, 0, 1],
                destination: [12, 0, 0, 2],
                message: UdpMessage {
                    source_port: 5016,
                    destination_port: 5018,
                    identification: 0,
                    data: b"how are you".to_vec(alloc)?,
                },
            }),
        }),
    )?;
    says(
        &rt,
        alloc,
        "send at 4294967295, rate 1, UDP 10.1.2.3:65535 -> 225.0.0.7:0, id 7, 0aFF",
        Statement::Send(Send {
            frame: 4294967295,
            confirmed: false,
            rate: Rate::Full,
            datagram: Datagram::Udp(AddressedMessage {
                source: [10, 1, 2, 3],
                destination: [225, 0, 0, 7],
                message: UdpMessage {
                    source_port: 65535,
                    destination_port: 0,
                    identification: 7,
                    data: [0x0a, 0xff].to_vec(alloc)?,
                },
            }),
        }),
    )?;
    says(
        &rt,
        alloc,
        "send at 0, confirmed, rate 1, octets 450000",
        Statement::Send(Send {
            frame: 0,
            confirmed: true,
            rate: Rate::Full,
            datagram: Datagram::Octets([0x45, 0, 0].to_vec(alloc)?),
        }),
    )?;
    says(
        &rt,
        alloc,
        "send at 0, octets -",
        Statement::Send(Send {
            frame: 0,
            confirmed: false,
            rate: Rate::Half,
            datagram: Datagram::Octets(Vec::new(alloc)),
        }),
    )?;
    Ok(())
}
