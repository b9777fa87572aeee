//! Settings at the ends of their ranges, and past them, and the texts and the numbers of the faults.
use dmr_gateway::{Config, ConfigFault, GatewayFault};
use std::alloc::Global;
use std::fmt::Display;

const CONFIG: [(ConfigFault, &str); 4] = [
    (ConfigFault::Colour, "the colour code is over 15"),
    (
        ConfigFault::Llid,
        "the gateway's address is not in 1..=16777215",
    ),
    (ConfigFault::Hang, "call hang is longer than channel hang"),
    (ConfigFault::Queue, "the queue is not in 1..=64"),
];

const GATEWAY: [(GatewayFault, &str); 5] = [
    (GatewayFault::NoRoute, "no route"),
    (GatewayFault::GroupConfirmed, "a group confirms nothing"),
    (GatewayFault::TooLong, "the datagram is too long"),
    (GatewayFault::QueueFull, "the queue is full"),
    (GatewayFault::Memory, "out of memory"),
];

#[test]
fn settings_in_their_ranges(rt: HostRuntime) {
    assert!(rt; Config::new(15, 16_777_215, 65_535, 65_535, 64).is_ok());
    assert!(rt; Config::new(0, 1, 0, 0, 1).is_ok());
}

#[test]
fn settings_past_their_ranges(rt: HostRuntime) {
    assert!(rt; Config::new(16, 1, 3, 5, 9) == Err(ConfigFault::Colour));
    assert!(rt; Config::new(1, 0, 3, 5, 9) == Err(ConfigFault::Llid));
    assert!(rt; Config::new(1, 16_777_216, 3, 5, 9) == Err(ConfigFault::Llid));
    assert!(rt; Config::new(1, 1, 6, 5, 9) == Err(ConfigFault::Hang));
    assert!(rt; Config::new(1, 1, 3, 5, 0) == Err(ConfigFault::Queue));
    assert!(rt; Config::new(1, 1, 3, 5, 65) == Err(ConfigFault::Queue));
}

#[test]
fn first_of_several_faults(rt: HostRuntime) {
    assert!(rt; Config::new(16, 0, 6, 5, 0) == Err(ConfigFault::Colour));
    assert!(rt; Config::new(1, 0, 6, 5, 0) == Err(ConfigFault::Llid));
    assert!(rt; Config::new(1, 1, 6, 5, 0) == Err(ConfigFault::Hang));
}

/// Each fault has its text.
fn are_texts<T: Display>(alloc: Global, rows: &[(T, &str)]) -> bool {
    for (fault, text) in rows {
        match format!(in alloc; "{fault}") {
            Ok(printed) if printed.as_str() == *text => (),
            _ => return false,
        }
    }
    true
}

#[test]
fn texts(rt: HostRuntime) {
    assert!(rt; are_texts(rt.alloc(), &CONFIG));
    assert!(rt; are_texts(rt.alloc(), &GATEWAY));
}

#[test]
fn numbers(rt: HostRuntime) {
    assert!(rt;
        [
            ConfigFault::Colour as u8,
            ConfigFault::Llid as u8,
            ConfigFault::Hang as u8,
            ConfigFault::Queue as u8
        ] == [1, 2, 3, 4]
    );
    assert!(rt;
        [
            GatewayFault::NoRoute as u8,
            GatewayFault::GroupConfirmed as u8,
            GatewayFault::TooLong as u8,
            GatewayFault::QueueFull as u8,
            GatewayFault::Memory as u8
        ] == [1, 2, 3, 4, 5]
    );
}
