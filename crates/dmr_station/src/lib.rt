//! The base station: the lines of both slots, the gateway, the channel that the slots share, and the CACHs of the records, as one
//! machine.
//!
//! A `Station` is offered datagrams and takes the frames of the uplink one after another. For each of them it gives the two records
//! of the frame of the downlink that is decided then, and what it received in it. It knows no file, and keeps no list that grows:
//! what the lines, the channel (`dmr_slot`) and the gateway (`dmr_gateway`) remember, and the message whose second half is to be
//! announced. It keeps the CACHs of the message that went out last, too, so as not to work them out for each record.
//!
//! `specs/StationRules.antt` has the rules, one frame after another, and `specs/DownlinkRules.antt` what they make of whole lists
//! of frames: what the line of each slot gives, and what goes out in both; `specs/GatewayMeaning.antt` has the gateway's part of
//! both. `specs/Announced.antt` has the message that the CACHs carry, by the rules and by looking back. `specs/Sent.antt` has
//! what a slot sends and its octets, and `specs/Clean.antt` what may be transmitted at all. `specs/Station.antt`
//! puts them together, frame by frame and for whole lists. `specs/DownlinkMeaning.antt` says what well-formed transmissions are
//! to become, with no rule for lines in its words. The laws are the contracts of the functions in `laws`.
#![tactic(auto)]

mod announcing;
mod decider;
mod fragments;
pub mod laws;
mod sending;
mod station;

pub use station::{Counts, DownlinkFrame, NOTHING, SILENCE, Station, UplinkFrame};
