//! Recordings with wrong bits.
//!
//! `damage_recording` reads an uplink recording and writes it with bits turned, as a `DamageSettings` says. **Within the limits**
//! each part of a burst is written as the word that it reads as, with wrong bits up to its limit. That leaves what a repeater of
//! the colour code makes of well-formed transmissions: dmr_damage_laws has the laws. **At a rate** each bit is turned, and each
//! burst left out, so many times in 10,000; nothing is meant of what is repeated then. It goes frame by frame, so that its memory
//! doesn't grow, and counts what it did (`Damaged`).
//!
//! Contracts say what each slot may be written as. Within the limits that goes by what is heard in the slot and what the rules of
//! voice calls repeat for it (`specs/Marks.antt`), burst by burst (`specs/Bursts.antt`), and slot after slot with the five behind
//! it (`specs/LimitedSlots.antt`). There the embedded fields of a superframe are damaged together. What is damaged at a rate stands
//! in `specs/Rates.antt`, and the counts in `specs/Counts.antt`. What was read, written and counted in a whole file stands in
//! `specs/Recordings.antt`. `laws` says what no rate and the whole rate make of a recording.
//!
//! No contract says which of these a seed draws. The code draws in one order, and that is a rule of this project:
//!
//! - Each slot of a frame has a generator PCG32 of its own, with the seed as its state, and stream 0 of slot 1 or 1 of slot 2.
//! - A number below n is drawn by Canon's method, from one word of 32 bits or two. Up to k bits of a field are a number below
//!   k + 1, and then as many places in the field.
//! - Slots are drawn for in their order, and within the limits after the five frames behind them were read.
//! - Of a burst the sync comes first, then the slot type, and then the information: R(3), the column that may be wrong anyhow, and
//!   each column in order. Of a voice burst with an EMB that is all.
//! - Behind a place A come the eight rows of the fields that follow.
//! - At a rate it is first whether the burst is left out, and then each of its bits in order.
#![tactic(auto)]

mod burst;
mod counts;
mod drawing;
mod frames;
pub mod laws;
mod layout;
mod line;
mod mark;
mod product;
mod rate;
mod reading;
mod recording;
mod settings;
mod superframe;

pub use counts::Damaged;
pub use recording::{DamageEnd, damage_recording};
pub use settings::{Damage, DamageSettings, SettingsFault};
