//! What a line says of a control signalling block.
ghost use Rattle.std.specs.Prelude.{◌≡◌, Some, if◌then◌else◌, codes};
ghost use Rattle.std.specs.Fmt.{WritesOnOk};
ghost use Rattle.dmr_listing.specs.BlockTexts.{block_text, preamble_text};

use crate::digits::Digits;
use crate::way::Way;
use dmr_csbk::{BsDownAct, ControlMeaning, Csbk, Preamble};
use std::fmt;

/// A control signalling block, printed by its meaning, or as its opcode, its feature set and its octets.
#[derive(Drop)]
pub(crate) struct ControlBlock(pub(crate) Csbk);

/// What follows a preamble: the blocks of a packet, or control signalling blocks.
fn name_of_rest(packet: bool) -> &'static str
    ensures value { result.now ≡ (if packet then codes "data" else codes "CSBKs") }
{
    if packet { "data" } else { "CSBKs" }
}

/// Says what follows a preamble, from whom to whom.
fn write_preamble<W: fmt::Write>(preamble: &Preamble, f: &mut fmt::Formatter<W>) -> fmt::Result
    ensures text { WritesOnOk W.write_str_gives f.old result (preamble_text preamble.now) f.new }
{
    let way = Way {
        source: preamble.source,
        to_group: preamble.group,
        destination: preamble.target,
    };
    let rest = name_of_rest(preamble.packet);
    write!(f, "preamble, {rest} to follow {}, {way}", preamble.left)
}

impl fmt::Display for ControlBlock {
    ghost output = { λ text. Some (block_text text.0) };

    fn fmt<W: fmt::Write>(&self, f: &mut fmt::Formatter<W>) -> fmt::Result {
        let ControlBlock(block) = *self;
        match block.meaning() {
            ControlMeaning::BsDownAct(BsDownAct { bs, source }) => {
                write!(f, "BS activation by {source} of {bs}")
            }
            ControlMeaning::Preamble(preamble) => write_preamble(&preamble, f),
            ControlMeaning::Other => {
                let Csbk { code, fid, .. } = block;
                let body = Digits(&block.body);
                write!(f, "opcode {code}, fid {fid}, {body}")
            }
        }
    }
}
