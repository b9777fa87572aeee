//! What an object has of a control signalling block.
ghost use Rattle.std.specs.Prelude.{Some};
ghost use Rattle.dmr_json.specs.ControlBlocks.{activation_object, meaning_key, preamble_object};

use crate::values::Hex;
use dmr_csbk::{BsDownAct, ControlMeaning, Csbk, Preamble};
use std::fmt;

/// A control signalling block: opcode, feature set and its eight octets, and what these mean of the blocks that a listing names.
#[derive(Drop)]
pub(crate) struct ControlBlock(pub(crate) Csbk);

/// What a preamble means.
#[derive(Drop)]
struct PreambleObject(Preamble);

impl fmt::Display for PreambleObject {
    ghost output = { λ preamble. Some (preamble_object preamble.0) };

    fn fmt<W: fmt::Write>(&self, f: &mut fmt::Formatter<W>) -> fmt::Result {
        let preamble = self.0;
        let data = u8::from(preamble.packet);
        let group = u8::from(preamble.group);
        write!(f, "{{\"data\":{data},\"group\":{group},")?;
        write!(f, "\"left\":{},", preamble.left)?;
        write!(
            f,
            "\"target\":{},\"source\":{}}}",
            preamble.target, preamble.source
        )
    }
}

/// What the request for a base station means.
#[derive(Drop)]
struct ActivationObject(BsDownAct);

impl fmt::Display for ActivationObject {
    ghost output = { λ request. Some (activation_object request.0) };

    fn fmt<W: fmt::Write>(&self, f: &mut fmt::Formatter<W>) -> fmt::Result {
        let request = self.0;
        write!(f, "{{\"bs\":{},\"source\":{}}}", request.bs, request.source)
    }
}

/// The key for what a block means, where it has a meaning here.
#[derive(Drop)]
struct MeaningKey(ControlMeaning);

impl fmt::Display for MeaningKey {
    ghost output = { λ meaning. Some (meaning_key meaning.0) };

    fn fmt<W: fmt::Write>(&self, f: &mut fmt::Formatter<W>) -> fmt::Result {
        match self.0 {
            ControlMeaning::BsDownAct(request) => {
                write!(f, ",\"activation\":{}", ActivationObject(request))
            }
            ControlMeaning::Preamble(preamble) => {
                write!(f, ",\"preamble\":{}", PreambleObject(preamble))
            }
            ControlMeaning::Other => Ok(()),
        }
    }
}

impl fmt::Display for ControlBlock {
    fn fmt<W: fmt::Write>(&self, f: &mut fmt::Formatter<W>) -> fmt::Result {
        let block = self.0;
        write!(f, "{{\"opcode\":{},\"fid\":{},", block.code, block.fid)?;
        let meaning = MeaningKey(block.meaning());
        write!(f, "\"octets\":{}{meaning}}}", Hex(&block.body))
    }
}
