//! A burst in hexadecimal digits.
ghost use Rattle.std.specs.Prelude.{◌≡◌, ◌↔◌, ◌⊎◌, false, true, Ok, IsSome, IfSome, codes};
ghost use Rattle.std.specs.Io.KnownBytes.{Appends};
ghost use Rattle.hex.specs.Hex.{decode_of};
ghost use Rattle.dmr_lines.specs.Line.{error_octets, PutsLine};
ghost use Rattle.dmr_program.specs.Digits.{IsBurstText};
ghost use Rattle.dmr_lines.specs.Status.{failure, success, usage};

use crate::text::text_of;
use dmr_lines::{SUCCESS, USAGE, line_of, print_error, print_line};
use dmr_reading::read_burst;
use dmr_record::Sink;
use hex::FromHex;

/// The burst that a text spells, two digits of either case an octet.
fn burst_of(text: &str) -> Option<[u8; 33]>
    ensures value { IfSome result (λ burst. decode_of text.now ≡ Ok burst) }
    ensures found { IsSome result ↔ IsBurstText text.now }
{
    <[u8; 33] as FromHex>::from_hex(text).ok()
}

/// Prints what a burst of 66 hexadecimal digits is read as, and answers the exit status.
pub fn print_slot<K: Sink, E: Sink>(text: &str, out: &mut K, err: &mut E) -> u8
    requires out { K.has_failed out.old ≡ false }
    requires err { E.has_failed err.old ≡ false }
    // One line is printed, to one of the two, and the other is as it was.
    ensures line { IsBurstText text.now → K.has_failed out.new ≡ false → PutsLine (K.held out.old) (K.held out.new) }
    ensures line_alone { IsBurstText text.now → err.new ≡ err.old }
    ensures error { (IsBurstText text.now → ⊥) → E.has_failed err.new ≡ false
        → Appends (E.held err.old) (E.held err.new) (error_octets (codes "a burst is 66 hexadecimal digits")) }
    ensures error_alone { (IsBurstText text.now → ⊥) → out.new ≡ out.old }
    ensures alone { (out.new ≡ out.old) ⊎ (err.new ≡ err.old) }
    ensures success { result ≡ success → err.new ≡ err.old }
    ensures printed { result ≡ success → PutsLine (K.held out.old) (K.held out.new) }
    ensures usage { result ≡ usage → out.new ≡ out.old }

    ensures burst { IsBurstText text.now → K.has_failed out.new ≡ false → result ≡ success }
    ensures no_burst { (IsBurstText text.now → ⊥) → E.has_failed err.new ≡ false → result ≡ usage }
    ensures out_failed { K.has_failed out.new ≡ true → result ≡ failure }
    ensures err_failed { E.has_failed err.new ≡ true → result ≡ failure }
{
    match burst_of(text) {
        Some(burst) => {
            let text = text_of(&read_burst(&burst));
            print_line(out, line_of(text.as_str()), SUCCESS)
        }
        None => print_error(err, "a burst is 66 hexadecimal digits", USAGE),
    }
}
