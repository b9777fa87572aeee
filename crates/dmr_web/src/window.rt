//! The text of a window of a file.
ghost use Rattle.std.specs.Prelude.{◌≡◌, ◌+◌, ◌-◌, ◌≤◌, [], ◌∷◌, drop, false, true, length, IfSome, IfNone, OnOk, OnErr};
ghost use Rattle.std.specs.Io.KnownBytes.{Appends};
ghost use Rattle.dmr_record.specs.Devices.{failed_after};
ghost use Rattle.dmr_lines.specs.Line.{PutsLine, first_line};
ghost use Rattle.dmr_listing.specs.ListingRules.{GivenInTurn};
ghost use Rattle.dmr_show.specs.Printed.{PutsLines};
ghost use Rattle.dmr_web.specs.Heads.{PutsHeadedLine, burst_head};
ghost use Rattle.dmr_web.specs.Pictures.{picture_lines, slot_lines};
ghost use Rattle.dmr_web.specs.Windows.{front_held};
ghost use Rattle.dmr_web.specs.declared.window.WrittenAs.TheVariants.{Text};

use crate::line::print_line;
use crate::place::{later, place_columns};
use dmr_json::{BurstObject, OutgoingObject, ReceivedObject};
use dmr_lines::line_of;
use dmr_listing::{
    BurstLine, BurstText, ListedBurst, OutgoingLine, ReceivedLine, ReceivedRecord, Strip, Taker,
};
use dmr_record::{DeviceFault, Outgoing};
use std::fmt::Display;

/// What a line is written in.
#[derive(Clone, Copy, Drop)]
pub(crate) enum WrittenAs {
    /// Columns for people.
    Text,
    /// JSON, for programs.
    Json,
}

/// The lines of a file from one of its bursts or records on, as far as the text has room for them.
#[derive(Drop)]
pub(crate) struct TextWindow<'a> {
    pub(crate) text: &'a mut [u8],
    /// How many octets of the text are lines.
    pub(crate) length: usize,
    /// How many bursts or records are left out before the first that has a line.
    pub(crate) left_out: u64,
    /// How many were taken, with those that were left out.
    pub(crate) taken: u64,
    /// Whether there was no room for a line.
    pub(crate) is_full: bool,
    pub(crate) notation: WrittenAs,
    /// The number of the first frame.
    pub(crate) frame: u32,
}

/// Prints a line behind so many octets of a text, where there is room for it, and answers how many they are then.
#[tactic(auto, using(crate::proofs::Texts::line_behind, crate::proofs::Texts::front_same))]
fn print_behind<T: Display>(text: &mut [u8], count: usize, line: &T) -> Option<usize>
    ensures line { IfSome result (λ end. PutsLine (front_held text.old count) (front_held text.new end)) }
    ensures none { IfNone result (front_held text.new count ≡ front_held text.old count) }
{
    if count > text.len() {
        return None;
    }
    let printed = print_line(&mut text[count..], line)?;
    Some(count + printed)
}

/// Puts octets behind so many octets of a text, where there is room for them, and answers how many they are then.
#[tactic(auto, using(crate::proofs::Texts::octets_behind, crate::proofs::Texts::front_same))]
fn put_behind(text: &mut [u8], count: usize, octets: &[u8]) -> Option<usize>
    ensures octets { IfSome result (λ end. Appends (front_held text.old count) (front_held text.new end) octets.now) }
    ensures end { IfSome result (λ end. count ≤ end) }
    ensures front { front_held text.new count ≡ front_held text.old count }
{
    let end = count.checked_add(octets.len())?;
    if end > text.len() {
        return None;
    }
    text[count..end].copy_from_slice(octets);
    Some(end)
}

/// Prints a line behind so many octets of a text, where there is room for it, and answers how many they are then. It begins with
/// the first line of this head.
#[tactic(auto, using(crate::proofs::Texts::front_before))]
fn print_headed<T: Display>(text: &mut [u8], count: usize, head: &str, line: &T) -> Option<usize>
    ensures line { IfSome result (λ end. PutsHeadedLine (front_held text.old count) (first_line head.now)
        (front_held text.new end)) }
    ensures none { IfNone result (front_held text.new count ≡ front_held text.old count) }
{
    let begun = put_behind(text, count, line_of(head).as_bytes())?;
    print_behind(text, begun, line)
}

impl<'a> TextWindow<'a> {
    /// No line yet, in this notation. The frames are counted from this one on, and so many bursts or records have no line.
    pub(crate) fn new(
        text: &'a mut [u8],
        notation: WrittenAs,
        frame: u32,
        left_out: u64,
    ) -> TextWindow<'a>
        ensures same_text { result.text.ghost_name ≡ text.entry.ghost_name }
        ensures text { result.text.now ≡ text.old }
        ensures none { result.length ≡ 0 }
        ensures taken { result.taken ≡ 0 }
        ensures left_out { result.left_out ≡ left_out }
        ensures notation { result.notation ≡ notation }
        ensures frame { result.frame ≡ frame }
        ensures well { result.is_full ≡ false }
    {
        TextWindow {
            text,
            length: 0,
            left_out,
            taken: 0,
            is_full: false,
            notation,
            frame,
        }
    }

    /// Prints a line, whatever it is of.
    pub(crate) fn print<T: Display>(&mut self, line: &T) -> Result<(), DeviceFault>
        requires well { self.old.is_full ≡ false }
        ensures line { OnOk result (PutsLine (front_held self.old.text.now self.old.length)
            (front_held self.new.text.now self.new.length)) }
        ensures none { OnErr result (front_held self.new.text.now self.new.length
            ≡ front_held self.old.text.now self.old.length) }
        ensures failure { self.new.is_full ≡ failed_after self.old.is_full result }
        ensures same_text { self.new.text.ghost_name ≡ self.old.text.ghost_name }
        ensures same_taken { self.new.taken ≡ self.old.taken }
        ensures same_left_out { self.new.left_out ≡ self.old.left_out }
    {
        match print_behind(self.text, self.length, line) {
            Some(length) => {
                self.length = length;
                Ok(())
            }
            None => {
                self.is_full = true;
                Err(DeviceFault)
            }
        }
    }

    /// Prints the line of a burst or of a record, which begins with this head.
    fn print_entry<T: Display>(&mut self, head: &str, line: &T) -> Result<(), DeviceFault>
        requires well { self.old.is_full ≡ false }
        ensures line { OnOk result (PutsHeadedLine (front_held self.old.text.now self.old.length) (first_line head.now)
            (front_held self.new.text.now self.new.length)) }
        ensures none { OnErr result (front_held self.new.text.now self.new.length
            ≡ front_held self.old.text.now self.old.length) }
        ensures failure { self.new.is_full ≡ failed_after self.old.is_full result }
        ensures same_text { self.new.text.ghost_name ≡ self.old.text.ghost_name }
        ensures same_taken { self.new.taken ≡ self.old.taken }
        ensures same_left_out { self.new.left_out ≡ self.old.left_out }
        ensures same_notation { self.new.notation ≡ self.old.notation }
        ensures same_frame { self.new.frame ≡ self.old.frame }
    {
        match print_headed(self.text, self.length, head, line) {
            Some(length) => {
                self.length = length;
                Ok(())
            }
            None => {
                self.is_full = true;
                Err(DeviceFault)
            }
        }
    }

    /// Takes a burst or a record with this line, which begins with this head.
    #[tactic(auto, using(crate::proofs::Texts::puts_past, crate::proofs::Texts::puts_first))]
    fn take<T: Display>(&mut self, head: &str, line: &T) -> Result<(), DeviceFault>
        requires well { self.old.is_full ≡ false }
        ensures taken { OnOk result (self.new.taken ≡ self.old.taken + 1) }
        ensures left_out { OnOk result (self.new.left_out ≡ self.old.left_out - 1) }
        ensures lines { OnOk result (GivenInTurn PutsHeadedLine (front_held self.old.text.now self.old.length)
            (drop self.old.left_out (first_line head.now ∷ [])) (front_held self.new.text.now self.new.length)) }
        ensures none { OnErr result (front_held self.new.text.now self.new.length
            ≡ front_held self.old.text.now self.old.length) }
        ensures not_taken { OnErr result (self.new.taken ≡ self.old.taken) }
        ensures failure { self.new.is_full ≡ failed_after self.old.is_full result }
        ensures same_text { self.new.text.ghost_name ≡ self.old.text.ghost_name }
        ensures same_notation { self.new.notation ≡ self.old.notation }
        ensures same_frame { self.new.frame ≡ self.old.frame }
    {
        let Some(taken) = self.taken.checked_add(1) else {
            self.is_full = true;
            return Err(DeviceFault);
        };
        if self.left_out > 0 {
            self.left_out -= 1;
            self.taken = taken;
            return Ok(());
        }
        self.print_entry(head, line)?;
        self.taken = taken;
        Ok(())
    }

    /// Takes a burst as text.
    fn take_text(&mut self, line: &BurstLine) -> Result<(), DeviceFault>
        requires well { self.old.is_full ≡ false }
        ensures taken { OnOk result (self.new.taken ≡ self.old.taken + 1) }
        ensures left_out { OnOk result (self.new.left_out ≡ self.old.left_out - 1) }
        ensures lines { OnOk result (GivenInTurn PutsHeadedLine (front_held self.old.text.now self.old.length)
            (drop self.old.left_out (burst_head Text self.old.frame line.now.place ∷ []))
            (front_held self.new.text.now self.new.length)) }
        ensures none { OnErr result (front_held self.new.text.now self.new.length
            ≡ front_held self.old.text.now self.old.length) }
        ensures not_taken { OnErr result (self.new.taken ≡ self.old.taken) }
        ensures failure { self.new.is_full ≡ failed_after self.old.is_full result }
        ensures same_text { self.new.text.ghost_name ≡ self.old.text.ghost_name }
        ensures same_notation { self.new.notation ≡ self.old.notation }
        ensures same_frame { self.new.frame ≡ self.old.frame }
    {
        let Some(head) = place_columns(later(self.frame, line.place)) else {
            self.is_full = true;
            return Err(DeviceFault);
        };
        self.take(head.as_str(), &BurstText(line))
    }

    /// Prints the line of a slot of a strip, where the strip has that slot.
    #[tactic(auto, using(crate::proofs::Texts::puts_one_slot, crate::proofs::Texts::puts_no_slot))]
    fn print_slot(&mut self, strip: &Strip, slot: u8) -> Result<(), DeviceFault>
        requires well { self.old.is_full ≡ false }
        ensures lines { OnOk result (PutsLines (slot_lines slot strip.now)
            (front_held self.old.text.now self.old.length) (front_held self.new.text.now self.new.length)) }
        ensures failure { self.new.is_full ≡ failed_after self.old.is_full result }
        ensures same_text { self.new.text.ghost_name ≡ self.old.text.ghost_name }
    {
        match strip.line(slot) {
            Some(line) => self.print(&line),
            None => Ok(()),
        }
    }
}

impl Taker<ListedBurst> for TextWindow<'_> {
    ghost Takes = { λ old listed new. (new.left_out ≡ old.left_out - 1) × (new.taken ≡ old.taken + 1)
        × (new.notation ≡ old.notation) × (new.frame ≡ old.frame) × GivenInTurn PutsHeadedLine (front_held old.text.now old.length)
        (drop old.left_out (burst_head old.notation old.frame listed.line.place ∷ [])) (front_held new.text.now new.length) };

    ghost Refuses = { λ old listed new. (new.taken ≡ old.taken)
        × (front_held new.text.now new.length ≡ front_held old.text.now old.length) };

    ghost has_failed = { λ window. window.is_full };

    ghost kept = { λ window. window.text.ghost_name };

    fn put(&mut self, listed: &ListedBurst) -> Result<(), DeviceFault> {
        let ListedBurst { burst, line } = listed;
        match self.notation {
            WrittenAs::Text => self.take_text(line),
            WrittenAs::Json => {
                let line = BurstLine {
                    place: later(self.frame, line.place),
                    ..*line
                };
                self.take("", &BurstObject { burst, line: &line })
            }
        }
    }
}

impl Taker<Outgoing> for TextWindow<'_> {
    ghost Takes = { λ old outgoing new. (new.left_out ≡ old.left_out - 1) × (new.taken ≡ old.taken + 1)
        × (new.notation ≡ old.notation) × (new.frame ≡ old.frame) × GivenInTurn PutsHeadedLine (front_held old.text.now old.length)
        (drop old.left_out ([] ∷ [])) (front_held new.text.now new.length) };

    ghost Refuses = { λ old outgoing new. (new.taken ≡ old.taken)
        × (front_held new.text.now new.length ≡ front_held old.text.now old.length) };

    ghost has_failed = { λ window. window.is_full };

    ghost kept = { λ window. window.text.ghost_name };

    fn put(&mut self, outgoing: &Outgoing) -> Result<(), DeviceFault> {
        let record = outgoing;
        match self.notation {
            WrittenAs::Text => self.take("", &OutgoingLine { record }),
            WrittenAs::Json => self.take("", &OutgoingObject { record }),
        }
    }
}

impl<'r> Taker<ReceivedRecord<'r>> for TextWindow<'_> {
    ghost Takes = { λ old receipt new. (new.left_out ≡ old.left_out - 1) × (new.taken ≡ old.taken + 1)
        × (new.notation ≡ old.notation) × (new.frame ≡ old.frame) × GivenInTurn PutsHeadedLine (front_held old.text.now old.length)
        (drop old.left_out ([] ∷ [])) (front_held new.text.now new.length) };

    ghost Refuses = { λ old receipt new. (new.taken ≡ old.taken)
        × (front_held new.text.now new.length ≡ front_held old.text.now old.length) };

    ghost has_failed = { λ window. window.is_full };

    ghost kept = { λ window. window.text.ghost_name };

    fn put(&mut self, received: &ReceivedRecord<'r>) -> Result<(), DeviceFault> {
        let line = received.line();
        let ReceivedLine { record, octets } = line;
        match self.notation {
            WrittenAs::Text => self.take("", &line),
            WrittenAs::Json => self.take("", &ReceivedObject { record, octets }),
        }
    }
}

impl Taker<Strip> for TextWindow<'_> {
    ghost Takes = { λ old strip new. PutsLines (picture_lines strip)
        (front_held old.text.now old.length) (front_held new.text.now new.length) };

    ghost Refuses = { λ old strip new. new.is_full ≡ true };

    ghost has_failed = { λ window. window.is_full };

    ghost kept = { λ window. window.text.ghost_name };

    #[tactic(auto, using(crate::proofs::Texts::puts_both))]
    fn put(&mut self, strip: &Strip) -> Result<(), DeviceFault> {
        self.print_slot(strip, 1)?;
        self.print_slot(strip, 2)
    }
}
