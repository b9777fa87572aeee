//! Laws of texts of files, as the contracts of functions that do nothing.
ghost use Rattle.std.specs.Prelude.{◌≡◌, ◌≢◌, ℕ, List, Option, true};
ghost use Rattle.dmr_words.specs.Lines.{Line, TextState, has_short_lines, last_number, worded_behind};
ghost use Rattle.dmr_text.specs.Files.{AreRecords, File, HasWholeFrames, file_text};
ghost use Rattle.dmr_text.specs.Following.{SaysLast, SaysNext};
ghost use Rattle.dmr_text.specs.Imports.{IsImported, SaysFile};
ghost use Rattle.dmr_text.specs.Octets.{HasOctets};
ghost use Rattle.dmr_text.specs.Says.{IsWithinLimit};
ghost use Rattle.dmr_text.specs.Telling.{ShowsBreak, ShowsLineFault};
ghost use Rattle.dmr_text.specs.declared.carried.Carried.{Carried};
ghost use Rattle.dmr_text.specs.declared.fault.TextFault.{TextFault};

/// The lines of a text say one file at most.
pub fn one_file()
    ensures one { (lines : List Line) (file other : File) → SaysFile lines file → SaysFile lines other → file ≡ other }
{}

/// The text that is written of a file says that file, where it has no more records than its format allows, and none of its lines is
/// too long. So what is imported of it is the file.
pub fn written_text_is_read_back()
    ensures says { (file : File) → AreRecords file → IsWithinLimit file → HasWholeFrames file → HasOctets file
        → SaysFile (worded_behind 0 (file_text file)) file }
    ensures short { (file : File) → AreRecords file → IsWithinLimit file → HasWholeFrames file → HasOctets file
        → has_short_lines (file_text file) ≡ true }
    ensures import { (carried : Carried) (left left' held held' : Option (List ℕ))
        (imported : IsImported carried left left' held held') (file : File) → AreRecords file → IsWithinLimit file
        → HasWholeFrames file → HasOctets file → imported.text ≡ file_text file → imported.file ≡ file }
{}

/// A line that shows a fault behind the records of a file says no record that may stand there, and is no last line of it.
pub fn faults_say_nothing()
    ensures next { (file : File) (fault : TextFault) (words : List (List ℕ)) → ShowsLineFault file fault words
        → ¬ SaysNext file words }
    ensures last { (file : File) (fault : TextFault) (words : List (List ℕ)) → ShowsLineFault file fault words
        → ¬ SaysLast file words }
{}

/// A line behind the records of a file shows one fault at most. So does what stands behind the lines that were told, where there
/// can be one more. This leaves `Read` out, which a device has and no text.
pub fn one_fault()
    ensures line { (file : File) (fault other : TextFault) (words : List (List ℕ)) → ShowsLineFault file fault words
        → ShowsLineFault file other words → fault ≡ other }
    ensures breaks { (at_end fault other : TextFault) (state : TextState) → state.number ≢ last_number
        → ShowsBreak at_end fault state → ShowsBreak at_end other state → fault ≢ TextFault.Read → other ≢ TextFault.Read
        → fault ≡ other }
{}
