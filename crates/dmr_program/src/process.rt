//! The program, on the system that it runs on.
ghost use Rattle.std.specs.Prelude.{◌≤◌};

use crate::obeying::obey;
use dmr_files::{Printer, StandIns};
use dmr_options::{print_no_words, print_unwritten, words_of};
use dmr_record::ToWrite;

/// Does what the program was started for, and answers its exit status.
pub fn program(rt: &HostRuntime) -> u8
    ensures status { result ≤ 2 }
{
    let _held = StandIns::new(rt);
    let mut out = Printer::new(rt.stdout());
    let mut err = ToWrite::new(rt.stderr());
    let status = match words_of(rt) {
        Ok(words) => obey(rt.alloc(), words.as_slice(), rt, &mut out, &mut err),
        Err(error) => print_no_words(&error, &mut err),
    };
    print_unwritten(out.fault(), &mut err);
    status
}
