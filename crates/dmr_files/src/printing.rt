//! Standard output, as a device that tells why it failed.
ghost use Rattle.std.specs.IoError.{error_kind};
ghost use Rattle.std.specs.Prelude.{◌≡◌, ◌↔◌, None, is_some};
ghost use Rattle.dmr_files.specs.Printing.{print_fault_of};
ghost use Rattle.dmr_record.specs.Devices.{failed_after};

use dmr_record::{DeviceFault, Sink};
use std::io::{Error, ErrorKind, Write};

/// Why nothing more can be printed.
#[derive(Clone, Copy, Debug, Drop, PartialEq, Eq)]
pub enum PrintFault {
    /// The output is a pipe whose reader has left.
    ReaderLeft,
    /// The output can't be written.
    Unwritten,
}

impl PrintFault {
    /// Why nothing more can be printed, where the system answers this error.
    pub fn of(error: &Error) -> PrintFault
        ensures left { (result ≡ PrintFault.ReaderLeft) ↔ (error_kind error.now ≡ ErrorKind.BrokenPipe) }
    {
        match error.kind() {
            ErrorKind::BrokenPipe => PrintFault::ReaderLeft,
            _ => PrintFault::Unwritten,
        }
    }
}

/// A sink over a writer, as `dmr_record::ToWrite`, that remembers why it failed. A write that takes nothing of a piece that isn't
/// empty counts as a failure.
#[derive(Drop)]
pub struct Printer<W> {
    writer: W,
    fault: Option<PrintFault>,
}

impl<W: Write> Printer<W> {
    /// A sink that holds what the writer holds, and hasn't failed.
    pub fn new(writer: W) -> Printer<W>
        ensures octets { ⟦<Printer<W> as Sink>⟧.held result ≡ W.contents writer }
        ensures fault { print_fault_of result ≡ None }
    {
        Printer {
            writer,
            fault: None,
        }
    }

    /// Why it failed, where it has.
    pub fn fault(&self) -> Option<PrintFault>
        ensures fault { result ≡ print_fault_of self.now }
        ensures failed { ⟦<Printer<W> as Sink>⟧.has_failed self.now ≡ is_some result }
    {
        let Printer { writer: _, fault } = self;
        *fault
    }
}

impl<W: Write> Sink for Printer<W> {
    ghost held = { λ printer. W.contents printer.writer };

    ghost has_failed = { λ printer. is_some printer.fault };

    fn write(&mut self, piece: &[u8]) -> Result<usize, DeviceFault> {
        match self.writer.write(piece) {
            Ok(count) if count > 0 || piece.is_empty() => Ok(count),
            Ok(_) => {
                self.fault = Some(PrintFault::Unwritten);
                Err(DeviceFault)
            }
            Err(error) => {
                self.fault = Some(PrintFault::of(&error));
                Err(DeviceFault)
            }
        }
    }
}
