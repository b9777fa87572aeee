//! What a run reads and writes where a file may be left out.
ghost use Rattle.std.specs.Prelude.{◌≡◌, ℕ, List, Option, Some, None, []};
ghost use Rattle.dmr_record.specs.Outgoing.{outgoing_file};
ghost use Rattle.dmr_program.specs.Devices.{file_contents, list_left, list_opened};

use crate::opening::file_if_any;
use dmr_files::Open;
use std::io::{self, Read, Write};

/// The octets of an outgoing list without a record: its head.
const NO_DATAGRAMS: &[u8] = b"DMRO\x01\x00\x00\x00";

/// What is read of the datagrams to send: a file, or octets that are at hand.
#[derive(Drop)]
pub enum OutgoingList<I> {
    File(I),
    Octets(&'static [u8]),
}

impl<I> OutgoingList<I> {
    /// The list of this file, or one without datagrams where there is no file.
    pub(crate) fn of(file: Option<I>) -> OutgoingList<I>
        // Without a file, a run is over the outgoing file that has no record.
        ensures none { (left : I → Option (List ℕ)) → file ≡ None → list_left left result ≡ Some (outgoing_file []) }
        ensures some { (left : I → Option (List ℕ)) → (given : I) → file ≡ Some given → list_left left result ≡ left given }
    {
        match file {
            Some(file) => OutgoingList::File(file),
            None => OutgoingList::Octets(NO_DATAGRAMS),
        }
    }

    /// The list of this open file, or one without datagrams where there is none.
    pub(crate) fn of_open(opened: Option<Open<I>>) -> OutgoingList<I>
        ensures octets { (left : I → Option (List ℕ)) → list_left left result ≡ list_opened left opened }
    {
        OutgoingList::of(file_if_any(opened))
    }
}

impl<I: Read> Read for OutgoingList<I> {
    ghost remaining = { list_left I.remaining };

    fn read(&mut self, buffer: &mut [u8]) -> io::Result<usize> {
        match self {
            OutgoingList::File(file) => file.read(buffer),
            OutgoingList::Octets(octets) => octets.read(buffer),
        }
    }
}

/// What received records are written to: a file, or nothing that keeps them.
#[derive(Drop)]
pub enum ReceivedFile<O> {
    File(O),
    Nowhere,
}

impl<O> ReceivedFile<O> {
    /// This file, or nothing where there is none.
    pub(crate) fn of(file: Option<O>) -> ReceivedFile<O>
        ensures none { (contents : O → Option (List ℕ)) → file ≡ None → file_contents contents result ≡ None }
        ensures some { (contents : O → Option (List ℕ)) → (given : O) → file ≡ Some given
            → file_contents contents result ≡ contents given }
    {
        match file {
            Some(file) => ReceivedFile::File(file),
            None => ReceivedFile::Nowhere,
        }
    }
}

impl<O: Write> Write for ReceivedFile<O> {
    ghost contents = { file_contents O.contents };

    fn write(&mut self, piece: &[u8]) -> io::Result<usize> {
        match self {
            ReceivedFile::File(file) => file.write(piece),
            ReceivedFile::Nowhere => Ok(piece.len()),
        }
    }

    fn flush(&mut self) -> io::Result<()> {
        match self {
            ReceivedFile::File(file) => file.flush(),
            ReceivedFile::Nowhere => Ok(()),
        }
    }
}
