//! What a line says of a data header.
ghost use Rattle.std.specs.Prelude.{◌≡◌, Some, codes};
ghost use Rattle.std.specs.Fmt.{WritesOnOk};
ghost use Rattle.dmr_data.specs.declared.header.Header.TheVariants as format;
ghost use Rattle.dmr_listing.specs.HeaderTexts.{blocks_text, header_text, header_way};

use crate::counted::Counted;
use crate::way::Way;
use dmr_data::{Confirmed, Header, Response, ShortData, Status, Unconfirmed};
use std::fmt;

/// A data header, printed as who sends what to whom.
#[derive(Drop)]
pub(crate) struct DataHeader(pub(crate) Header);

/// How many blocks follow.
fn blocks(count: u8) -> Counted
    ensures count { result.0 ≡ count }
    ensures name { result.1.now ≡ codes "block" }
{
    Counted(usize::from(count), "block")
}

fn write_response<W: fmt::Write>(
    way: &Way,
    response: &Response,
    f: &mut fmt::Formatter<W>,
) -> fmt::Result
    requires way { way.now ≡ header_way (format.Response response.now) }
    ensures text { WritesOnOk W.write_str_gives f.old result (header_text (format.Response response.now)) f.new }
{
    let blocks = blocks(response.blocks);
    write!(
        f,
        "response {way}, SAP {}, class {}, ",
        response.sap, response.class
    )?;
    write!(
        f,
        "type {}, status {}, {blocks}",
        response.kind, response.status
    )
}

fn write_unconfirmed<W: fmt::Write>(
    way: &Way,
    header: &Unconfirmed,
    f: &mut fmt::Formatter<W>,
) -> fmt::Result
    requires way { way.now ≡ header_way (format.Unconfirmed header.now) }
    ensures text { WritesOnOk W.write_str_gives f.old result (header_text (format.Unconfirmed header.now)) f.new }
{
    let blocks = blocks(header.blocks);
    write!(
        f,
        "unconfirmed {way}, SAP {}, {blocks}, pad {}",
        header.sap, header.pad
    )
}

fn write_confirmed<W: fmt::Write>(
    way: &Way,
    header: &Confirmed,
    f: &mut fmt::Formatter<W>,
) -> fmt::Result
    requires way { way.now ≡ header_way (format.Confirmed header.now) }
    ensures text { WritesOnOk W.write_str_gives f.old result (header_text (format.Confirmed header.now)) f.new }
{
    let blocks = blocks(header.blocks);
    write!(
        f,
        "confirmed {way}, SAP {}, N(S) {}, {blocks}, pad {}",
        header.sap, header.number, header.pad
    )
}

fn write_short_data<W: fmt::Write>(
    way: &Way,
    header: &ShortData,
    f: &mut fmt::Formatter<W>,
) -> fmt::Result
    requires way { way.now ≡ header_way (format.ShortData header.now) }
    ensures text { WritesOnOk W.write_str_gives f.old result (header_text (format.ShortData header.now)) f.new }
{
    let blocks = blocks(header.blocks);
    write!(
        f,
        "short data {way}, format {}, {blocks}, bit padding {}",
        header.data_format, header.bit_padding
    )
}

fn write_status<W: fmt::Write>(way: &Way, header: &Status, f: &mut fmt::Formatter<W>) -> fmt::Result
    requires way { way.now ≡ header_way (format.Status header.now) }
    ensures text { WritesOnOk W.write_str_gives f.old result (header_text (format.Status header.now)) f.new }
{
    write!(
        f,
        "status {way}, port {} -> {}, status {}",
        header.source_port, header.destination_port, header.status
    )
}

impl fmt::Display for DataHeader {
    ghost output = { λ text. Some (header_text text.0) };

    fn fmt<W: fmt::Write>(&self, f: &mut fmt::Formatter<W>) -> fmt::Result {
        let way = Way::of_header(&self.0);
        match &self.0 {
            Header::Response(response) => write_response(&way, response, f),
            Header::Unconfirmed(header) => write_unconfirmed(&way, header, f),
            Header::Confirmed(header) => write_confirmed(&way, header, f),
            Header::ShortData(header) => write_short_data(&way, header, f),
            Header::Status(status) => write_status(&way, status, f),
        }
    }
}
