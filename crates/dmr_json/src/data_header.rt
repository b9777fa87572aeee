//! What an object has of a data header.
ghost use Rattle.std.specs.Prelude.{◌≡◌, Some};
ghost use Rattle.std.specs.Fmt.{WritesOnOk};
ghost use Rattle.dmr_data.specs.declared.header.Header.TheVariants as format;
ghost use Rattle.dmr_json.specs.DataHeaders.{confirmed_object, header_object, response_object, unconfirmed_object, way_keys};
ghost use Rattle.dmr_listing.specs.HeaderTexts.{header_way};

use dmr_data::{Confirmed, Header, Response, ShortData, Status, Unconfirmed};
use dmr_listing::Way;
use std::fmt;

/// A data header: the number of its format, who sends to whom, and what its format has.
#[derive(Drop)]
pub(crate) struct DataHeader(pub(crate) Header);

/// Whether the destination is a group, and the addresses.
#[derive(Drop)]
struct WayKeys(Way);

impl fmt::Display for WayKeys {
    ghost output = { λ way. Some (way_keys way.0) };

    #[tactic(auto, unfolding(crate::specs::DataHeaders::way_keys))]
    fn fmt<W: fmt::Write>(&self, f: &mut fmt::Formatter<W>) -> fmt::Result {
        let WayKeys(way) = self;
        let group = u8::from(way.to_group);
        write!(f, "\"group\":{group},")?;
        write!(
            f,
            "\"target\":{},\"source\":{}",
            way.destination, way.source
        )
    }
}

fn write_response<W: fmt::Write>(
    way: &WayKeys,
    response: &Response,
    f: &mut fmt::Formatter<W>,
) -> fmt::Result
    requires way { way.now.0 ≡ header_way (format.Response response.now) }
    ensures text { WritesOnOk W.write_str_gives f.old result (response_object response.now) f.new }
{
    write!(f, "{{\"format\":1,{way},\"sap\":{},", response.sap)?;
    write!(
        f,
        "\"class\":{},\"type\":{},",
        response.class, response.kind
    )?;
    write!(
        f,
        "\"status\":{},\"blocks\":{}}}",
        response.status, response.blocks
    )
}

fn write_unconfirmed<W: fmt::Write>(
    way: &WayKeys,
    header: &Unconfirmed,
    f: &mut fmt::Formatter<W>,
) -> fmt::Result
    requires way { way.now.0 ≡ header_way (format.Unconfirmed header.now) }
    ensures text { WritesOnOk W.write_str_gives f.old result (unconfirmed_object header.now) f.new }
{
    write!(f, "{{\"format\":2,{way},\"sap\":{},", header.sap)?;
    write!(f, "\"blocks\":{},\"pad\":{}}}", header.blocks, header.pad)
}

fn write_confirmed<W: fmt::Write>(
    way: &WayKeys,
    header: &Confirmed,
    f: &mut fmt::Formatter<W>,
) -> fmt::Result
    requires way { way.now.0 ≡ header_way (format.Confirmed header.now) }
    ensures text { WritesOnOk W.write_str_gives f.old result (confirmed_object header.now) f.new }
{
    write!(f, "{{\"format\":3,{way},\"sap\":{},", header.sap)?;
    write!(f, "\"number\":{},", header.number)?;
    write!(f, "\"blocks\":{},\"pad\":{}}}", header.blocks, header.pad)
}

fn write_short_data<W: fmt::Write>(
    way: &WayKeys,
    header: &ShortData,
    f: &mut fmt::Formatter<W>,
) -> fmt::Result {
    write!(
        f,
        "{{\"format\":13,{way},\"data_format\":{},",
        header.data_format
    )?;
    write!(
        f,
        "\"blocks\":{},\"bit_padding\":{}}}",
        header.blocks, header.bit_padding
    )
}

fn write_status<W: fmt::Write>(
    way: &WayKeys,
    header: &Status,
    f: &mut fmt::Formatter<W>,
) -> fmt::Result {
    write!(
        f,
        "{{\"format\":14,{way},\"source_port\":{},",
        header.source_port
    )?;
    write!(f, "\"target_port\":{},", header.destination_port)?;
    write!(f, "\"status\":{}}}", header.status)
}

impl fmt::Display for DataHeader {
    ghost output = { λ header. header_object header.0 };

    fn fmt<W: fmt::Write>(&self, f: &mut fmt::Formatter<W>) -> fmt::Result {
        let way = WayKeys(Way::of_header(&self.0));
        match &self.0 {
            Header::Response(response) => write_response(&way, response, f),
            Header::Unconfirmed(header) => write_unconfirmed(&way, header, f),
            Header::Confirmed(header) => write_confirmed(&way, header, f),
            Header::ShortData(header) => write_short_data(&way, header, f),
            Header::Status(status) => write_status(&way, status, f),
        }
    }
}
