//! Files as JSON.
use super::{ALL, ONE_CSBK, expect_in};
use dmr_show::{Filter, Form};
use std::test::Fail;

/// An uplink: in slot 1 a voice header and the places A to E of a call, and in slot 2 a preamble, three data headers, a block that
/// can't be read, and a burst that can't.
const UPLINK: &str = "444D525501000000\
    0103BD4BFA8F940FA930F058A0446D5D7F77FD757E32708D60AA000DE6FF01F911BC\
    014039007985E40B1C16580C3004CD5D7F77FD757AC82A4360818800C00FDC101111\
    010000000000000000000000000007F7D5DD57DFD000000000000000000000000000\
    0100520239050304BA047027A1058D5D7F77FD757338282034038608050A807820D4\
    010000000000000000000000000001305220F0691000000000000000000000000000\
    0149E783EE0576004C0448A201058D5D7F77FD75733BB8004A0FC8070D2398132018\
    0100000000000000000000000000017064D4B0374000000000000000000000000000\
    014041838D068D030603783701058D5D7F77FD7573389625D20C900D4921401CB073\
    01000000000000000000000000000170F47276F74000000000000000000000000000\
    01F5EE0320E99D38618ED162C6C5ED5D7F77FD757094CEF2E38F9BE30A34489616F0\
    01000000000000000000000000000152E21416307000000000000000000000000000\
    01000000000000000000000000000000000000007000000000000000000000000000";

/// Its objects.
const OBJECTS: &str = "{\"file\":\"uplink\",\"version\":1}\n\
    {\"frame\":0,\"slot\":1,\"ms\":0,\"side\":\"MS\",\"colour\":1,\"name\":\"voice header\",\
    \"lc\":{\"flco\":0,\"fid\":0,\"options\":201,\"target\":9,\"source\":11259375},\
    \"wrong\":{\"sync\":0,\"slot_type\":0,\"information\":0},\
    \"burst\":\"03BD4BFA8F940FA930F058A0446D5D7F77FD757E32708D60AA000DE6FF01F911BC\"}\n\
    {\"frame\":0,\"slot\":2,\"ms\":30,\"side\":\"MS\",\"colour\":1,\"name\":\"CSBK\",\
    \"csbk\":{\"opcode\":61,\"fid\":0,\"octets\":\"8004000001000002\",\
    \"preamble\":{\"data\":1,\"group\":0,\"left\":4,\"target\":1,\"source\":2}},\
    \"wrong\":{\"sync\":0,\"slot_type\":0,\"information\":0},\
    \"burst\":\"4039007985E40B1C16580C3004CD5D7F77FD757AC82A4360818800C00FDC101111\"}\n\
    {\"frame\":1,\"slot\":1,\"ms\":60,\"side\":\"MS\",\"colour\":null,\"name\":\"voice A\",\"wrong\":{\"sync\":0},\
    \"burst\":\"0000000000000000000000000007F7D5DD57DFD000000000000000000000000000\"}\n\
    {\"frame\":1,\"slot\":2,\"ms\":90,\"side\":\"MS\",\"colour\":1,\"name\":\"data header\",\
    \"header\":{\"format\":3,\"group\":0,\"target\":1,\"source\":2,\"sap\":4,\"number\":6,\"blocks\":64,\"pad\":3},\
    \"wrong\":{\"sync\":0,\"slot_type\":0,\"information\":0},\
    \"burst\":\"00520239050304BA047027A1058D5D7F77FD757338282034038608050A807820D4\"}\n\
    {\"frame\":2,\"slot\":1,\"ms\":120,\"side\":null,\"colour\":1,\"name\":\"voice B\",\"lcss\":1,\"pi\":0,\
    \"wrong\":{\"emb\":0},\"burst\":\"0000000000000000000000000001305220F0691000000000000000000000000000\"}\n\
    {\"frame\":2,\"slot\":2,\"ms\":150,\"side\":\"MS\",\"colour\":1,\"name\":\"data header\",\
    \"header\":{\"format\":14,\"group\":1,\"target\":9,\"source\":3,\"source_port\":1,\"target_port\":2,\"status\":517},\
    \"wrong\":{\"sync\":0,\"slot_type\":0,\"information\":0},\
    \"burst\":\"49E783EE0576004C0448A201058D5D7F77FD75733BB8004A0FC8070D2398132018\"}\n\
    {\"frame\":3,\"slot\":1,\"ms\":180,\"side\":null,\"colour\":1,\"name\":\"voice C\",\"lcss\":3,\"pi\":0,\
    \"wrong\":{\"emb\":0},\"burst\":\"00000000000000000000000000017064D4B0374000000000000000000000000000\"}\n\
    {\"frame\":3,\"slot\":2,\"ms\":210,\"side\":\"MS\",\"colour\":1,\"name\":\"data header\",\
    \"header\":{\"format\":13,\"group\":0,\"target\":1,\"source\":2,\"data_format\":11,\"blocks\":35,\"bit_padding\":12},\
    \"wrong\":{\"sync\":0,\"slot_type\":0,\"information\":0},\
    \"burst\":\"4041838D068D030603783701058D5D7F77FD7573389625D20C900D4921401CB073\"}\n\
    {\"frame\":4,\"slot\":1,\"ms\":240,\"side\":null,\"colour\":1,\"name\":\"voice D\",\"lcss\":3,\"pi\":0,\
    \"wrong\":{\"emb\":0},\"burst\":\"000000000000000000000000000170F47276F74000000000000000000000000000\"}\n\
    {\"frame\":4,\"slot\":2,\"ms\":270,\"side\":\"MS\",\"colour\":1,\"name\":\"rate 1/2\",\"octets\":null,\
    \"wrong\":{\"sync\":0,\"slot_type\":0,\"information\":null},\
    \"burst\":\"F5EE0320E99D38618ED162C6C5ED5D7F77FD757094CEF2E38F9BE30A34489616F0\"}\n\
    {\"frame\":5,\"slot\":1,\"ms\":300,\"side\":null,\"colour\":1,\"name\":\"voice E\",\"lcss\":2,\"pi\":0,\
    \"lc\":{\"flco\":0,\"fid\":0,\"options\":201,\"target\":9,\"source\":11259375},\"wrong\":{\"emb\":0},\
    \"burst\":\"000000000000000000000000000152E21416307000000000000000000000000000\"}\n\
    {\"frame\":5,\"slot\":2,\"ms\":330,\"side\":null,\"colour\":null,\"name\":\"unreadable\",\"wrong\":null,\
    \"burst\":\"000000000000000000000000000000000000007000000000000000000000000000\"}\n\
    {\"frames\":6,\"records\":12}\n";

#[test]
fn objects_of_an_uplink(rt: HostRuntime) -> Result<(), Fail> {
    expect_in(&rt, Form::Json, UPLINK, usize::MAX, ALL, 0, OBJECTS, "")
}

/// A frame of a downlink: the block of the sample `one_csbk` with its CACH, and silence.
const DOWNLINK: &str = "444D524401000000\
    01800A200062008201900100042004E004CDFF57D75DF5DAC81800280250028000C0120022\
    00";

const REPEATED: &str = "{\"file\":\"downlink\",\"version\":1}\n\
    {\"frame\":0,\"slot\":1,\"ms\":0,\"side\":\"BS\",\"colour\":1,\"cach\":{\"at\":1,\"tc\":0,\"lcss\":1},\"name\":\"CSBK\",\
    \"csbk\":{\"opcode\":0,\"fid\":0,\"octets\":\"0000000000000000\"},\
    \"wrong\":{\"sync\":0,\"slot_type\":0,\"information\":0},\
    \"burst\":\"0062008201900100042004E004CDFF57D75DF5DAC81800280250028000C0120022\"}\n\
    {\"frames\":1,\"records\":2}\n";

/// An outgoing list and a received list, of a record each.
const OUTGOING: &str = "444D524F01000000020000000702030003010203";

const SENT: &str = "{\"file\":\"outgoing\",\"version\":1}\n\
    {\"frame\":7,\"slot\":2,\"ms\":450,\"confirmed\":true,\"rate\":\"1\",\"length\":3,\"octets\":\"010203\"}\n\
    {\"records\":1}\n";

const RECEIVED: &str = "444D52490100000003000000090101FFFFFF0002ABCD";

const CAME: &str = "{\"file\":\"received\",\"version\":1}\n\
    {\"frame\":9,\"slot\":1,\"ms\":540,\"kind\":\"short data\",\"source\":16777215,\"octets\":\"ABCD\"}\n\
    {\"records\":1}\n";

#[test]
fn objects_of_other_files(rt: HostRuntime) -> Result<(), Fail> {
    for (file, objects) in [(DOWNLINK, REPEATED), (OUTGOING, SENT), (RECEIVED, CAME)] {
        expect_in(&rt, Form::Json, file, usize::MAX, ALL, 0, objects, "")?;
    }
    Ok(())
}

/// Behind a fault there is no last object, and a filter leaves objects out.
#[test]
fn objects_up_to_a_fault(rt: HostRuntime) -> Result<(), Fail> {
    let later = Filter {
        from: Some(1),
        ..ALL
    };
    let half = "error: cut.dmru: half frame at octet 42, frame 0, slot 2\n";
    let head = "{\"file\":\"uplink\",\"version\":1}\n";
    expect_in(&rt, Form::Json, ONE_CSBK, 42, later, 1, head, half)
}
