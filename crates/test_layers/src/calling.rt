//! The example of a caller with a scheme of its own.

use example_receive::{message_from, text_that_is_read};
use rpki_base::Time;
use rpki_ca::Received;
use rpki_publication::{ErrorReply, Message};
use rpki_signer::ToyScheme;
use std::test::Fail;

// The message of examples/query-list.hex, which a model made that was written apart.
const QUERY: &str =
    "3082039906092a864886f70d010702a082038a30820386020103310d300b060960864801650304020130\
    76060b2a864886f70d010910011ca06704653c6d736720786d6c6e733d22687474703a2f2f7777772e68\
    616374726e2e6e65742f757269732f72706b692f7075626c69636174696f6e2d737065632f2220766572\
    73696f6e3d22342220747970653d227175657279223e3c6c6973742f3e3c2f6d73673ea0820156308201\
    523082011ca003020102021460eb9b2e645831bbbde56a8e1b9fada76e08d55e300d06092a864886f70d\
    01010b050030333131302f06035504031328303444313436374134443546343846313733313541333543\
    39304134463741374443334334413130301e170d3233313131343232303832305a170d32333131313432\
    32313832305a30333131302f060355040313283134353430314534333442434432344545313432323232\
    36343145444341384131354144344437323022300d06092a864886f70d01010105000311000000000000\
    0000010000000000000001a3423040301d0603551d0e04160414145401e434bcd24ee142222641edca8a\
    15ad4d72301f0603551d2304183016801404d1467a4d5f48f17315a35c90a4f7a7dc3c4a10300d06092a\
    864886f70d01010b050003210027c165d936dedfbd3641d23f86a34edbcdc07b18df1ce7624cb0bfffc3\
    b90b6da181d53081d230819d020101300d06092a864886f70d01010b050030333131302f060355040313\
    283034443134363741344435463438463137333135413335433930413446374137444333433441313017\
    0d3233313131343232303832305a170d3233313131343232313832305a3000a0343032301f0603551d23\
    04183016801404d1467a4d5f48f17315a35c90a4f7a7dc3c4a10300f0603551d1404080206018bcfe568\
    00300d06092a864886f70d01010b0500032100e9aea3c9966b17e3166e87134cfe30499fdb5ad19c2ab3\
    5279fb87df7400393f3181c73081c40201038014145401e434bcd24ee142222641edca8a15ad4d72300b\
    0609608648016503040201a06b301a06092a864886f70d010903310d060b2a864886f70d010910011c30\
    1c06092a864886f70d010905310f170d3233313131343232313332305a302f06092a864886f70d010904\
    31220420516a8581b2f8c63c7dcd04f072fc9b6307d32b911bb49de486efae423fd3db80300d06092a86\
    4886f70d01010105000420f38bb9e3ce558a61ab8b5a0f288b3e3b4042a65b15bbcaf67bce22ba6b3f7d\
    51";

#[test]
fn a_message_is_received(rt: HostRuntime) -> Result<(), Fail> {
    let alloc = rt.alloc();
    let Ok(octets) = hex::decode(alloc, QUERY.as_bytes()) else {
        return Err(Fail::new("the digits"));
    };
    let key = ToyScheme::key(alloc, 1, 0)?;
    let Some(when) = Time::new(1_700_000_000) else {
        return Err(Fail::new("the moment"));
    };
    let Ok(Received::Publication(message)) = message_from(alloc, &octets, &key, when) else {
        return Err(Fail::new("the message"));
    };
    assert!(rt; message == Message::list_query());
    Ok(())
}

// RFC 8181, 2.3: the document around a list query.
const LIST_QUERY: &[u8] =
    b"<msg xmlns=\"http://www.hactrn.net/uris/rpki/publication-spec/\" version=\"4\" type=\"query\"><list/></msg>";

#[test]
fn what_can_be_written_is(rt: HostRuntime) -> Result<(), Fail> {
    let Some(text) = text_that_is_read(rt.alloc(), &Message::list_query())? else {
        return Err(Fail::new("it can be written"));
    };
    assert_eq!(rt; text.as_slice(), LIST_QUERY);
    Ok(())
}

#[test]
fn an_error_reply_without_errors_is_not_written(rt: HostRuntime) -> Result<(), Fail> {
    let alloc = rt.alloc();
    let message = Message::error(ErrorReply::empty(alloc));
    assert!(rt; text_that_is_read(alloc, &message)?.is_none());
    Ok(())
}
