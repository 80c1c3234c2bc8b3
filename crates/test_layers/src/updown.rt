//! Of the parts of provisioning messages, what no clause shows: that calls that take memory answer, and what is printed. The texts are
//! those of the crate `rpki` (NLnet Labs).
//!
//! What has many parts is made by one function and lent to another, so that none holds much over several calls that may fail.

use rpki_sets::BlocksError;
use rpki_updown::*;
use std::alloc::Global;
use std::fmt::Display;
use std::test::Fail;

fn printed<T: Display>(alloc: Global, value: &T) -> Result<String, OutOfMemory> {
    Ok(format!(in alloc; "{value}")?)
}

// ---- names of classes

// Three names, each less than the next.
#[derive(Drop)]
struct Names {
    zero: ResourceClassName,
    most: ResourceClassName,
    any: ResourceClassName,
}

fn copied_name(alloc: Global) -> Result<ResourceClassName, OutOfMemory> {
    ResourceClassName::from_str(alloc, "a b")?.clone(alloc)
}

fn three_names(alloc: Global) -> Result<Names, OutOfMemory> {
    let zero = ResourceClassName::default_name(alloc)?;
    let most = ResourceClassName::from_u32(alloc, 4_294_967_295)?;
    let any = copied_name(alloc)?;
    Ok(Names { zero, most, any })
}

fn are_ordered(names: &Names) -> bool {
    names.zero < names.most && names.most < names.any && names.zero != names.any
}

fn names_text(alloc: Global, names: &Names) -> Result<String, OutOfMemory> {
    Ok(format!(in alloc; "{}/{}/{}", names.zero, names.most, names.any)?)
}

// Whether the names are in order, and what is printed of them.
fn names_shown(alloc: Global) -> Result<(bool, String), OutOfMemory> {
    let names = three_names(alloc)?;
    let text = names_text(alloc, &names)?;
    Ok((are_ordered(&names), text))
}

#[test]
fn class_names_are_printed(rt: HostRuntime) -> Result<(), Fail> {
    let (is_ordered, text) = names_shown(rt.alloc())?;
    assert!(rt; is_ordered);
    assert_eq!(rt; text.as_str(), "0/4294967295/a b");
    Ok(())
}

// ---- kinds

fn is_kind(alloc: Global, text: &str, kind: PayloadType) -> bool {
    match PayloadType::from_str(alloc, text) {
        Ok(read) => read == kind,
        Err(_) => false,
    }
}

fn is_no_kind(alloc: Global, text: &str) -> bool {
    matches!(
        PayloadType::from_str(alloc, text),
        Err(Error::InvalidPayloadType(_))
    )
}

#[test]
fn kinds_of_messages_are_read(rt: HostRuntime) {
    assert!(rt; is_kind(rt.alloc(), "issue_response", PayloadType::IssueResponse));
    assert!(rt; is_no_kind(rt.alloc(), "Issue"));
}

fn kind_and_error(alloc: Global, kind: PayloadType, error: &Error) -> Result<String, OutOfMemory> {
    Ok(format!(in alloc; "{kind}; {error}")?)
}

fn kinds_text(alloc: Global) -> Result<String, OutOfMemory> {
    let invalid = PayloadTypeError(Text::from_str(alloc, "Issue")?);
    kind_and_error(alloc, PayloadType::ErrorResponse, &Error::from(invalid))
}

#[test]
fn kinds_of_messages_are_printed(rt: HostRuntime) -> Result<(), Fail> {
    let text = kinds_text(rt.alloc())?;
    assert_eq!(rt;
        text.as_str(),
        "error_response; Invalid payload type: Issue"
    );
    Ok(())
}

// ---- revocation

fn key() -> KeyIdentifier {
    match KeyIdentifier::from_octets([0xabu8; 20].as_slice()) {
        Some(key) => key,
        None => unreachable!(),
    }
}

fn request(alloc: Global) -> Result<RevocationRequest, OutOfMemory> {
    let name = ResourceClassName::default_name(alloc)?;
    RevocationRequest::new(name, key()).clone(alloc)
}

fn response(alloc: Global, request: &RevocationRequest) -> Result<RevocationResponse, OutOfMemory> {
    RevocationResponse::from_request(alloc, request)?.clone(alloc)
}

// Whether this is the class and the key of the request.
fn is_of_request(element: &KeyElement, request: &RevocationRequest) -> bool {
    element == request.key_element() && *element.key() == request.key()
}

// Whether the answer grants the request, and what is printed of the answer.
fn granted(alloc: Global, request: &RevocationRequest) -> Result<(bool, String), OutOfMemory> {
    let response = response(alloc, request)?;
    let text = printed(alloc, response.key_element())?;
    Ok((is_of_request(response.key_element(), request), text))
}

fn request_granted(alloc: Global) -> Result<(bool, String), OutOfMemory> {
    let request = request(alloc)?;
    granted(alloc, &request)
}

#[test]
fn a_request_is_granted(rt: HostRuntime) -> Result<(), Fail> {
    let (is_granted, text) = request_granted(rt.alloc())?;
    assert!(rt; is_granted);
    assert_eq!(rt;
        text.as_str(),
        "class name '0' key 'ABABABABABABABABABABABABABABABABABABABAB'"
    );
    Ok(())
}

// ---- why nothing was done

// What the constructor with this number gives; where there is none, the number without words.
fn answer_of(alloc: Global, status: u64) -> Result<NotPerformedResponse, OutOfMemory> {
    match status {
        1101 => NotPerformedResponse::err_1101(alloc),
        1102 => NotPerformedResponse::err_1102(alloc),
        1103 => NotPerformedResponse::err_1103(alloc),
        1104 => NotPerformedResponse::err_1104(alloc),
        1201 => NotPerformedResponse::err_1201(alloc),
        1202 => NotPerformedResponse::err_1202(alloc),
        1203 => NotPerformedResponse::err_1203(alloc),
        1204 => NotPerformedResponse::err_1204(alloc),
        1301 => NotPerformedResponse::err_1301(alloc),
        1302 => NotPerformedResponse::err_1302(alloc),
        2001 => NotPerformedResponse::err_2001(alloc),
        _ => Ok(NotPerformedResponse::new(status, None)),
    }
}

// What a copy of it prints.
fn answer_text(alloc: Global, status: u64) -> Result<String, OutOfMemory> {
    let response = answer_of(alloc, status)?.clone(alloc)?;
    printed(alloc, &response)
}

#[test]
fn nothing_is_done_to_a_request(rt: HostRuntime) -> Result<(), Fail> {
    let rows = [
        (1101, "1101 - already processing request"),
        (1102, "1102 - version number error"),
        (1103, "1103 - unrecognized request type"),
        (1104, "1104 - request scheduled for processing"),
    ];
    for (status, expected) in rows {
        let text = answer_text(rt.alloc(), status)?;
        assert_eq!(rt; text.as_str(), expected);
    }
    Ok(())
}

#[test]
fn nothing_is_issued(rt: HostRuntime) -> Result<(), Fail> {
    let rows = [
        (1201, "1201 - request - no such resource class"),
        (
            1202,
            "1202 - request - no resources allocated in resource class",
        ),
        (1203, "1203 - request - badly formed certificate request"),
        (1204, "1204 - request - already used key in request"),
    ];
    for (status, expected) in rows {
        let text = answer_text(rt.alloc(), status)?;
        assert_eq!(rt; text.as_str(), expected);
    }
    Ok(())
}

#[test]
fn nothing_is_revoked(rt: HostRuntime) -> Result<(), Fail> {
    let rows = [
        (1301, "1301 - revoke - no such resource class"),
        (1302, "1302 - revoke - no such key"),
        (2001, "2001 - Internal Server Error - Request not performed"),
        (7, "7"),
    ];
    for (status, expected) in rows {
        let text = answer_text(rt.alloc(), status)?;
        assert_eq!(rt; text.as_str(), expected);
    }
    Ok(())
}

// ---- limits

fn limit(alloc: Global) -> Result<RequestResourceLimit, BlocksError> {
    let mut limit = RequestResourceLimit::default();
    limit.with_ipv4(Ipv4Blocks::from_str(alloc, "10.0.0.0/8")?);
    Ok(limit)
}

fn whole_limit(alloc: Global) -> Result<RequestResourceLimit, BlocksError> {
    let mut limit = limit(alloc)?;
    limit.with_asn(AsBlocks::from_str(alloc, "AS64496-AS64500")?);
    limit.with_ipv6(Ipv6Blocks::from_str(alloc, "")?);
    Ok(limit)
}

fn set(alloc: Global, ipv4: &str) -> Result<ResourceSet, BlocksError> {
    let asn = AsBlocks::from_str(alloc, "64496-64511")?;
    let ipv4 = Ipv4Blocks::from_str(alloc, ipv4)?;
    let ipv6 = Ipv6Blocks::from_str(alloc, "2001:db8::/32")?;
    Ok(ResourceSet::new(asn, ipv4, ipv6))
}

// What is printed of no limit and of these two.
fn limits_printed(
    alloc: Global,
    some: &RequestResourceLimit,
    whole: &RequestResourceLimit,
) -> Result<String, OutOfMemory> {
    let none = RequestResourceLimit::new();
    Ok(format!(in alloc; "{none}/{some}/{whole}")?)
}

fn limits_text(alloc: Global) -> Result<String, BlocksError> {
    let some = limit(alloc)?;
    let whole = whole_limit(alloc)?.clone(alloc)?;
    Ok(limits_printed(alloc, &some, &whole)?)
}

#[test]
fn limits_are_printed(rt: HostRuntime) -> Result<(), Fail> {
    let text = limits_text(rt.alloc())?;
    assert_eq!(rt;
        text.as_str(),
        "none/ipv4: 10.0.0.0/8/asn: 64496-64500 ipv4: 10.0.0.0/8 ipv6: "
    );
    Ok(())
}

// Whether this much is left, and nothing is refused.
fn is_left(answer: &Result<ResourceSet, Error>, left: &ResourceSet) -> bool {
    match answer {
        Ok(set) => set == left,
        Err(_) => false,
    }
}

// Whether a limit leaves the set with the IPv4 addresses that it states.
fn is_applied(alloc: Global, held: &ResourceSet) -> Result<bool, BlocksError> {
    let left = set(alloc, "10.0.0.0/8")?;
    let limit = limit(alloc)?;
    Ok(is_left(&limit.apply_to(alloc, held), &left))
}

// What is printed of what is left; nothing where the limit is refused.
fn left_text(alloc: Global, answer: &Result<ResourceSet, Error>) -> Result<String, BlocksError> {
    match answer {
        Ok(set) => Ok(printed(alloc, set)?),
        Err(_) => Ok(String::new(alloc)),
    }
}

// What is printed of the refusal; nothing where something is left.
fn refusal_text(alloc: Global, answer: &Result<ResourceSet, Error>) -> Result<String, BlocksError> {
    match answer {
        Ok(_) => Ok(String::new(alloc)),
        Err(error) => Ok(printed(alloc, error)?),
    }
}

fn whole_limit_applied(alloc: Global, held: &ResourceSet) -> Result<String, BlocksError> {
    let limit = whole_limit(alloc)?;
    left_text(alloc, &limit.apply_to(alloc, held))
}

fn both_applied(alloc: Global, held: &ResourceSet) -> Result<(bool, String), BlocksError> {
    let is_applied = is_applied(alloc, held)?;
    Ok((is_applied, whole_limit_applied(alloc, held)?))
}

fn large_set_asked(alloc: Global) -> Result<(bool, String), BlocksError> {
    let held = set(alloc, "10.0.0.0/7")?;
    both_applied(alloc, &held)
}

#[test]
fn a_limit_is_applied(rt: HostRuntime) -> Result<(), Fail> {
    let (is_applied, text) = large_set_asked(rt.alloc())?;
    assert!(rt; is_applied);
    assert_eq!(rt;
        text.as_str(),
        "asn: '64496-64500', ipv4: '10.0.0.0/8', ipv6: ''"
    );
    Ok(())
}

fn limit_refused(alloc: Global, held: &ResourceSet) -> Result<String, BlocksError> {
    let limit = limit(alloc)?;
    refusal_text(alloc, &limit.apply_to(alloc, held))
}

fn small_set_asked(alloc: Global) -> Result<String, BlocksError> {
    let held = set(alloc, "10.0.0.0/9")?;
    limit_refused(alloc, &held)
}

#[test]
fn a_limit_past_the_set_is_refused(rt: HostRuntime) -> Result<(), Fail> {
    let text = small_set_asked(rt.alloc())?;
    assert_eq!(rt;
        text.as_str(),
        "Limit 'ipv4: 10.0.0.0/8' contains resources not held in set 'asn: '64496-64511', ipv4: '10.0.0.0/9', ipv6: '2001:db8::/32''"
    );
    Ok(())
}

// ---- errors

#[test]
fn errors_are_printed(rt: HostRuntime) -> Result<(), Fail> {
    let text = format!(in rt.alloc();
        "{}; {}; {}; {}; {}",
        Error::InvalidVersion,
        Error::XmlError(XmlError::Malformed),
        Error::InvalidCsrSyntax,
        Error::CertSyntax,
        Error::CmsDecode
    )?;
    assert_eq!(rt;
        text.as_str(),
        "Invalid protocol version, MUST be 1; malformed XML; Could not decode CSR; Could not decode certificate; Could not decode CMS"
    );
    Ok(())
}
