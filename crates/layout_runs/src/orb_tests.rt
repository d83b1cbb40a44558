use orb_layout::{
    CommandOrb, LoginResponse, ManagementOrb, OrbFault, OrbPointer, QueryEntry, QueryResponse,
};
use sbp_base::{NodeId, Offset};

const LOGIN_ORB: [u8; 32] = [
    0, 0, 0, 0, 0, 0, 0, 0, 0, 0, 0, 0, 0x12, 0, 0x10, 0, 0x80, 0x20, 0, 0, 0, 0, 0, 0x10, 0, 0, 0,
    0, 0x13, 0, 0, 0,
];

/// Whether a login ORB of the examples is written and read so, and none is read of 31 bytes.
fn has_login_orb() -> Option<bool> {
    let orb = ManagementOrb {
        first: 0,
        second: Offset::new(0x1200_1000)?,
        notify: true,
        format: 0,
        exclusive: false,
        reconnect: 2,
        function: 0,
        subject: 0,
        password_length: 0,
        response_length: 16,
        fifo: Offset::new(0x1300_0000)?,
    };
    let mut out = [0xaau8; 32];
    let is_so = orb.write(&mut out) == 32
        && out == LOGIN_ORB
        && ManagementOrb::read(&LOGIN_ORB) == Ok(orb)
        && ManagementOrb::read(&LOGIN_ORB[..31]) == Err(OrbFault::Length { need: 32 });
    Some(is_so)
}

/// A command ORB up to its options.
const COMMAND_ORB: [u8; 20] = [
    0x80, 0, 0, 0, 0, 0, 0, 0, 0xff, 0xc1, 0, 0, 0x12, 0, 0, 0, 0x82, 0x78, 0, 3,
];

/// Whether a command ORB with a page table of three elements, whose next pointer is null, is written so
/// and read as it was, and none is read of 31 bytes.
fn has_command_orb() -> Option<bool> {
    let orb = CommandOrb {
        next: OrbPointer::Null,
        descriptor: Offset::new(0x1200_0000)?,
        descriptor_node: NodeId::from_raw(0xffc1),
        format: 0,
        notify: true,
        to_initiator: false,
        speed: 2,
        max_payload: 7,
        has_table: true,
        page_size: 0,
        data_size: 3,
        cdb: [0x2a, 0, 0, 0, 0, 8, 0, 0, 2, 0, 0, 0],
    };
    let mut out = [0xaau8; 32];
    let is_so = orb.write(&mut out) == 32
        && out[..20] == COMMAND_ORB[..]
        && CommandOrb::read(&out) == Ok(orb)
        && CommandOrb::read(&out[1..]) == Err(OrbFault::Length { need: 32 });
    Some(is_so)
}

const LOGIN_RESPONSE: [u8; 16] = [0, 0x10, 0, 5, 0, 0, 0xff, 0xff, 0xf0, 1, 0, 0, 0, 0, 0, 2];

/// Whether a login response is written so, and read as it was where its reserved bits and node ID are
/// others.
fn has_login_response() -> Option<bool> {
    let response = LoginResponse {
        login: 5,
        agent: Offset::new(0xffff_f001_0000)?,
        hold: 2,
    };
    let mut out = [0u8; 32];
    let length = response.write(&mut out);
    let is_written = out[..16] == LOGIN_RESPONSE[..];
    out[4] = 0xff;
    out[12] = 0x80;
    Some(length == 16 && is_written && LoginResponse::read(&out) == Ok(response))
}

/// A query response of two logins.
const QUERY_RESPONSE: [u8; 28] = [
    0, 0x1c, 0, 8, 0xff, 0xc0, 0, 1, 2, 0, 0, 0, 0, 0, 0, 1, 0xff, 0xc1, 0, 2, 2, 0, 0, 0, 0, 0, 0,
    2,
];

/// Whether a query response of two logins is written so, and they are counted in more bytes.
fn has_query_response() -> bool {
    let logins = [
        QueryEntry {
            node: NodeId::from_raw(0xffc0),
            login: 1,
            eui: 0x0200_0000_0000_0001,
        },
        QueryEntry {
            node: NodeId::from_raw(0xffc1),
            login: 2,
            eui: 0x0200_0000_0000_0002,
        },
    ];
    let mut out = [0u8; 100];
    QueryResponse::write_into(&logins, &mut out) == 28
        && out[..28] == QUERY_RESPONSE[..]
        && QueryResponse::count(&out) == Some(2)
}

/// Whether its logins are counted, of the whole and cut short, and lengths that are none are not.
fn has_query_counts() -> bool {
    QueryResponse::count(&QUERY_RESPONSE) == Some(2)
        && QueryResponse::count(&QUERY_RESPONSE[..4]) == Some(2)
        && QueryResponse::count(&QUERY_RESPONSE[..3]) == None
        && QueryResponse::count(&[0, 112, 0, 8]) == None
        && QueryResponse::count(&[0, 5, 0, 8]) == None
        && QueryResponse::count(&[0, 4, 0, 8]) == Some(0)
}

/// The layouts of the ORBs, the login response and the query response.
#[test]
fn orbs_and_responses(rt: HostRuntime) {
    assert!(rt; has_login_orb() == Some(true));
    assert!(rt; has_command_orb() == Some(true));
    assert!(rt; has_login_response() == Some(true));
    assert!(rt; has_query_response());
    assert!(rt; has_query_counts());
}
