// Pairs again and again, once for each octet on standard input, sixteen times at most: what scripts/cost measures. The method is passkey entry,
// the passkey is shown here, and what is supplied is zeros. A pairing is 46 calls of the responder; no question is asked, no line written.
#![tactic(auto)]

use address::{Address, AddressKind};
use features::{IoCapabilities, UseOutOfBand};
use machine::Phase;
use protocol::{Event, OobData, Setup, Supplied};
use responder::Responder;
use std::io;
use std::io::Read;

fn main(rt: HostRuntime) -> io::Result<()> {
    let mut octets = [0u8; 16];
    let wanted = rt.reader().read(&mut octets).unwrap_or(0);
    if pairings(wanted as u32, event(octets[0])) {
        rt.write_all(b"done\n")
    } else {
        rt.write_all(b"failed\n")
    }
}

// Whether so many pairings, one after the other, all succeed.
fn pairings(wanted: u32, came: Event) -> bool {
    for made in 0..wanted {
        if !pairs(made, came) {
            return false;
        }
    }
    true
}

// Whether a whole pairing with a configured passkey succeeds.
fn pairs(passkey: u32, came: Event) -> bool {
    let mut out = [0u8; 90];
    let begun = wrapper::new_peripheral(setup(passkey));
    let keyed = opened(begun.responder, &mut out);
    let agreed = rounds(keyed, &mut out);
    let checked = encrypted(agreed, came, &mut out);
    succeeded(identified(checked, &mut out))
}

// The responder after the peer's request and its public key.
fn opened(fresh: Responder, out: &mut [u8]) -> Responder {
    let asked = fresh.command(&request(), supplied(), out).responder;
    asked.command(&key(), supplied(), out).responder
}

// The responder after the twenty rounds of a passkey.
fn rounds(keyed: Responder, out: &mut [u8]) -> Responder {
    let mut responder = keyed;
    for _ in 0..20 {
        responder = exchanged(responder, out);
    }
    responder
}

// The responder after a round: the peer's confirm, and its random.
fn exchanged(before: Responder, out: &mut [u8]) -> Responder {
    let confirmed = before
        .command(&value(frames::PAIRING_CONFIRM), supplied(), out)
        .responder;
    confirmed
        .command(&value(frames::PAIRING_RANDOM), supplied(), out)
        .responder
}

// The responder after the peer's DHKey check and an event.
fn encrypted(agreed: Responder, came: Event, out: &mut [u8]) -> Responder {
    let checked = agreed
        .command(&value(frames::DHKEY_CHECK), supplied(), out)
        .responder;
    checked.event(came, supplied(), out).responder
}

// The responder after the peer's identity information and its identity address.
fn identified(encrypted: Responder, out: &mut [u8]) -> Responder {
    let informed = encrypted
        .command(&value(frames::IDENTITY_INFORMATION), supplied(), out)
        .responder;
    informed.command(&identity(), supplied(), out).responder
}

fn succeeded(responder: Responder) -> bool {
    matches!(responder.state.phase, Phase::Success)
}

// The event that an octet stands for: zero, that the link is encrypted. The compiler can't know which it is, so it keeps the step for each.
fn event(octet: u8) -> Event {
    match octet {
        0 => Event::LinkEncryptedResult(true),
        1 => Event::PassKeyConfirm,
        2 => Event::PassKeyCancel,
        3 => Event::OobDataReceived(values()),
        _ => Event::PassKeyInput(octet as u32),
    }
}

// KeyboardDisplay, no OOB data, bonding with MITM protection and secure connections, key size 16, identity keys both ways.
fn request() -> [u8; 7] {
    [frames::PAIRING_REQUEST, 4, 0, 13, 16, 2, 2]
}

fn key() -> [u8; 65] {
    let mut octets = [0u8; 65];
    octets[0] = frames::PUBLIC_KEY;
    octets
}

// A command of this code with a value of zeros.
fn value(code: u8) -> [u8; 17] {
    let mut octets = [0u8; 17];
    octets[0] = code;
    octets
}

fn identity() -> [u8; 8] {
    [frames::IDENTITY_ADDRESS, 0, 0, 0, 0, 0, 0, 0]
}

fn address() -> Address {
    Address {
        kind: AddressKind::Public,
        octets: [0u8; 6],
    }
}

fn values() -> OobData {
    OobData {
        ownrandom: [0u8; 16],
        peerrandom: [0u8; 16],
        peerconfirm: [0u8; 16],
    }
}

fn supplied() -> Supplied {
    Supplied {
        nonce: [0u8; 16],
        passkey: 0,
        dhvalid: true,
        dhkey: [0u8; 32],
        ownconfirm: [0u8; 16],
        peerconfirm: [0u8; 16],
        g2: 0,
        mackey: [0u8; 16],
        ltk: [0u8; 16],
        peercheck: [0u8; 16],
        owncheck: [0u8; 16],
    }
}

fn setup(passkey: u32) -> Setup {
    Setup {
        io: IoCapabilities::DisplayOnly,
        oob: UseOutOfBand::NotPresent,
        bonding: true,
        passkey: Some(passkey),
        keyx: [1u8; 32],
        keyy: [2u8; 32],
        irk: [3u8; 16],
        own: address(),
        identity: address(),
        peer: address(),
        known: None,
    }
}
