// That `event` and `question` lend the words of docs/CALLS.md, and that `event_word` and `question_word` give the same with spaces behind them.
use crate::{event, event_word, question, question_word};
use address::{Address, AddressKind};
use method::SecurityLevel;
use protocol::{Check, Commitment, ConnectionEvent, Failure, Question, QuestionKind};

const KEY: [u8; 32] = [1; 32];

const NONCE: [u8; 16] = [2; 16];

const PLACE: Address = Address {
    kind: AddressKind::Public,
    octets: [3; 6],
};

const COMMITMENT: Commitment = Commitment {
    u: KEY,
    v: KEY,
    x: NONCE,
    z: 0x81,
};

const CHECK: Check = Check {
    w: NONCE,
    n1: NONCE,
    n2: NONCE,
    r: NONCE,
    iocap: [4; 3],
    a1: PLACE,
    a2: PLACE,
};

const DH: Question = Question::DH { x: KEY, y: KEY };

const G2: Question = Question::G2 {
    u: KEY,
    v: KEY,
    x: NONCE,
    y: NONCE,
};

const F5: Question = Question::F5 {
    w: KEY,
    n1: NONCE,
    n2: NONCE,
    a1: PLACE,
    a2: PLACE,
};

// Whether a word is this text, with spaces behind it.
fn spells(word: [u8; 36], text: &str) -> bool {
    let text = text.as_bytes();
    word.starts_with(text) && word.iter().skip(text.len()).all(|octet| *octet == b' ')
}

#[test]
fn events(rt: HostRuntime) {
    let complete = ConnectionEvent::PairingComplete(SecurityLevel::Encrypted, true);
    let failed = ConnectionEvent::PairingFailed(Failure::Timeout);
    for (told, text) in [
        (ConnectionEvent::BondLost, "BondLost"),
        (ConnectionEvent::OobRequest, "OobRequest"),
        (ConnectionEvent::PassKeyDisplay(5), "PassKeyDisplay"),
        (ConnectionEvent::PassKeyInput, "PassKeyInput"),
        (ConnectionEvent::PassKeyConfirm(999999), "PassKeyConfirm"),
        (complete, "PairingComplete"),
        (failed, "PairingFailed"),
    ] {
        assert_eq!(rt; event(told), text);
        assert!(rt; spells(event_word(Some(told)), text), "{text}");
    }
    assert!(rt; spells(event_word(None), ""));
}

#[test]
fn questions(rt: HostRuntime) {
    let own_confirm = Question::OwnConfirm(COMMITMENT);
    let peer_confirm = Question::PeerConfirm(COMMITMENT);
    let peer_check = Question::PeerCheck(CHECK);
    let own_check = Question::OwnCheck(CHECK);
    for (asked, kind, text) in [
        (DH, QuestionKind::DH, "DH"),
        (own_confirm, QuestionKind::OwnConfirm, "f4own"),
        (peer_confirm, QuestionKind::PeerConfirm, "f4peer"),
        (G2, QuestionKind::G2, "g2"),
        (F5, QuestionKind::F5, "f5"),
        (peer_check, QuestionKind::PeerCheck, "f6peer"),
        (own_check, QuestionKind::OwnCheck, "f6own"),
    ] {
        assert_eq!(rt; question(asked), text);
        assert!(rt; spells(question_word(Some(kind)), text), "{text}");
    }
    assert!(rt; spells(question_word(None), "-"));
}
