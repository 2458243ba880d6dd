// The words of docs/CALLS.md for the enums of a line, each in 36 octets with spaces behind it. A word goes by value, so that no second answer
// meets a contract (`Unique`, proofs/Unique.antt): a lent text has a place beside its octets, which no contract fixes. The words stand in
// words.rt: a choice among constants is proved in a third of the time of one among words in the code. `event` and `question` lend the same words
// as texts, without spaces. No crate here calls them: they stand for callers outside. A line is made of the words by value, `event_word` and
// `question_word`.
#![tactic(auto)]

#[cfg(test)]
mod tests;
mod words;

ghost use Rattle.std.specs.Prelude.{◌≡◌};
ghost use Rattle.protocol.specs.Plan.{kind_of};
ghost use Rattle.names.specs.Names.{
  octets,
  padded,
  failure_name,
  refusal_name,
  level_name,
  entry_name,
  method_name,
  state_name,
  event_name,
  question_name,
};

use machine::Phase;
use method::{PairingMethod, PassKeyEntryAction, SecurityLevel};
use protocol::{ConnectionEvent, Failure, Question, QuestionKind, Refusal};

// A failure's number and name.
pub fn failure(failure: Failure) -> [u8; 36]
    ensures { result ≡ padded (failure_name failure) }
{
    match failure {
        Failure::InvalidState => words::INVALID_STATE,
        Failure::InvalidValue => words::INVALID_VALUE,
        Failure::Timeout => words::TIMEOUT,
        Failure::PasskeyEntryFailed => words::PASSKEY_ENTRY_FAILED,
        Failure::AuthenticationRequirements => words::AUTHENTICATION_REQUIREMENTS,
        Failure::ConfirmValueFailed => words::CONFIRM_VALUE_FAILED,
        Failure::EncryptionKeySize => words::ENCRYPTION_KEY_SIZE,
        Failure::InvalidParameters => words::INVALID_PARAMETERS,
        Failure::DHKeyCheckFailed => words::DH_KEY_CHECK_FAILED,
        Failure::NumericComparisonFailed => words::NUMERIC_COMPARISON_FAILED,
        Failure::KeyRejected => words::KEY_REJECTED,
    }
}

// A refusal's number and name.
pub fn refusal(refusal: Refusal) -> [u8; 36]
    ensures { result ≡ padded (refusal_name refusal) }
{
    match refusal {
        Refusal::Finished => words::FINISHED,
        Refusal::OutboxShort => words::OUTBOX_SHORT,
        Refusal::PasskeyRange => words::PASSKEY_RANGE,
    }
}

pub fn level(level: SecurityLevel) -> [u8; 36]
    ensures { result ≡ padded (level_name level) }
{
    match level {
        SecurityLevel::NoEncryption => words::NO_ENCRYPTION,
        SecurityLevel::Encrypted => words::ENCRYPTED,
        SecurityLevel::EncryptedAuthenticated => words::ENCRYPTED_AUTHENTICATED,
    }
}

pub fn method(method: PairingMethod) -> [u8; 36]
    ensures { result ≡ padded (method_name method) }
{
    match method {
        PairingMethod::JustWorks => words::JUST_WORKS,
        PairingMethod::NumericComparison => words::NUMERIC_COMPARISON,
        PairingMethod::PassKeyEntry {
            central,
            peripheral,
        } => passkey_entry(central, peripheral),
        PairingMethod::OutOfBand => words::OUT_OF_BAND,
    }
}

fn passkey_entry(central: PassKeyEntryAction, peripheral: PassKeyEntryAction) -> [u8; 36]
    ensures { result ≡ padded (entry_name central peripheral) }
{
    match (central, peripheral) {
        (PassKeyEntryAction::Display, PassKeyEntryAction::Display) => words::BOTH_DISPLAY,
        (PassKeyEntryAction::Display, PassKeyEntryAction::Input) => words::CENTRAL_DISPLAYS,
        (PassKeyEntryAction::Input, PassKeyEntryAction::Display) => words::PERIPHERAL_DISPLAYS,
        (PassKeyEntryAction::Input, PassKeyEntryAction::Input) => words::BOTH_INPUT,
    }
}

pub fn state(phase: Phase) -> [u8; 36]
    ensures { result ≡ padded (state_name phase) }
{
    match phase {
        Phase::WaitingPairingRequest => words::WAITING_PAIRING_REQUEST,
        Phase::WaitingPublicKey => words::WAITING_PUBLIC_KEY,
        Phase::WaitingNumericComparisonRandom => words::WAITING_NUMERIC_COMPARISON_RANDOM,
        Phase::WaitingNumericComparisonResult(_held) => words::WAITING_NUMERIC_COMPARISON_RESULT,
        Phase::WaitingPassKeyInput(_held) => words::WAITING_PASS_KEY_INPUT,
        Phase::WaitingPassKeyEntryConfirm(_round) => words::WAITING_PASS_KEY_ENTRY_CONFIRM,
        Phase::WaitingPassKeyEntryRandom(_round) => words::WAITING_PASS_KEY_ENTRY_RANDOM,
        Phase::WaitingOobData => words::WAITING_OOB_DATA,
        Phase::WaitingOobRandom => words::WAITING_OOB_RANDOM,
        Phase::WaitingDHKeyEa => words::WAITING_DH_KEY_EA,
        Phase::WaitingLinkEncrypted => words::WAITING_LINK_ENCRYPTED,
        Phase::WaitingIdentitityInformation => words::WAITING_IDENTITITY_INFORMATION,
        Phase::WaitingIdentitityAddressInformation => words::WAITING_IDENTITITY_ADDRESS_INFORMATION,
        Phase::Success => words::SUCCESS,
        Phase::Error(_failure) => words::ERROR,
    }
}

// Nothing for no event.
pub fn event_word(told: Option<ConnectionEvent>) -> [u8; 36]
    ensures { result ≡ padded (event_name told) }
{
    match told {
        None => words::NO_EVENT,
        Some(ConnectionEvent::BondLost) => words::BOND_LOST,
        Some(ConnectionEvent::OobRequest) => words::OOB_REQUEST,
        Some(ConnectionEvent::PassKeyDisplay(_passkey)) => words::PASS_KEY_DISPLAY,
        Some(ConnectionEvent::PassKeyInput) => words::PASS_KEY_INPUT,
        Some(ConnectionEvent::PassKeyConfirm(_shown)) => words::PASS_KEY_CONFIRM,
        Some(ConnectionEvent::PairingComplete(_level, _reported)) => words::PAIRING_COMPLETE,
        Some(ConnectionEvent::PairingFailed(_failure)) => words::PAIRING_FAILED,
    }
}

// A dash for no question.
pub fn question_word(kind: Option<QuestionKind>) -> [u8; 36]
    ensures { result ≡ padded (question_name kind) }
{
    match kind {
        None => words::NO_QUESTION,
        Some(QuestionKind::DH) => words::DH,
        Some(QuestionKind::OwnConfirm) => words::F4_OWN,
        Some(QuestionKind::PeerConfirm) => words::F4_PEER,
        Some(QuestionKind::G2) => words::G2,
        Some(QuestionKind::F5) => words::F5,
        Some(QuestionKind::PeerCheck) => words::F6_PEER,
        Some(QuestionKind::OwnCheck) => words::F6_OWN,
    }
}

// The word of an event as a text, without spaces.
pub fn event(told: ConnectionEvent) -> &'static str
    ensures { result.now ≡ octets (event_name (Some told)) }
{
    match told {
        ConnectionEvent::BondLost => "BondLost",
        ConnectionEvent::OobRequest => "OobRequest",
        ConnectionEvent::PassKeyDisplay(_passkey) => "PassKeyDisplay",
        ConnectionEvent::PassKeyInput => "PassKeyInput",
        ConnectionEvent::PassKeyConfirm(_shown) => "PassKeyConfirm",
        ConnectionEvent::PairingComplete(_level, _reported) => "PairingComplete",
        ConnectionEvent::PairingFailed(_failure) => "PairingFailed",
    }
}

// The word of a question's kind as a text, without spaces.
pub fn question(asked: Question) -> &'static str
    ensures { result.now ≡ octets (question_name (Some (kind_of asked))) }
{
    match asked {
        Question::DH { .. } => "DH",
        Question::OwnConfirm(_) => "f4own",
        Question::PeerConfirm(_) => "f4peer",
        Question::G2 { .. } => "g2",
        Question::F5 { .. } => "f5",
        Question::PeerCheck(_) => "f6peer",
        Question::OwnCheck(_) => "f6own",
    }
}
