// The query: for a state, an input, the drawn values and the answers so far, the next question to the cryptography outside, with all
// its arguments, or none. It changes nothing and takes no outbox.
#![tactic(auto)]

ghost use Rattle.std.specs.Prelude.{ℕ, ◌≡◌, List, [], ◌∷◌, true, cond, Some, None};
ghost use Rattle.protocol.specs.declared.Failure.TheVariants as F;
ghost use Rattle.protocol.specs.declared.Question.TheVariants as Q;
ghost use Rattle.protocol.specs.Plan.{needs};
ghost use Rattle.protocol.specs.Parts.{ask_f4};
ghost use Rattle.protocol.specs.Exchanged.{fresh};
ghost use Rattle.protocol.specs.Role.{command, event, questions};
ghost use Rattle.protocol.specs.Next.{next_of, Queried};
ghost use Rattle.machine.specs.Exchange.{comparing, begins, on_key};
ghost use Rattle.machine.specs.Dhkey.{ask_keys, ask_peer_check, ask_own_check, checking, on_check};
ghost use Rattle.machine.specs.Numeric.{numbering, on_comparison_random, on_comparison};
ghost use Rattle.machine.specs.Passkey.{confirming, testing, on_confirm, on_random, on_typing};
ghost use Rattle.machine.specs.Oob.{receiving, on_oob_data};
ghost use Rattle.machine.specs.Responder.{responder, on_command, on_event};

use asking::unless;
use machine::{Phase, State};
use method::PairingMethod;
use protocol::{Check, Commitment, Event, Given, OobData, Question, Secrets, Supplied};

// The next question of a command.
pub fn of_command(state: State, cmd: &[u8], supplied: Supplied, given: Given) -> Option<Question>
    ensures { result ≡ next_of given (questions responder state (command cmd.now) supplied) }
{
    if states::finished(state) {
        return None;
    }
    if cmd.len() == 0 {
        return None;
    }
    let query = Query {
        state,
        supplied,
        given,
    };
    query.by_command(cmd[0], &cmd[1..])
}

// The next question of an event.
pub fn of_event(state: State, came: Event, supplied: Supplied, given: Given) -> Option<Question>
    ensures { result ≡ next_of given (questions responder state (event came) supplied) }
{
    if states::finished(state) {
        return None;
    }
    if states::in_range(came) {
        let query = Query {
            state,
            supplied,
            given,
        };
        return query.by_event(came);
    }
    None
}

// What a question goes by beside the input: the state, the drawn values with the answers so far, and which answers these are.
#[derive(Clone, Copy)]
struct Query {
    state: State,
    supplied: Supplied,
    given: Given,
}

impl Query {
    fn by_command(self, code: u8, payload: &[u8]) -> Option<Question>
        ensures { Queried self.given self.supplied (on_command self.state.phase self.state code payload.now) result }
    {
        match self.state.phase {
            Phase::WaitingPublicKey => self.key(code, payload),
            Phase::WaitingNumericComparisonRandom => self.comparison(code, payload),
            Phase::WaitingPassKeyEntryConfirm(round) => self.confirm(round, code, payload),
            Phase::WaitingPassKeyEntryRandom(round) => self.random(round, code, payload),
            Phase::WaitingDHKeyEa => self.check(code, payload),
            _ => None,
        }
    }

    fn by_event(self, came: Event) -> Option<Question>
        ensures { Queried self.given self.supplied (on_event self.state.phase self.state came) result }
    {
        match self.state.phase {
            Phase::WaitingNumericComparisonResult(held) => self.compared(held, came),
            Phase::WaitingPassKeyInput(held) => self.typed(held, came),
            Phase::WaitingOobData => self.received(came),
            _ => None,
        }
    }

    // WaitingPublicKey: the DHKey, and after a valid key our confirm.
    fn key(self, code: u8, payload: &[u8]) -> Option<Question>
        ensures { Queried self.given self.supplied (on_key self.state code payload.now) result }
    {
        payloads::public_key(code, payload).ok()?;
        let x = payloads::peer_x(payload);
        if self.given.dh {
            return self.first_move(x);
        }
        let y = payloads::peer_y(payload);
        Some(Question::DH { x, y })
    }

    // After a valid key: our confirm, where the method begins with one.
    fn first_move(self, x: [u8; 32]) -> Option<Question>
        ensures { Queried self.given self.supplied (needs self.supplied.dhvalid F.DHKeyCheckFailed (begins self.state.method self.state (fresh x self.supplied.dhkey))) result }
    {
        if !self.supplied.dhvalid {
            return None;
        }
        match self.state.method {
            PairingMethod::JustWorks | PairingMethod::NumericComparison => self.comparing(x),
            _ => None,
        }
    }

    fn comparing(self, x: [u8; 32]) -> Option<Question>
        ensures { Queried self.given self.supplied (comparing self.state (fresh x self.supplied.dhkey)) result }
    {
        self.own_confirm(x, 0)
    }

    // Our confirm over the drawn nonce.
    fn own_confirm(self, theirs: [u8; 32], z: u8) -> Option<Question>
        ensures { result ≡ cond self.given.ownconfirm None (Some (ask_f4 Q.OwnConfirm self.state.setup.keyx theirs self.supplied.nonce z)) }
    {
        let ours = self.state.setup.keyx;
        let nonce = self.supplied.nonce;
        let confirm = Commitment {
            u: ours,
            v: theirs,
            x: nonce,
            z,
        };
        unless(self.given, Question::OwnConfirm(confirm))
    }

    // WaitingNumericComparisonRandom: the number to compare, which Just Works has none of.
    fn comparison(self, code: u8, payload: &[u8]) -> Option<Question>
        ensures { Queried self.given self.supplied (on_comparison_random self.state code payload.now) result }
    {
        let nonce = payloads::random(code, payload).ok()?;
        match self.state.method {
            PairingMethod::JustWorks => None,
            _ => self.number(nonce),
        }
    }

    fn number(self, nonce: [u8; 16]) -> Option<Question>
        ensures { Queried self.given self.supplied (numbering self.state nonce) result }
    {
        let own_x = self.state.setup.keyx;
        let peer_x = self.state.secrets.peerx;
        let own_nonce = self.state.secrets.ownnonce;
        let number = Question::G2 {
            u: peer_x,
            v: own_x,
            x: nonce,
            y: own_nonce,
        };
        unless(self.given, number)
    }

    // WaitingPassKeyEntryConfirm: our confirm of the round.
    fn confirm(self, round: u8, code: u8, payload: &[u8]) -> Option<Question>
        ensures { Queried self.given self.supplied (on_confirm self.state round code payload.now) result }
    {
        payloads::confirm(code, payload).ok()?;
        self.round_confirm(self.state.secrets, round)
    }

    // Our confirm of a round, whatever the peer's is.
    fn round_confirm(self, secrets: Secrets, round: u8) -> Option<Question>
        ensures { (value : List ℕ) → Queried self.given self.supplied (confirming self.state secrets round value) result }
    {
        self.own_confirm(secrets.peerx, rounds::z(secrets.passkey, round))
    }

    // WaitingPassKeyEntryRandom: the peer's confirm of the round.
    fn random(self, round: u8, code: u8, payload: &[u8]) -> Option<Question>
        ensures { Queried self.given self.supplied (on_random self.state round code payload.now) result }
    {
        let nonce = payloads::random(code, payload).ok()?;
        self.peer_confirm(round, nonce)
    }

    fn peer_confirm(self, round: u8, nonce: [u8; 16]) -> Option<Question>
        ensures { Queried self.given self.supplied (testing self.state round nonce) result }
    {
        let own_x = self.state.setup.keyx;
        let peer_x = self.state.secrets.peerx;
        let expected = Commitment {
            u: peer_x,
            v: own_x,
            x: nonce,
            z: rounds::z(self.state.secrets.passkey, round),
        };
        unless(self.given, Question::PeerConfirm(expected))
    }

    // WaitingDHKeyEa: a check of a wrong length asks as much as a wrong check.
    fn check(self, code: u8, payload: &[u8]) -> Option<Question>
        ensures { Queried self.given self.supplied (on_check self.state code payload.now) result }
    {
        if code != frames::DHKEY_CHECK {
            return None;
        }
        if payloads::is_value(payload) {
            return self.check_value(octets::reversed(payload));
        }
        self.peer_check()
    }

    // f5, then the peer's check, then ours where the peer's is right.
    fn check_value(self, value: [u8; 16]) -> Option<Question>
        ensures { Queried self.given self.supplied (checking self.state true value) result }
    {
        match self.peer_check() {
            Some(question) => Some(question),
            None => {
                if octets::equal(&value, &self.supplied.peercheck) {
                    return unless(self.given, self.ask_own_check());
                }
                None
            }
        }
    }

    // f5, then the peer's check.
    fn peer_check(self) -> Option<Question>
        ensures { result ≡ next_of self.given (ask_keys self.state ∷ ask_peer_check self.state self.supplied.mackey ∷ []) }
    {
        if self.given.f5 {
            return unless(self.given, self.ask_peer_check());
        }
        Some(self.ask_keys())
    }

    // WaitingNumericComparisonResult: a held check is handled on the user's yes.
    fn compared(self, held: Option<[u8; 16]>, came: Event) -> Option<Question>
        ensures { Queried self.given self.supplied (on_comparison self.state held came) result }
    {
        match came {
            Event::PassKeyConfirm => self.check_value(held?),
            _ => None,
        }
    }

    // WaitingPassKeyInput: a held confirm is handled as round 0's.
    fn typed(self, held: Option<[u8; 16]>, came: Event) -> Option<Question>
        ensures { Queried self.given self.supplied (on_typing self.state held came) result }
    {
        match came {
            Event::PassKeyInput(passkey) => {
                held?;
                let keyed = states::with_passkey(self.state.secrets, passkey);
                self.round_confirm(keyed, 0)
            }
            _ => None,
        }
    }

    // WaitingOobData: the peer's confirm, where the peer's data is there.
    fn received(self, came: Event) -> Option<Question>
        ensures { Queried self.given self.supplied (on_oob_data self.state came) result }
    {
        match came {
            Event::OobDataReceived(values) => self.peer_data(values),
            _ => None,
        }
    }

    fn peer_data(self, values: OobData) -> Option<Question>
        ensures { Queried self.given self.supplied (receiving self.state values) result }
    {
        if oob::absent(values) {
            return None;
        }
        let peer_x = self.state.secrets.peerx;
        let random = values.peerrandom;
        let confirm = Commitment {
            u: peer_x,
            v: peer_x,
            x: random,
            z: 0,
        };
        unless(self.given, Question::PeerConfirm(confirm))
    }

    fn ask_keys(self) -> Question
        ensures { result ≡ ask_keys self.state }
    {
        let dhkey = self.state.secrets.dhkey;
        let theirs = self.state.secrets.peernonce;
        let ours = self.state.secrets.ownnonce;
        Question::F5 {
            w: dhkey,
            n1: theirs,
            n2: ours,
            a1: self.state.setup.peer,
            a2: self.state.setup.own,
        }
    }

    fn ask_peer_check(self) -> Question
        ensures { result ≡ ask_peer_check self.state self.supplied.mackey }
    {
        let key = self.supplied.mackey;
        let peer_nonce = self.state.secrets.peernonce;
        let own_nonce = self.state.secrets.ownnonce;
        let own_secret = self.state.secrets.ownsecret;
        Question::PeerCheck(Check {
            w: key,
            n1: peer_nonce,
            n2: own_nonce,
            r: own_secret,
            iocap: self.state.features.io_cap(),
            a1: self.state.setup.peer,
            a2: self.state.setup.own,
        })
    }

    fn ask_own_check(self) -> Question
        ensures { result ≡ ask_own_check self.state self.supplied.mackey }
    {
        let key = self.supplied.mackey;
        let peer_nonce = self.state.secrets.peernonce;
        let own_nonce = self.state.secrets.ownnonce;
        let peer_secret = self.state.secrets.peersecret;
        let ours = request::own_features(self.state.setup, self.state.features);
        Question::OwnCheck(Check {
            w: key,
            n1: own_nonce,
            n2: peer_nonce,
            r: peer_secret,
            iocap: ours.io_cap(),
            a1: self.state.setup.own,
            a2: self.state.setup.peer,
        })
    }
}
