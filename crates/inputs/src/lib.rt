// Commands and events as bytes: the payloads of docs/CALLS.md, kinds 2 and 3, read and written. Both begin with the outbox's length and the
// supplied values. Reading gives none where a payload doesn't fit its kind; writing refuses what no payload can carry.
#![tactic(auto)]

ghost use Rattle.std.specs.Prelude.{◌≡◌, ◌∷◌, ◌++◌, ◌≤◌, length, take, drop};
ghost use Rattle.octets.specs.Write.{Wrote};
ghost use Rattle.fields.specs.Fields.{little, join, Placed};
ghost use Rattle.inputs.specs.Input.{
  given_number,
  given_of,
  call_rows,
  supplied_at,
  call_at,
  call_fits,
  command_octets,
  command_fits,
  read_command,
  event_number,
  event_value,
  event_of,
  number_fits,
  event_rows,
  event_in,
  came_of,
  no_values,
  values_of,
  event_call_of,
  event_octets,
  event_call,
  event_fits,
  read_event,
};

use protocol::{Event, Given, OobData, Supplied};

// Which event came. Its out-of-band values stand beside it: a payload has them whatever came, and written again it has the same.
#[derive(Clone, Copy, Debug, PartialEq, Eq)]
pub enum Came {
    LinkEncryptedResult(bool),
    PassKeyConfirm,
    PassKeyCancel,
    PassKeyInput(u32),
    OobDataReceived,
}

// What commands and events have in common: the outbox's length, which answers are given, and the supplied values.
#[derive(Clone, Copy)]
pub struct Call {
    pub outbox: usize,
    pub given: Given,
    pub supplied: Supplied,
}

// What an event's payload says.
#[derive(Clone, Copy)]
pub struct EventCall {
    pub call: Call,
    pub came: Came,
    pub values: OobData,
}

impl EventCall {
    // The call of an event. Where it has no out-of-band values, zeros stand in the payload.
    pub fn from_event(call: Call, event: Event) -> EventCall
        ensures { result ≡ event_call_of call event }
    {
        EventCall {
            call,
            came: came_of(event),
            values: values_of(event),
        }
    }

    // The event, which holds the values where it is theirs.
    pub fn event(self) -> Event
        ensures { result ≡ event_in self.came self.values }
    {
        match self.came {
            Came::LinkEncryptedResult(encrypted) => Event::LinkEncryptedResult(encrypted),
            Came::PassKeyConfirm => Event::PassKeyConfirm,
            Came::PassKeyCancel => Event::PassKeyCancel,
            Came::PassKeyInput(passkey) => Event::PassKeyInput(passkey),
            Came::OobDataReceived => Event::OobDataReceived(self.values),
        }
    }
}

fn came_of(event: Event) -> Came
    ensures { result ≡ came_of event }
{
    match event {
        Event::LinkEncryptedResult(encrypted) => Came::LinkEncryptedResult(encrypted),
        Event::PassKeyConfirm => Came::PassKeyConfirm,
        Event::PassKeyCancel => Came::PassKeyCancel,
        Event::PassKeyInput(passkey) => Came::PassKeyInput(passkey),
        Event::OobDataReceived(_values) => Came::OobDataReceived,
    }
}

fn values_of(event: Event) -> OobData
    ensures { result ≡ values_of event }
{
    match event {
        Event::OobDataReceived(values) => values,
        Event::LinkEncryptedResult(_)
        | Event::PassKeyConfirm
        | Event::PassKeyCancel
        | Event::PassKeyInput(_) => no_values(),
    }
}

// What stands in a payload where an event has no out-of-band values.
#[tactic(auto, unfolding(octets::specs::Octets::zeros))]
fn no_values() -> OobData
    ensures { result ≡ no_values }
{
    OobData {
        ownrandom: [0; 16],
        peerrandom: [0; 16],
        peerconfirm: [0; 16],
    }
}

// What comes before the command in a command's payload, none where the payload doesn't fit; the command is what stands from offset 156 on.
#[tactic(auto, unfolding(crate::specs::Input::read_command))]
pub fn read_command(payload: &[u8]) -> Option<Call>
    ensures { result ≡ read_command payload.now }
{
    if command_fits(payload) {
        return Some(call_of(payload));
    }
    None
}

// Writes a command's payload and answers its length. Where out is too short, the outbox's length above 512 or the command above 356
// bytes: nothing, and 0.
pub fn put_command(out: &mut [u8], call: Call, cmd: &[u8]) -> usize
    ensures { Wrote (command_octets call cmd.now) out.old result out.new }
{
    let n = cmd.len();
    if 512 < call.outbox {
        return 0;
    }
    if 356 < n {
        return 0;
    }
    let head = call_octets(call);
    if out.len() < 156 + n {
        return 0;
    }
    octets::put(out, &head);
    octets::put(&mut out[156..], cmd);
    156 + n
}

// The event in a payload; none where the payload doesn't fit.
#[tactic(auto, unfolding(crate::specs::Input::read_event))]
pub fn read_event(payload: &[u8]) -> Option<EventCall>
    ensures { result ≡ read_event payload.now }
{
    if event_fits(payload) {
        return Some(event_call(payload));
    }
    None
}

// Writes an event's payload and answers 209. Where out is too short or the outbox's length above 512: nothing, and 0.
pub fn put_event(out: &mut [u8], call: EventCall) -> usize
    ensures { Wrote (event_octets call) out.old result out.new }
{
    if 512 < call.call.outbox {
        return 0;
    }
    let mut payload = [0u8; 209];
    place_event(&mut payload, call);
    octets::put(out, &payload)
}

// Whether a command's length and ranges are right.
#[tactic(auto, unfolding(crate::specs::Input::command_fits))]
fn command_fits(p: &[u8]) -> bool
    ensures { result ≡ command_fits p.now }
{
    p.len() <= 512 && call_fits(p)
}

// Whether an event's length and ranges are right.
#[tactic(auto, unfolding(crate::specs::Input::event_fits))]
fn event_fits(p: &[u8]) -> bool
    ensures { result ≡ event_fits p.now }
{
    p.len() == 209 && call_fits(p) && number_fits(fields::byte(p, 156), fields::word(p, 157))
}

// Whether the first 156 bytes are there and in range.
#[tactic(auto, unfolding(fields::specs::Fields::every, crate::specs::Input::call_fits))]
fn call_fits(p: &[u8]) -> bool
    ensures { result ≡ call_fits p.now }
{
    156 <= p.len()
        && fields::half(p, 0) <= 512
        && fields::within(p, 2, 127)
        && fields::within(p, 23, 1)
}

// What the first 156 bytes say.
#[tactic(auto, unfolding(crate::specs::Input::call_at))]
fn call_of(p: &[u8]) -> Call
    ensures { result ≡ call_at p.now }
{
    Call {
        outbox: fields::half(p, 0),
        given: given_of(fields::byte(p, 2)),
        supplied: supplied_of(p),
    }
}

// Which answers are given, a bit each.
fn given_of(bits: u8) -> Given
    ensures { result ≡ given_of bits }
{
    Given {
        dh: bits % 2 == 1,
        ownconfirm: bits / 2 % 2 == 1,
        peerconfirm: bits / 4 % 2 == 1,
        g2: bits / 8 % 2 == 1,
        f5: bits / 16 % 2 == 1,
        peercheck: bits / 32 % 2 == 1,
        owncheck: bits / 64 % 2 == 1,
    }
}

fn supplied_of(p: &[u8]) -> Supplied
    ensures { result ≡ supplied_at p.now }
{
    Supplied {
        nonce: fields::array(p, 3),
        passkey: fields::word(p, 19),
        dhvalid: fields::byte(p, 23) == 1,
        dhkey: fields::array(p, 24),
        ownconfirm: fields::array(p, 56),
        peerconfirm: fields::array(p, 72),
        g2: fields::word(p, 88),
        mackey: fields::array(p, 92),
        ltk: fields::array(p, 108),
        peercheck: fields::array(p, 124),
        owncheck: fields::array(p, 140),
    }
}

#[tactic(auto, unfolding(crate::specs::Input::event_call))]
fn event_call(p: &[u8]) -> EventCall
    ensures { result ≡ event_call p.now }
{
    EventCall {
        call: call_of(p),
        came: event_of(fields::byte(p, 156), fields::word(p, 157)),
        values: OobData {
            ownrandom: fields::array(p, 161),
            peerrandom: fields::array(p, 177),
            peerconfirm: fields::array(p, 193),
        },
    }
}

// The outbox's length and the supplied values: the first 156 bytes.
fn call_octets(call: Call) -> [u8; 156]
    ensures { result ≡ join (call_rows call) }
{
    let mut octets = [0u8; 156];
    place_call(&mut octets, call);
    octets
}

fn place_call(out: &mut [u8; 156], call: Call)
    ensures { Placed 156 0 (join (call_rows call)) out.old out.new }
{
    place_drawn(out, call);
    fields::place_array(out, 24, &call.supplied.dhkey);
    fields::place_array(out, 56, &call.supplied.ownconfirm);
    fields::place_array(out, 72, &call.supplied.peerconfirm);
    fields::place_array(out, 88, &fields::bytes4(call.supplied.g2));
    place_checks(out, call);
}

// What comes before the DH key.
fn place_drawn(out: &mut [u8; 156], call: Call)
    ensures { Placed 24 0 (join (take 5 (call_rows call))) out.old out.new }
{
    fields::place_array(out, 0, &fields::bytes2(call.outbox));
    fields::place_array(out, 2, &[given_number(call.given)]);
    fields::place_array(out, 3, &call.supplied.nonce);
    fields::place_array(out, 19, &fields::bytes4(call.supplied.passkey));
    fields::place_array(out, 23, &[u8::from(call.supplied.dhvalid)]);
}

// The answers of f5 and f6.
fn place_checks(out: &mut [u8; 156], call: Call)
    ensures { Placed 64 92 (join (drop 9 (call_rows call))) out.old out.new }
{
    fields::place_array(out, 92, &call.supplied.mackey);
    fields::place_array(out, 108, &call.supplied.ltk);
    fields::place_array(out, 124, &call.supplied.peercheck);
    fields::place_array(out, 140, &call.supplied.owncheck);
}

// All 209 bytes.
fn place_event(out: &mut [u8; 209], call: EventCall)
    ensures { Placed 209 0 (join (call_rows call.call) ++ join (event_rows call)) out.old out.new }
{
    fields::place_array(out, 0, &call_octets(call.call));
    fields::place_array(out, 156, &event_head(call.came));
    fields::place_array(out, 161, &call.values.ownrandom);
    fields::place_array(out, 177, &call.values.peerrandom);
    fields::place_array(out, 193, &call.values.peerconfirm);
}

fn given_number(given: Given) -> u8
    ensures { result ≡ given_number given }
{
    u8::from(given.dh)
        + 2 * u8::from(given.ownconfirm)
        + 4 * u8::from(given.peerconfirm)
        + 8 * u8::from(given.g2)
        + 16 * u8::from(given.f5)
        + 32 * u8::from(given.peercheck)
        + 64 * u8::from(given.owncheck)
}

// The event's byte and its number.
fn event_head(came: Came) -> [u8; 5]
    ensures { result ≡ event_number came ∷ little 4 (event_value came) }
{
    let digits = fields::bytes4(event_value(came));
    [
        event_number(came),
        digits[0],
        digits[1],
        digits[2],
        digits[3],
    ]
}

fn event_number(came: Came) -> u8
    ensures { result ≡ event_number came }
{
    match came {
        Came::LinkEncryptedResult(_encrypted) => 1,
        Came::PassKeyConfirm => 2,
        Came::PassKeyCancel => 3,
        Came::PassKeyInput(_passkey) => 4,
        Came::OobDataReceived => 5,
    }
}

fn event_value(came: Came) -> u32
    ensures { result ≡ event_value came }
{
    match came {
        Came::LinkEncryptedResult(encrypted) => u32::from(encrypted),
        Came::PassKeyInput(passkey) => passkey,
        Came::PassKeyConfirm | Came::PassKeyCancel | Came::OobDataReceived => 0,
    }
}

fn event_of(number: u8, value: u32) -> Came
    ensures { result ≡ event_of number value }
{
    match number {
        1 => Came::LinkEncryptedResult(value == 1),
        2 => Came::PassKeyConfirm,
        3 => Came::PassKeyCancel,
        4 => Came::PassKeyInput(value),
        _ => Came::OobDataReceived,
    }
}

// Whether an event with this number exists and the value is in its range.
fn number_fits(number: u8, value: u32) -> bool
    ensures { result ≡ number_fits number value }
{
    match number {
        1 => value <= 1,
        2 | 3 | 5 => value == 0,
        4 => true,
        _ => false,
    }
}
