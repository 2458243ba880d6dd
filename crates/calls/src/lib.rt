// Calls as bytes: the records of docs/CALLS.md, read and written. A record is a header of four bytes and a payload. Headers and answers are
// here; setups stand in `setups`, commands and events in `inputs`, and are passed on from there. Nothing here runs the machine.
#![tactic(auto)]

ghost use Rattle.std.specs.Prelude.{◌≡◌, Some};
ghost use Rattle.octets.specs.Write.{Wrote};
ghost use Rattle.calls.specs.Header.{record_number, numbered_kind, header_octets, read_header};
ghost use Rattle.calls.specs.Answer.{answer_octets, read_answer};

pub use inputs::{Call, Came, EventCall, put_command, put_event, read_command, read_event};
use protocol::{Answer, Failure, Refusal};
pub use setups::{SetupCall, StartKind, UnknownStart, put_setup, read_setup};

#[derive(Clone, Copy, Debug, PartialEq, Eq)]
pub enum Kind {
    Setup,
    Command,
    Event,
    Timeout,
    Answer,
}

// A number that no kind of record has.
#[derive(Clone, Copy, Debug, PartialEq, Eq)]
pub struct UnknownKind(pub usize);

impl From<Kind> for u8 {
    ghost from_gives = { λ kind r. r ≡ record_number (Some kind) };

    fn from(kind: Kind) -> u8 {
        match kind {
            Kind::Setup => 1,
            Kind::Command => 2,
            Kind::Event => 3,
            Kind::Timeout => 4,
            Kind::Answer => 5,
        }
    }
}

impl TryFrom<usize> for Kind {
    type Error = UnknownKind;

    ghost try_from_gives = { λ number r. r ≡ numbered_kind number };

    fn try_from(number: usize) -> Result<Self, UnknownKind> {
        match number {
            1 => Ok(Kind::Setup),
            2 => Ok(Kind::Command),
            3 => Ok(Kind::Event),
            4 => Ok(Kind::Timeout),
            5 => Ok(Kind::Answer),
            _ => Err(UnknownKind(number)),
        }
    }
}

// No kind where the number is none's.
#[derive(Clone, Copy)]
pub struct Header {
    pub length: usize,
    pub kind: Option<Kind>,
}

// The header in four bytes. Another length has no payload and no kind.
#[tactic(auto, unfolding(crate::specs::Header::read_header))]
pub fn read_header(header: &[u8]) -> Header
    ensures { result ≡ read_header header.now }
{
    if header.len() != 4 {
        return Header {
            length: 0,
            kind: None,
        };
    }
    Header {
        length: fields::half(header, 0),
        kind: Kind::try_from(fields::half(header, 2)).ok(),
    }
}

// Writes a header and answers 4. Where out is too short, the length above 512 or there is no kind: nothing, and 0.
#[tactic(auto, using(fields::proofs::Parts::nothing, fields::proofs::Parts::wrote_as, crate::proofs::Headers::header_rows), unfolding(crate::specs::Header::header_octets))]
pub fn put_header(out: &mut [u8], header: Header) -> usize
    ensures { Wrote (header_octets header) out.old result out.new }
{
    if 512 < header.length {
        return 0;
    }
    let Some(kind) = header.kind else {
        return 0;
    };
    let low = fields::bytes2(header.length);
    octets::put(out, &[low[0], low[1], u8::from(kind), 0])
}

// The answer in a payload, none where the payload doesn't fit. `Taken` is the answer of a start that began too.
#[tactic(auto, unfolding(crate::specs::Answer::read_answer, crate::specs::Answer::failed_of, crate::specs::Answer::refused_of))]
pub fn read_answer(payload: &[u8]) -> Option<Answer>
    ensures { result ≡ read_answer payload.now }
{
    match payload {
        [0, 0] => Some(Answer::Taken),
        [1, number] => Some(Answer::Failed(Failure::try_from(*number).ok()?)),
        [2, number] => Some(Answer::Refused(Refusal::try_from(*number).ok()?)),
        _ => None,
    }
}

// Writes an answer's payload and answers 2. Where out is too short: nothing, and 0.
pub fn put_answer(out: &mut [u8], answer: Answer) -> usize
    ensures { Wrote (answer_octets answer) out.old result out.new }
{
    octets::put(out, &answer_bytes(answer))
}

fn answer_bytes(answer: Answer) -> [u8; 2]
    ensures { result ≡ answer_octets answer }
{
    match answer {
        Answer::Taken => [0, 0],
        Answer::Failed(failure) => [1, u8::from(failure)],
        Answer::Refused(refusal) => [2, u8::from(refusal)],
    }
}
