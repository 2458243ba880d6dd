// The walk through the input: one record, one call, one line.
use crate::lines::{Fault, Line};
use crate::parts::Said;
use calls::{Kind, SetupCall, StartKind};
use protocol::Answer;
use responder::{Responder, Stepped};
use std::io;
use wrapper::Begun;

// Where a command begins in the payload of its record.
const COMMAND: usize = 156;

// Where the walk stands: which record is next and where it begins, and the latest call, once a setup was read.
#[derive(Clone, Copy)]
struct Walk {
    number: u64,
    offset: u64,
    latest: Option<Latest>,
}

// The machine behind a call, and the call's answer. A start that began counts as taken.
#[derive(Clone, Copy)]
struct Latest {
    responder: Responder,
    answer: Answer,
}

// What a record did: the length of its payload, the call and its line.
#[derive(Clone, Copy)]
struct Turn {
    size: usize,
    latest: Latest,
    line: Line,
}

// A proved loop has to end, and nothing says that the input does: so turns are counted up to a number that no run reaches.
pub(crate) fn replay(rt: &(impl Input + Print), payload: &mut [u8]) {
    let mut input = rt.reader();
    let mut walk = Walk {
        number: 1,
        offset: 0,
        latest: None,
    };
    for _ in 0..u64::MAX {
        let Some(next) = walk.next(rt, &mut input, payload) else {
            break;
        };
        walk = next;
    }
}

impl Walk {
    // The walk behind the next record, whose line is written. None where the walk ends: no record follows, the record can't be read, or
    // its line can't be written.
    fn next(self, rt: &impl Print, input: &mut impl io::Read, payload: &mut [u8]) -> Option<Walk> {
        match self.turn(input, payload) {
            Ok(turn) => {
                let Turn { size, latest, line } = turn?;
                println!(rt; "{} {line}", self.number).ok()?;
                Some(Walk {
                    number: self.number.wrapping_add(1),
                    offset: self.offset.wrapping_add(4).wrapping_add(size as u64),
                    latest: Some(latest),
                })
            }
            Err(fault) => {
                println!(rt; "{} stop {fault} at {}", self.number, self.offset).ok()?;
                None
            }
        }
    }

    // Reads a record and makes its call. None where the input ends before a record.
    fn turn(self, input: &mut impl io::Read, payload: &mut [u8]) -> Result<Option<Turn>, Fault> {
        let Some((kind, payload)) = record(input, payload)? else {
            return Ok(None);
        };
        let (latest, line) = self.call(kind, payload)?;
        Ok(Some(Turn {
            size: payload.len(),
            latest,
            line,
        }))
    }

    // A setup comes first.
    fn call(self, kind: Kind, payload: &[u8]) -> Result<(Latest, Line), Fault> {
        match (kind, self.latest) {
            (Kind::Setup, _) => setup(payload),
            (_, None) => Err(Fault::NoSetup),
            (Kind::Command, Some(latest)) => latest.command(payload),
            (Kind::Event, Some(latest)) => latest.event(payload),
            (Kind::Timeout, Some(latest)) => latest.timeout(payload),
            (Kind::Answer, Some(latest)) => latest.shown(payload),
        }
    }
}

// One record: its header, and then its payload, as long as the header says. Nothing of it is tested before it is read whole. None where
// the input ends before a header; a read that fails ends it.
fn record<'a>(
    input: &mut impl io::Read,
    payload: &'a mut [u8],
) -> Result<Option<(Kind, &'a [u8])>, Fault> {
    let mut header = [0u8; 4];
    let got = input.read(&mut header).unwrap_or(0);
    if got == 0 {
        return Ok(None);
    }
    whole(input, &mut header[got..])?;
    let head = calls::read_header(&header);
    let size = head.length.min(payload.len());
    whole(input, &mut payload[..size])?;
    let kind = head.kind.ok_or(Fault::UnknownKind)?;
    Ok(Some((kind, &payload[..size])))
}

// The rest of a record that has begun.
fn whole(input: &mut impl io::Read, octets: &mut [u8]) -> Result<(), Fault> {
    input.read_exact(octets).map_err(|_| Fault::Incomplete)
}

fn setup(payload: &[u8]) -> Result<(Latest, Line), Fault> {
    let call = calls::read_setup(payload).ok_or(Fault::Misfit)?;
    let mut outbox = [0u8; 512];
    let begun = begin(call, &mut outbox);
    let latest = Latest {
        responder: begun.responder,
        answer: match begun.answer {
            Ok(()) => Answer::Taken,
            Err(refusal) => Answer::Refused(refusal),
        },
    };
    Ok((latest, Line::setup(begun, outbox)))
}

// Begins a pairing. A plain start has no outbox.
fn begin(call: SetupCall, outbox: &mut [u8]) -> Begun {
    if call.start == StartKind::Plain {
        return wrapper::new_peripheral(call.setup());
    }
    let room = call.outbox.min(outbox.len());
    let by_user = call.start == StartKind::ByUser;
    wrapper::initiate_peripheral(call.setup(), by_user, &mut outbox[..room])
}

impl Latest {
    fn command(self, payload: &[u8]) -> Result<(Latest, Line), Fault> {
        let call = calls::read_command(payload).ok_or(Fault::Misfit)?;
        let cmd = &payload[COMMAND.min(payload.len())..];
        let mut outbox = [0u8; 512];
        let room = call.outbox.min(512);
        let asked = self
            .responder
            .command_question(cmd, call.supplied, call.given);
        let stepped = self
            .responder
            .command(cmd, call.supplied, &mut outbox[..room]);
        Ok(Latest::called(stepped, Line::call("command", stepped, outbox, asked)))
    }

    fn event(self, payload: &[u8]) -> Result<(Latest, Line), Fault> {
        let event = calls::read_event(payload).ok_or(Fault::Misfit)?;
        let call = event.call;
        let came = event.event();
        let mut outbox = [0u8; 512];
        let room = call.outbox.min(512);
        let asked = self
            .responder
            .event_question(came, call.supplied, call.given);
        let stepped = self
            .responder
            .event(came, call.supplied, &mut outbox[..room]);
        Ok(Latest::called(stepped, Line::call("event", stepped, outbox, asked)))
    }

    // Behind a command or an event.
    fn called(stepped: Stepped, line: Line) -> (Latest, Line) {
        let latest = Latest {
            responder: stepped.responder,
            answer: stepped.answer,
        };
        (latest, line)
    }

    fn timeout(self, payload: &[u8]) -> Result<(Latest, Line), Fault> {
        if !payload.is_empty() {
            return Err(Fault::Misfit);
        }
        let responder = self.responder.mark_timeout();
        let line = Line::quiet("timeout", None, responder);
        Ok((Latest { responder, ..self }, line))
    }

    // An answer that was seen is compared with the latest call's.
    fn shown(self, payload: &[u8]) -> Result<(Latest, Line), Fault> {
        let shown = calls::read_answer(payload).ok_or(Fault::Misfit)?;
        let said = Said::Seen(shown == self.answer);
        Ok((self, Line::quiet("answer", Some(said), self.responder)))
    }
}
