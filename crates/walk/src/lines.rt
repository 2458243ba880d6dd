// Whole lines behind their number, one for each kind of record, and why the walk stops.
use crate::parts::{Asked, Deed, Events, Frames, Said};
use crate::standing::{View, seen};
use crate::text::OrDash;
use protocol::{Action, Answer, Question};
use responder::{Responder, Stepped};
use std::fmt;
use wrapper::Begun;

// Why the walk stops.
#[derive(Clone, Copy, Debug, PartialEq, Eq)]
pub(crate) enum Fault {
    Incomplete,
    UnknownKind,
    NoSetup,
    Misfit,
}

impl fmt::Display for Fault {
    fn fmt<W: fmt::Write>(&self, f: &mut fmt::Formatter<W>) -> fmt::Result {
        f.write_str(match self {
            Fault::Incomplete => "1 incomplete",
            Fault::UnknownKind => "2 unknown-kind",
            Fault::NoSetup => "3 no-setup",
            Fault::Misfit => "5 misfit",
        })
    }
}

// What a record's line says. The frames are in the first `sent` octets of the outbox.
#[derive(Clone, Copy)]
pub(crate) struct Line {
    kind: &'static str,
    said: Option<Said>,
    outbox: [u8; 512],
    sent: usize,
    events: Events,
    action: Option<Action>,
    view: View,
    asked: Option<Question>,
}

impl Line {
    pub(crate) fn setup(begun: Begun, outbox: [u8; 512]) -> Line {
        let said = match begun.answer {
            Ok(()) => Said::Started,
            Err(refusal) => Said::Answer(Answer::Refused(refusal)),
        };
        Line {
            outbox,
            sent: begun.sent,
            ..Line::quiet("setup", Some(said), begun.responder)
        }
    }

    // The line of a command or an event.
    pub(crate) fn call(
        kind: &'static str,
        stepped: Stepped,
        outbox: [u8; 512],
        asked: Option<Question>,
    ) -> Line {
        Line {
            outbox,
            sent: stepped.sent,
            events: Events(stepped.first, stepped.second),
            action: stepped.action,
            asked,
            ..Line::quiet(kind, Some(Said::Answer(stepped.answer)), stepped.responder)
        }
    }

    // A line where nothing is given back.
    pub(crate) fn quiet(kind: &'static str, said: Option<Said>, responder: Responder) -> Line {
        Line {
            kind,
            said,
            outbox: [0; 512],
            sent: 0,
            events: Events(None, None),
            action: None,
            view: seen(responder),
            asked: None,
        }
    }
}

impl fmt::Display for Line {
    fn fmt<W: fmt::Write>(&self, f: &mut fmt::Formatter<W>) -> fmt::Result {
        let sent = Frames(&self.outbox[..self.sent.min(512)]);
        let said = OrDash(self.said);
        write!(f, "{} answer={said} frames={sent}", self.kind)?;
        write!(
            f,
            " events={} action={}",
            self.events,
            OrDash(self.action.map(Deed))
        )?;
        write!(f, " {} question={}", self.view, Asked(self.asked))
    }
}
