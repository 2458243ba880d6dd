// The parts of a line that say what a call gave back: answer, frames, events, action and question.
ghost use Rattle.std.specs.Prelude.{◌≡◌};
ghost use Rattle.walk.specs.Frames.{frame_end};

use crate::text::{Hex, OrDash};
use crate::word::Word;
use address::Address;
use method::SecurityLevel;
use protocol::{Action, Answer, Bond, Check, ConnectionEvent, Question};
use std::fmt;

// What stands behind `answer=`.
#[derive(Clone, Copy)]
pub(crate) enum Said {
    Started,
    Answer(Answer),
    // an answer that was seen, and whether it is the one that was given
    Seen(bool),
}

impl fmt::Display for Said {
    fn fmt<W: fmt::Write>(&self, f: &mut fmt::Formatter<W>) -> fmt::Result {
        match self {
            Said::Started => f.write_str("started"),
            Said::Answer(Answer::Taken) => f.write_str("taken"),
            Said::Answer(Answer::Failed(failure)) => write!(
                f,
                "failed{}",
                Word(names::failure(*failure))
            ),
            Said::Answer(Answer::Refused(refusal)) => write!(
                f,
                "{}",
                Word(names::refusal(*refusal))
            ),
            Said::Seen(same) => f.write_str(if *same { "same" } else { "differs" }),
        }
    }
}

// The frames among the octets sent, with a comma between two.
#[derive(Clone, Copy)]
pub(crate) struct Frames<'a>(pub(crate) &'a [u8]);

impl fmt::Display for Frames<'_> {
    fn fmt<W: fmt::Write>(&self, f: &mut fmt::Formatter<W>) -> fmt::Result {
        let mut rest = self.0;
        if rest.is_empty() {
            return f.write_str("-");
        }
        let mut between = "";
        while !rest.is_empty() {
            let (frame, behind) = rest.split_at(frame_end(rest));
            write!(f, "{between}{}", Hex(frame))?;
            between = ",";
            rest = behind;
        }
        Ok(())
    }
}

// Where the first frame ends: its header has four octets, the first two of which count what is behind it.
#[tactic(auto, unfolding(crate::specs::Frames::frame_end))]
fn frame_end(sent: &[u8]) -> usize
    ensures { result ≡ frame_end sent.now }
{
    let n = sent.len();
    if n < 4 {
        return n;
    }
    let behind = usize::from(sent[0]) + 256 * usize::from(sent[1]);
    n.min(4 + behind)
}

// The user's events in order: the first is BondLost, where there is one.
#[derive(Clone, Copy)]
pub(crate) struct Events(
    pub(crate) Option<ConnectionEvent>,
    pub(crate) Option<ConnectionEvent>,
);

impl fmt::Display for Events {
    fn fmt<W: fmt::Write>(&self, f: &mut fmt::Formatter<W>) -> fmt::Result {
        match (self.0, self.1) {
            (Some(first), Some(second)) => write!(f, "{},{}", Event(first), Event(second)),
            (first, second) => write!(f, "{}", OrDash(first.or(second).map(Event))),
        }
    }
}

#[derive(Clone, Copy)]
struct Event(ConnectionEvent);

impl fmt::Display for Event {
    fn fmt<W: fmt::Write>(&self, f: &mut fmt::Formatter<W>) -> fmt::Result {
        write!(f, "{}", Word(names::event_word(Some(self.0))))?;
        match self.0 {
            ConnectionEvent::PassKeyDisplay(passkey) => write!(f, ":{passkey}"),
            ConnectionEvent::PassKeyConfirm(shown) => write!(f, ":{shown}"),
            ConnectionEvent::PairingComplete(level, reported) => {
                let bond = if reported { "bond" } else { "-" };
                write!(f, ":{}:{bond}", Word(names::level(level)))
            }
            ConnectionEvent::PairingFailed(failure) => write!(
                f,
                "{}",
                Word(names::failure(failure))
            ),
            _ => Ok(()),
        }
    }
}

#[derive(Clone, Copy)]
pub(crate) struct Deed(pub(crate) Action);

impl fmt::Display for Deed {
    fn fmt<W: fmt::Write>(&self, f: &mut fmt::Formatter<W>) -> fmt::Result {
        match self.0 {
            Action::EnableEncryption(bond) => write!(f, "EnableEncryption:{}", Key(bond)),
            Action::StoreBond(bond) => write!(f, "StoreBond:{}", Held(bond)),
        }
    }
}

// A bond's link key and level.
#[derive(Clone, Copy)]
struct Key(Bond);

impl fmt::Display for Key {
    fn fmt<W: fmt::Write>(&self, f: &mut fmt::Formatter<W>) -> fmt::Result {
        write!(
            f,
            "{}:{}",
            Hex(&self.0.ltk),
            Word(names::level(self.0.level))
        )
    }
}

// A bond whole.
#[derive(Clone, Copy)]
pub(crate) struct Held(pub(crate) Bond);

impl fmt::Display for Held {
    fn fmt<W: fmt::Write>(&self, f: &mut fmt::Formatter<W>) -> fmt::Result {
        write!(
            f,
            "{}:{}:{}",
            Key(self.0),
            At(self.0.address),
            Hex(&self.0.irk)
        )
    }
}

#[derive(Clone, Copy)]
pub(crate) struct At(pub(crate) Address);

impl fmt::Display for At {
    fn fmt<W: fmt::Write>(&self, f: &mut fmt::Formatter<W>) -> fmt::Result {
        write!(
            f,
            "{}{}",
            Hex(&[u8::from(self.0.kind)]),
            Hex(&self.0.octets)
        )
    }
}

// A question with its arguments, or that there is none.
#[derive(Clone, Copy)]
pub(crate) struct Asked(pub(crate) Option<Question>);

impl fmt::Display for Asked {
    fn fmt<W: fmt::Write>(&self, f: &mut fmt::Formatter<W>) -> fmt::Result {
        write!(
            f,
            "{}",
            Word(names::question_word(self.0.map(asking::kind)))
        )?;
        let Some(question) = &self.0 else {
            return Ok(());
        };
        match question {
            Question::DH { x, y } => write!(f, ":{}:{}", Hex(x), Hex(y)),
            Question::OwnConfirm(of) | Question::PeerConfirm(of) => write!(
                f,
                ":{}:{}:{}:{}",
                Hex(&of.u),
                Hex(&of.v),
                Hex(&of.x),
                Hex(&[of.z])
            ),
            Question::G2 { u, v, x, y } => write!(
                f,
                ":{}:{}:{}:{}",
                Hex(u),
                Hex(v),
                Hex(x),
                Hex(y)
            ),
            Question::F5 { w, n1, n2, a1, a2 } => write!(
                f,
                ":{}:{}:{}:{}:{}",
                Hex(w),
                Hex(n1),
                Hex(n2),
                At(*a1),
                At(*a2)
            ),
            Question::PeerCheck(of) | Question::OwnCheck(of) => write!(f, "{}", CheckValue(*of)),
        }
    }
}

// f6's arguments.
#[derive(Clone, Copy)]
struct CheckValue(Check);

impl fmt::Display for CheckValue {
    fn fmt<W: fmt::Write>(&self, f: &mut fmt::Formatter<W>) -> fmt::Result {
        write!(
            f,
            ":{}:{}:{}:{}:{}:{}:{}",
            Hex(&self.0.w),
            Hex(&self.0.n1),
            Hex(&self.0.n2),
            Hex(&self.0.r),
            Hex(&self.0.iocap),
            At(self.0.a1),
            At(self.0.a2)
        )
    }
}
