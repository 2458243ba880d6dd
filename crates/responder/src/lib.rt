// The Secure Connections responder. Its state goes by value: each method takes it with one input and hands back the state after it,
// with what stands in the outbox, the user's events, the action and the answer.
#![tactic(auto)]

ghost use Rattle.std.specs.Prelude.{◌≡◌, length};
ghost use Rattle.frames.specs.Packets.{channel};
ghost use Rattle.protocol.specs.Role.{command, event, step, questions, timed_out};
ghost use Rattle.protocol.specs.Next.{next_of};
ghost use Rattle.protocol.specs.Met.{Met};
ghost use Rattle.machine.specs.Responder.{responder};
ghost use Rattle.responder.specs.Calls.{command_call, event_call, responder_of, stepped_of, handed_of};

use machine::{Phase, State, Step};
use protocol::{Action, Answer, ConnectionEvent, Event, Failure, Given, Question, Supplied};

#[derive(Clone, Copy)]
pub struct Responder {
    pub state: State,
}

// A step with the responder after it in place of its progress: `Met stepped_of` speaks of this record, `Follows` of the other.
#[derive(Clone, Copy)]
pub struct Stepped {
    pub responder: Responder,
    pub sent: usize,
    pub first: Option<ConnectionEvent>,
    pub second: Option<ConnectionEvent>,
    pub action: Option<Action>,
    pub answer: Answer,
}

impl Responder {
    // A command from the peer: its code, and its payload after it.
    pub fn command(self, cmd: &[u8], supplied: Supplied, out: &mut [u8]) -> Stepped
        ensures { Met stepped_of channel (step responder self.state (command_call cmd.now supplied (length out.old))) result out.old out.new }
    {
        handed_back(self, front::on_command(self.state, cmd, supplied, out))
    }

    // An event from the user or the link.
    pub fn event(self, came: Event, supplied: Supplied, out: &mut [u8]) -> Stepped
        ensures { Met stepped_of channel (step responder self.state (event_call came supplied (length out.old))) result out.old out.new }
    {
        handed_back(self, front::on_event(self.state, came, supplied, out))
    }

    // The next question that a command asks, given the answers so far; none where it has all.
    pub fn command_question(self, cmd: &[u8], supplied: Supplied, given: Given) -> Option<Question>
        ensures { result ≡ next_of given (questions responder self.state (command cmd.now) supplied) }
    {
        questions::of_command(self.state, cmd, supplied, given)
    }

    // The next question that an event asks, given the answers so far; none where it has all.
    pub fn event_question(self, came: Event, supplied: Supplied, given: Given) -> Option<Question>
        ensures { result ≡ next_of given (questions responder self.state (event came) supplied) }
    {
        questions::of_event(self.state, came, supplied, given)
    }

    // Thirty seconds passed with nothing taken: the pairing fails, unless it is finished. This is no input and raises no event.
    #[tactic(auto, unfolding(protocol::specs::Role::timed_out))]
    pub fn mark_timeout(self) -> Responder
        ensures { result ≡ responder_of (timed_out responder self.state) }
    {
        if states::finished(self.state) {
            return self;
        }
        Responder {
            state: State {
                phase: Phase::Error(Failure::Timeout),
                ..self.state
            },
        }
    }
}

// A step of a responder, with the setup, which no step changes.
fn handed_back(before: Responder, done: Step) -> Stepped
    ensures { result ≡ handed_of before.state.setup done }
{
    Stepped {
        responder: Responder {
            state: states::joined(before.state.setup, done.progress),
        },
        sent: done.sent,
        first: done.first,
        second: done.second,
        action: done.action,
        answer: done.answer,
    }
}
