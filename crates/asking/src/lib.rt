// What every role asks by: a question to the cryptography outside is asked unless it has its answer.
#![tactic(auto)]

ghost use Rattle.std.specs.Prelude.{◌≡◌, cond, Some, None};
ghost use Rattle.protocol.specs.Plan.{kind_of};
ghost use Rattle.protocol.specs.Next.{known};

use protocol::{Given, Question, QuestionKind};

// A question, unless it has its answer.
pub fn unless(given: Given, question: Question) -> Option<Question>
    ensures { result ≡ cond (known given (kind_of question)) None (Some question) }
{
    if known(given, question) {
        None
    } else {
        Some(question)
    }
}

// A question without its arguments.
pub fn kind(asked: Question) -> QuestionKind
    ensures { result ≡ kind_of asked }
{
    match asked {
        Question::DH { .. } => QuestionKind::DH,
        Question::OwnConfirm(_) => QuestionKind::OwnConfirm,
        Question::PeerConfirm(_) => QuestionKind::PeerConfirm,
        Question::G2 { .. } => QuestionKind::G2,
        Question::F5 { .. } => QuestionKind::F5,
        Question::PeerCheck(_) => QuestionKind::PeerCheck,
        Question::OwnCheck(_) => QuestionKind::OwnCheck,
    }
}

// Whether a question has its answer: there is one for each kind.
fn known(given: Given, question: Question) -> bool
    ensures { result ≡ known given (kind_of question) }
{
    match question {
        Question::DH { .. } => given.dh,
        Question::OwnConfirm(_) => given.ownconfirm,
        Question::PeerConfirm(_) => given.peerconfirm,
        Question::G2 { .. } => given.g2,
        Question::F5 { .. } => given.f5,
        Question::PeerCheck(_) => given.peercheck,
        Question::OwnCheck(_) => given.owncheck,
    }
}
