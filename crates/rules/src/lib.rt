// The answers of the card's calls. What each call does is in specs/.
#![tactic(auto)]

pub mod verb;

ghost use Rattle.std.specs.Prelude.{◌≡◌};
ghost use Rattle.rules.specs.Answer.{number, status, code_of, refused, outcome_answer};

use tables::Ack;
use tables::refusal::Refusal;

// Why a call is held: the peer isn't ready or no receive waits there, or a completion has no place.
#[derive(Clone, Copy)]
pub enum Cause {
    Peer,
    Place,
}

// Done with a status, held for a cause, or refused with its number: a number, and no `Refusal`, as `answered` and `answer_in` of
// specs/Answer.antt tell an answer of any number, and the judge's theorem speaks of every one that a caller reports.
#[derive(Clone, Copy)]
pub enum Answer {
    Done(u8),
    Held(Cause),
    Refused(u8),
}

// Whose use of a byte is asked: a queue pair's, by its domain and its access flags.
#[derive(Clone, Copy)]
pub struct Party {
    pub pd: u8,
    pub rights: u8,
}

impl Answer {
    // The answer's number in document 01's table.
    pub fn number(self) -> u8
        ensures { result ≡ number self }
    {
        match self {
            Answer::Done(_) => 0,
            Answer::Held(Cause::Peer) => 5,
            Answer::Held(Cause::Place) => 6,
            Answer::Refused(n) => n,
        }
    }

    // The status of a call that is done; 0 of any other answer.
    pub fn status(self) -> u8
        ensures { result ≡ status self }
    {
        match self {
            Answer::Done(s) => s,
            Answer::Held(_) | Answer::Refused(_) => 0,
        }
    }
}

// One number for a caller in C: the answer's number in bits 0 to 7, its status in bits 8 to 15.
impl From<Answer> for u32 {
    ghost from_gives = { λ a n. n ≡ code_of a };

    fn from(answer: Answer) -> u32 {
        u32::from(answer.number()) + 256 * u32::from(answer.status())
    }
}

impl From<Refusal> for Answer {
    ghost from_gives = { λ r a. a ≡ refused r };

    fn from(reason: Refusal) -> Answer {
        Answer::Refused(u8::from(reason))
    }
}

// The answer of a control command, which its ack tells more of.
impl From<Result<Ack, Refusal>> for Answer {
    ghost from_gives = { λ r a. a ≡ outcome_answer r };

    fn from(outcome: Result<Ack, Refusal>) -> Answer {
        match outcome {
            Ok(_) => Answer::Done(0),
            Err(reason) => Answer::from(reason),
        }
    }
}
