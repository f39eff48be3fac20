// The audit of a tape of calls and a tape of answers, round by round, from the bytes of each that are held. What it finds:
// specs/Inside.antt.
ghost use Rattle.std.specs.Prelude.{◌≡◌, true, cond};
ghost use Rattle.tape.specs.Tape.{step_of};
ghost use Rattle.tape.specs.Pieces.{replied};
ghost use Rattle.tape.specs.Audit.{starts};
ghost use Rattle.tape.specs.Inside.{closing as Inside·closing, finding_by, finding_of, Finds};

use crate::steps::reply;
use crate::{Found, HEADER, MOST_ANSWER, Part, Reply};

// What is found where the answers start with the record that is due, else a difference there.
fn judge_due(due: &[u8], given: &[u8], found: Found) -> Found
    ensures { result ≡ cond (starts due.now given.now) found (Found.Differs 0) }
{
    if given.starts_with(due) {
        return found;
    }
    Found::Differs { later: 0 }
}

// No answer is due, and so many bytes of the answers are left.
fn closing(later: u64, left: usize) -> Found
    ensures { result ≡ Inside·closing later left }
{
    if left == 0 {
        return Found::Agrees;
    }
    Found::Differs { later }
}

// The reply to the calls held, its answer held against the answers. The answer to a bad record is the last that is due.
fn judge(state: &mut [u8], memory: &mut [u8], calls: Part<'_>, given: &[u8]) -> Found
    ensures { Finds (finding_by true state.old memory.old
        (replied (step_of calls.entry.bytes.now calls.entry.ended) state.old memory.old calls.entry.bytes.now)
        given.now) result state.new memory.new }
{
    let mut out = [0u8; MOST_ANSWER];
    match reply(state, memory, calls, &mut out) {
        Reply::Answered { used, written } => {
            let same = Found::Same {
                calls: used,
                answers: written,
            };
            judge_due(&out[..written], given, same)
        }
        Reply::Fault => {
            let last = closing(1, given.len().saturating_sub(HEADER));
            judge_due(&out[..HEADER], given, last)
        }
        Reply::End => closing(0, given.len()),
        Reply::More => Found::Calls,
    }
}

// The round that the bytes held of both tapes allow.
pub fn audit(state: &mut [u8], memory: &mut [u8], calls: Part<'_>, answers: Part<'_>) -> Found
    ensures { Finds (finding_of state.old memory.old
        calls.entry.bytes.now calls.entry.ended answers.entry.bytes.now answers.entry.ended) result
        state.new memory.new }
{
    let is_held = answers.ended | (MOST_ANSWER <= answers.bytes.len());
    if is_held {
        return judge(state, memory, calls, answers.bytes);
    }
    Found::Answers
}
