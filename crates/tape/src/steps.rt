// The tape step by step, from the bytes of the input that are held. What a step is: specs/Tape.antt; a reply to it:
// specs/Pieces.antt.
ghost use Rattle.std.specs.Prelude.{◌≡◌, cond, ◌==◌, ◌+◌, ◌≤◌, length as ListN·length};
ghost use Rattle.tape.specs.Tape.{lacking as Tape·lacking, step_of};
ghost use Rattle.tape.specs.Pieces.{replied};
ghost use Rattle.tape.specs.Inside.{Leaves};

use crate::{
    HEADER, Header, HeaderError, MOST_ANSWER, Part, Reply, Step, answer_record, bad_record,
    read_header,
};

// No whole record is held, and no bad one: the input's end is a clean one where it cuts none off.
fn lacking(held: Part<'_>) -> Step
    ensures { result
        ≡ cond (ListN·length held.entry.bytes.now == 0)
        (cond held.entry.ended Step.End Step.More) (Tape·lacking held.entry.ended) }
{
    match held.ended {
        false => Step::More,
        true if held.bytes.is_empty() => Step::End,
        true => Step::Fault,
    }
}

// What stands at the front of the input, of which some bytes are held and which has ended behind them or not.
fn step(held: Part<'_>) -> Step
    ensures { result ≡ step_of held.entry.bytes.now held.entry.ended }
{
    match read_header(held.bytes) {
        Ok(header) if HEADER + header.length as usize <= held.bytes.len() => Step::Whole(header),
        Ok(_) => lacking(held),
        Err(HeaderError::Bad) => Step::Fault,
        Err(HeaderError::Cut) => lacking(held),
    }
}

// The reply to a whole record at the front of the bytes held.
fn answer_whole(
    state: &mut [u8],
    memory: &mut [u8],
    held: &[u8],
    header: Header,
    out: &mut [u8],
) -> Reply
    requires { (6 + header.length ≤ ListN·length held.now) × (135 ≤ ListN·length out.old) }
    ensures { Leaves
        (replied (Step.Whole header) state.old memory.old held.now)
        out.old result state.new memory.new out.new }
{
    let used = HEADER + header.length as usize;
    let written = answer_record(state, memory, header, &held[HEADER..used], out);
    Reply::Answered { used, written }
}

// The reply to what stands at the front of the bytes held. What is to be written stands at the start of `out`, which is lent, as
// there is no heap. State and memory stay two parameters: a struct of two `&mut` takes two clauses more in each contract.
pub fn reply(
    state: &mut [u8],
    memory: &mut [u8],
    held: Part<'_>,
    out: &mut [u8; MOST_ANSWER],
) -> Reply
    ensures { Leaves
        (replied (step_of held.entry.bytes.now held.entry.ended) state.old memory.old held.entry.bytes.now)
        out.old result state.new memory.new out.new }
{
    match step(held) {
        Step::Whole(header) => answer_whole(state, memory, held.bytes, header, out),
        Step::Fault => {
            bad_record(out);
            Reply::Fault
        }
        Step::End => Reply::End,
        Step::More => Reply::More,
    }
}
