// Replays a tape: reads records from standard input, makes each one's call on one card, and writes the answer records to
// standard output (docs/TAPE.md). The library tape has what a tape means and what to do with the bytes held; here bytes are
// only moved.
#![tactic(auto)]

ghost use Rattle.std.specs.Prelude.{IfSome};
ghost use Rattle.tape.specs.Inside.{Lies, Starts};

use tape::input::{Held, Source};
use tape::{Part, Reply};

// Answers what stands at the front of the bytes held. What is held after that; nothing where the tape ends, or an answer can't be
// written.
fn round(
    rt: &impl Print,
    source: &Source,
    state: &mut [u8],
    memory: &mut [u8],
    window: &mut [u8],
    held: Held,
) -> Option<Held>
    requires { Lies held window.old }
    ensures { IfSome result (λ h. Lies h window.new) }
{
    let mut out = [0u8; tape::MOST_ANSWER];
    let part = Part {
        bytes: &window[held.from..held.to],
        ended: held.ended,
    };
    match tape::steps::reply(state, memory, part, &mut out) {
        Reply::Answered { used, written } => {
            rt.write_all(&out[..written]).ok()?;
            let from = held.from + used;
            Some(Held { from, ..held })
        }
        Reply::Fault => {
            let _ = rt.write_all(&out[..6]);
            None
        }
        Reply::End => None,
        Reply::More => match tape::input::more(source, window, held) {
            Ok(held) => Some(held),
            Err(failed) => Some(failed.held), // it is the input's end
        },
    }
}

// A proved loop has to end, and nothing says that a tape does: there are more rounds than any run uses up.
fn run(rt: &impl Print, source: &Source, state: &mut [u8], memory: &mut [u8], window: &mut [u8]) {
    let mut held = Held::default();
    for _ in 0..u64::MAX {
        match round(rt, source, state, memory, window, held) {
            Some(next) => held = next,
            None => return,
        }
    }
}

// Runs the tape over the first bytes of the memory, to which the card is reset: as many as the command line asks for.
fn run_in(rt: &impl Print, source: &Source, state: &mut [u8], memory: &mut [u8], length: usize)
    requires { Starts 1 length state.old memory.old }
{
    let mut window = [0u8; 65536];
    run(rt, source, state, &mut memory[..length], &mut window);
}

fn main(rt: HostRuntime) {
    let source = tape::input::standard(rt.stdin());
    let mut state = [0u8; tape::STATE];
    let mut memory = tape::start::memory();
    match tape::start::length_asked(&rt, 1) {
        Some(length) if tape::start::start(&mut state, length) => {
            run_in(&rt, &source, &mut state, &mut memory, length as usize)
        }
        _ => {
            let _ = eprintln!(rt;
                "usage: replay [LENGTH] <CALLS >ANSWERS   LENGTH is the memory's, 1 to 1048576"
            );
        }
    }
}
