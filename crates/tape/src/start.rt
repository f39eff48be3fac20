// The card of a tape: its reset, and its memory's length as the command line asks for it.
ghost use Rattle.std.specs.Prelude.{◌≡◌, cond, ◌≤◌, length, IfSome};
ghost use Rattle.tables.specs.Reset.{zeros, reset_bytes};
ghost use Rattle.tape.specs.Length.{most_length, length_in, length_of, Asks};
ghost use Rattle.tape.specs.System.{Event, Happened};
ghost use Rattle.tape.specs.Inside.{resets};

use rules::Answer;
use std::env::FillError;
use std::rt::Env;

// The longest memory that a program takes.
const MOST_LENGTH: u64 = 1048576;

// Resets the card to a memory of the given length; false, with the state as it was, where no reset takes it. A Result would be no
// plainer: its error would have nothing in it, as `resets` says only whether.
pub fn start(state: &mut [u8], memory: u64) -> bool
    ensures value { result ≡ resets state.old memory }
    ensures state_after { state.new
        ≡ cond (resets state.old memory) (reset_bytes memory) state.old }
{
    matches!(queues::reset(state, memory), Answer::Done(_))
}

// The length that decimal digits say, where they say one from 1 to 1,048,576.
pub fn memory_length(text: &[u8]) -> Option<u64>
    ensures value { length_in result ≡ length_of text.now }
    ensures bounds { IfSome result (λ n. (1 ≤ n) × (n ≤ most_length)) }
{
    let mut value: u64 = 0;
    for &byte in text {
        if !byte.is_ascii_digit() {
            return None;
        }
        value = value * 10 + (byte - b'0') as u64;
        if MOST_LENGTH < value {
            return None;
        }
    }
    (value > 0).then_some(value)
}

// How many words the program was started with, its own name among them.
fn words(rt: &impl Env) -> usize
    ensures { Happened (Event.words result) }
{
    let mut byte = [0u8; 1];
    for i in 0..usize::MAX {
        if let Err(FillError::NotPresent) = rt.arg(i, &mut byte) {
            return i;
        }
    }
    usize::MAX
}

// The memory's length that word i, the last, asks for, 4,096 where there is none; no length where it asks for none that the
// programs take.
pub fn length_asked(rt: &impl Env, i: usize) -> Option<u64>
    ensures asks { Asks i (length_in result) }
    ensures bounds { IfSome result (λ n. (1 ≤ n) × (n ≤ most_length)) }
{
    let count = words(rt);
    if count <= i {
        return Some(4096);
    }
    if count - i > 1 {
        return None;
    }
    let mut text = [0u8; 8];
    let n = rt.arg(i, &mut text).ok()?;
    memory_length(&text[..n])
}

// The longest memory that a program takes, all zeros.
pub fn memory() -> [u8; 1048576]
    ensures value { 1048576 ≡ length result }
    ensures value_2 { result ≡ zeros 1048576 }
{
    [0; 1048576]
}
