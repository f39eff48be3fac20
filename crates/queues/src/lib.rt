// Reset, poll, post receive and flush: document 01's calls on the queues of the lent state. Their tests and effects: rules,
// specs/Queues.antt.
#![tactic(auto)]

mod pair;
pub mod sends;

ghost use Rattle.std.specs.Prelude.{◌≡◌, true, [], ◌≤◌, length};
ghost use Rattle.validate.specs.Accept.{accepts};
ghost use Rattle.rules.specs.Call.{Call};
ghost use Rattle.rules.specs.Contract.{Owes};
ghost use Rattle.queues.specs.Live.{LiveQueue, LivePair, Flushing};
ghost use Rattle.queues.specs.Receive.{Posts};

use rules::{Answer, Cause};
use tables::limits::{ERROR, FLUSHED, MOST_MEMORY, RESET};
use tables::refusal::Refusal;
use tables::rows::{STATE_SIZE, State};
use tables::{Kind, ReceiveRecord, WorkQueue, queue, records, reset as fresh, rows};
use validate::live;

// ---- reset

// An empty card over a memory of the given length.
pub fn reset(state: &mut [u8], memory: u64) -> Answer
    ensures { Owes state.old (Call.reset memory) result state.new [] [] }
{
    let Some(state) = state.as_mut_array::<STATE_SIZE>() else {
        return Refusal::BadState.into();
    };
    let fits = (1 <= memory) & (memory <= MOST_MEMORY);
    if !fits {
        return Refusal::BadRange.into();
    }
    fresh::reset(state, memory);
    Answer::Done(0)
}

// ---- poll

// A poll of a live completion queue into a buffer that has room.
fn poll_live(state: &mut State, n: usize, buffer: &mut [u8]) -> Answer
    requires { LiveQueue state.old n × (24 ≤ length buffer.old) }
    ensures { Owes state.old
        (Call.poll n buffer.old) result state.new [] buffer.new }
{
    let h = rows::load_cq(state, n);
    if h.count == 0 {
        return Refusal::NothingThere.into();
    }
    let front = queue::take_front(state, n);
    records::put_completion(buffer, 0, front);
    Answer::Done(0)
}

// Gives back the oldest completion of a queue, which leaves it.
pub fn poll(state: &mut [u8], cqn: u32, buffer: &mut [u8]) -> Answer
    ensures { Owes state.old
        (Call.poll cqn buffer.old) result state.new [] buffer.new }
{
    let Some(state) = live::acceptable(state) else {
        return Refusal::BadState.into();
    };
    if buffer.len() < rows::ENTRY_SIZE {
        return Refusal::ShortBuffer.into();
    }
    if !live::is_live(state, Kind::Cq, cqn) {
        return Refusal::NotLive.into();
    }
    poll_live(state, cqn as usize, buffer)
}

// ---- post receive

// The receive of a record on a queue pair in error on which none waits: it is flushed.
fn flush_new(state: &mut State, q: usize, w: ReceiveRecord) -> Answer
    requires { Flushing state.old q }
    ensures { Posts state.old q w result state.new }
{
    if !pair::has_place(state, q) {
        return Answer::Held(Cause::Place);
    }
    pair::put_flushed(state, q, w.wr);
    Answer::Done(FLUSHED)
}

// The receive of a record on a live queue pair: it is flushed, or it waits behind the others.
fn post_live(state: &mut State, q: usize, w: ReceiveRecord) -> Answer
    requires { LivePair state.old q }
    ensures { Posts state.old q w result state.new }
{
    if pair::in_state(state, q, RESET) {
        return Refusal::WrongState.into();
    }
    if pair::flushes_at_once(state, q) {
        return flush_new(state, q, w);
    }
    if pair::is_full(state, WorkQueue::Receive, q) {
        return Refusal::Full.into();
    }
    queue::post_receive(state, q, w);
    Answer::Done(0)
}

// The same on any queue pair of an accepted state.
fn post_record(state: &mut State, qpn: u32, w: ReceiveRecord) -> Answer
    requires { accepts state.old ≡ true }
    ensures { Posts state.old qpn w result state.new }
{
    if !live::is_live(state, Kind::Qp, qpn) {
        return Refusal::NotLive.into();
    }
    post_live(state, qpn as usize, w)
}

// A receive more on a queue pair, flushed at once where it is in error and none waits. Its keys aren't looked at.
pub fn post_receive(state: &mut [u8], qpn: u32, posted: &[u8]) -> Answer
    ensures { Owes state.old (Call.receive qpn posted.now) result state.new [] [] }
{
    let Some(state) = live::acceptable(state) else {
        return Refusal::BadState.into();
    };
    match records::read_receive(posted) {
        Ok(w) => post_record(state, qpn, w),
        Err(reason) => Answer::from(reason),
    }
}

// ---- flush

// A flush of a live queue pair.
fn flush_live(state: &mut State, q: usize) -> Answer
    requires { LivePair state.old q }
    ensures { Owes state.old (Call.flush q) result state.new [] [] }
{
    if !pair::in_state(state, q, ERROR) {
        return Refusal::WrongState.into();
    }
    if pair::none_waiting(state, q) {
        return Refusal::NothingThere.into();
    }
    if !pair::has_place(state, q) {
        return Answer::Held(Cause::Place);
    }
    pair::complete_oldest(state, q);
    Answer::Done(0)
}

// The oldest receive of a queue pair in error completes as flushed.
pub fn flush(state: &mut [u8], qpn: u32) -> Answer
    ensures { Owes state.old (Call.flush qpn) result state.new [] [] }
{
    let Some(state) = live::acceptable(state) else {
        return Refusal::BadState.into();
    };
    if !live::is_live(state, Kind::Qp, qpn) {
        return Refusal::NotLive.into();
    }
    flush_live(state, qpn as usize)
}
