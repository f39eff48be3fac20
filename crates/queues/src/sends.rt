// Enqueue, document 02, M-108: a send record joins a queue pair's queue. Its tests and its effect: rules, specs/Turn.antt.
ghost use Rattle.std.specs.Prelude.{◌≡◌, true, []};
ghost use Rattle.validate.specs.Accept.{accepts};
ghost use Rattle.rules.specs.Call.{Call};
ghost use Rattle.rules.specs.Contract.{Owes};
ghost use Rattle.queues.specs.Live.{LivePair};
ghost use Rattle.queues.specs.Enqueue.{Sent, Enqueues};

use crate::pair;
use rules::Answer;
use tables::refusal::Refusal;
use tables::rows::State;
use tables::{Kind, WorkQueue, records, rows, sends};
use validate::live;

// A record that passed its own tests, on a live queue pair.
fn enqueue_live(state: &mut State, q: usize, sent: &[u8]) -> Answer
    requires { LivePair state.old q × Sent sent.now }
    ensures { Enqueues state.old q sent.now result state.new }
{
    if !pair::may_queue(state, q) {
        return Refusal::WrongState.into();
    }
    if pair::is_full(state, WorkQueue::Send, q) {
        return Refusal::Full.into();
    }
    sends::push_send(state, q, sent);
    Answer::Done(0)
}

// The same on any queue pair of an accepted state.
fn enqueue_record(state: &mut State, qpn: u32, sent: &[u8]) -> Answer
    requires { (accepts state.old ≡ true) × Sent sent.now }
    ensures { Enqueues state.old qpn sent.now result state.new }
{
    if !live::is_live(state, Kind::Qp, qpn) {
        return Refusal::NotLive.into();
    }
    enqueue_live(state, qpn as usize, sent)
}

// A send record more in a queue pair's queue. Of the memory only the length is looked at; nothing is run.
pub fn enqueue(state: &mut [u8], memory: &[u8], qpn: u32, sent: &[u8]) -> Answer
    ensures { Owes state.old
        (Call.enqueue qpn sent.now memory.now) result state.new memory.now [] }
{
    let Some(state) = live::acceptable(state) else {
        return Refusal::BadState.into();
    };
    if memory.len() as u64 != rows::load_memory(state) {
        return Refusal::OtherMemory.into();
    }
    match records::read_send(sent) {
        Ok(_) => enqueue_record(state, qpn, sent),
        Err(reason) => Answer::from(reason),
    }
}
