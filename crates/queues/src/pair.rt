// The tests of post receive, flush and enqueue on a queue pair, and the completion of a flushed receive. LivePair is a clause of each: a type that
// held it would be made anew after every store.
ghost use Rattle.std.specs.Prelude.{◌≡◌, eqb, leb};
ghost use Rattle.tables.specs.Layout.{places_of};
ghost use Rattle.tables.specs.State.{card};
ghost use Rattle.validate.specs.Accept.{may_queue};
ghost use Rattle.rules.specs.Bytes.{flushed_bytes, flush_bytes};
ghost use Rattle.rules.specs.Lists.{is_empty};
ghost use Rattle.rules.specs.Queues.{flushes_at_once};
ghost use Rattle.rules.specs.Send.{room};
ghost use Rattle.queues.specs.Live.{LivePair, PlacedPair, Flushable, queue_length};

use tables::limits::{ERROR, FLUSHED, RECEIVED, RTS};
use tables::rows::State;
use tables::{Completion, WorkQueue, queue, rows};

// Whether it is in a state.
pub fn in_state(state: &State, q: usize, s: u8) -> bool
    requires { LivePair state.now q }
    ensures { result ≡ eqb ((card state.now).qp q).state s }
{
    rows::load_qp(state, q).state == s
}

// Whether a receive posted on it is flushed: it is in error, and none waits.
pub fn flushes_at_once(state: &State, q: usize) -> bool
    requires { LivePair state.now q }
    ensures { result ≡ flushes_at_once (card state.now) q }
{
    in_state(state, q, ERROR) && none_waiting(state, q)
}

// Whether one of its queues has no free place.
pub fn is_full(state: &State, queue: WorkQueue, q: usize) -> bool
    requires { LivePair state.now q }
    ensures { result ≡ leb (places_of queue) (queue_length queue ((card state.now).qp q)) }
{
    queue.places() <= rows::load_head(state, queue, q).count as usize
}

pub fn none_waiting(state: &State, q: usize) -> bool
    requires { LivePair state.now q }
    ensures { result ≡ is_empty ((card state.now).qp q).waiting }
{
    rows::load_head(state, WorkQueue::Receive, q).count == 0
}

// Whether it may have a queue of sends: it is ready to send, or in error.
pub fn may_queue(state: &State, q: usize) -> bool
    requires { LivePair state.now q }
    ensures { result ≡ may_queue ((card state.now).qp q).state }
{
    in_state(state, q, RTS) || in_state(state, q, ERROR)
}

// Whether its receive completion queue has a free place.
pub fn has_place(state: &State, q: usize) -> bool
    requires { LivePair state.now q }
    ensures { result ≡ room ((card state.now).cq ((card state.now).qp q).rcq) 1 }
{
    let p = rows::load_qp(state, q);
    let u = rows::load_cq(state, p.rcq as usize);
    u.count < u.places
}

// The completion of a flushed receive of queue pair q.
pub fn put_flushed(state: &mut State, q: usize, wr: u64)
    requires { PlacedPair state.old q }
    ensures { state.new ≡ flushed_bytes state.old q wr }
{
    let p = rows::load_qp(state, q);
    let e = Completion {
        wr,
        status: FLUSHED,
        opcode: RECEIVED,
        length: 0,
        imm: 0,
        owner: q as u32,
    };
    queue::push_completion(state, p.rcq as usize, e);
}

// The oldest receive of queue pair q completes as flushed.
pub fn complete_oldest(state: &mut State, q: usize)
    requires { Flushable state.old q }
    ensures { state.new ≡ flush_bytes state.old q }
{
    let w = queue::oldest_receive(state, q);
    put_flushed(state, q, w.wr);
    queue::drop_oldest(state, WorkQueue::Receive, q);
}
