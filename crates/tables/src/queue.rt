// Completion queues and waiting receives in the lent state. Definitions: specs/Queue.antt.
ghost use Rattle.std.specs.Prelude.{◌≡◌, ◌<◌, ◌+◌, ◌*◌, ◌-◌, length};
ghost use Rattle.wire.specs.Table.{row_at, put_row};
ghost use Rattle.tables.specs.Layout.{cq_t, heads_of, waiting_t, receive_t};
ghost use Rattle.tables.specs.Limits.{cq_count, qp_count, most_places, most_waiting};
ghost use Rattle.tables.specs.Queue.{pushed_queue, popped_queue, head_of, front_at, push_bytes, pop_bytes, post_bytes, drop_bytes};

use crate::limits::{MOST_PLACES, MOST_WAITING};
use crate::rows::State;
use crate::{Completion, CompletionQueue, QueueHead, ReceiveRecord, WaitingHead, WorkQueue, rows};

impl CompletionQueue {
    // The queue with one completion more, as its newest.
    pub fn push(mut self, e: Completion) -> Self
        requires { (self.first < 256) × (self.count < most_places) }
        ensures { result ≡ pushed_queue self e }
    {
        let at = wire::ring_place(MOST_PLACES, self.first, self.count);
        self.ring[at] = e;
        self.count = self.count + 1;
        self
    }

    // The queue without its oldest completion.
    pub fn pop(mut self) -> Self
        requires { (self.first < 256) × (0 < self.count) }
        ensures { result ≡ popped_queue self }
    {
        self.first = wire::ring_place(MOST_PLACES, self.first, 1);
        self.count = self.count - 1;
        self
    }
}

// ---- completion queues in the state

// The head of a queue, for completion queue n. No From: it could not ask that the numbers fit a byte.
fn store_head(state: &mut State, n: usize, q: CompletionQueue)
    requires { (n < cq_count) × (q.first < 256) × (q.count < 256) × (q.places < 256) }
    ensures { state.new ≡ put_row cq_t state.old n (head_of q) }
{
    let h = QueueHead {
        places: q.places as u8,
        first: q.first as u8,
        count: q.count as u8,
    };
    rows::store_cq(state, n, h);
}

// The struct is made here and in push_completion, not by a function: handed on before its ring is read, it costs two copies of 384 bytes.

// The oldest completion of queue n, which leaves it: only its place is read, only the head is touched.
pub fn take_front(state: &mut State, n: usize) -> Completion
    requires { (n < cq_count) × ((row_at cq_t state.old n).first < most_places) × (0 < (row_at cq_t state.old n).count) }
    ensures { (result ≡ front_at state.old n) × (state.new ≡ pop_bytes state.old n) }
{
    let h = rows::load_cq(state, n);
    let mut q = CompletionQueue {
        ring: [Completion::default(); 16],
        first: h.first as usize,
        count: h.count as usize,
        places: h.places as usize,
    };
    let at = q.first;
    q.ring[at] = rows::load_entry(state, MOST_PLACES * n + at);
    let front = q.ring[at];
    store_head(state, n, q.pop());
    front
}

// One completion more in queue n: only its place and the head are touched.
pub fn push_completion(state: &mut State, n: usize, e: Completion)
    requires { (n < cq_count) × ((row_at cq_t state.old n).count < most_places) }
    ensures { state.new ≡ push_bytes state.old n e }
{
    let h = rows::load_cq(state, n);
    let q = CompletionQueue {
        ring: [Completion::default(); 16],
        first: h.first as usize,
        count: h.count as usize,
        places: h.places as usize,
    };
    let at = wire::ring_place(MOST_PLACES, q.first, q.count);
    let longer = q.push(e);
    rows::store_entry(state, MOST_PLACES * n + at, longer.ring[at]);
    store_head(state, n, longer);
}

// ---- waiting receives

// One receive more waiting on queue pair q.
pub fn post_receive(state: &mut State, q: usize, w: ReceiveRecord)
    requires { (q < qp_count) × ((row_at waiting_t state.old q).count < most_waiting) }
    ensures { state.new ≡ post_bytes state.old q w }
{
    let h = rows::load_head(state, WorkQueue::Receive, q);
    let at = wire::ring_place(MOST_WAITING, h.first as usize, h.count as usize);
    rows::store_receive(state, MOST_WAITING * q + at, w);
    let next = WaitingHead {
        count: h.count + 1,
        ..h
    };
    rows::store_head(state, WorkQueue::Receive, q, next);
}

// The oldest receive waiting on queue pair q.
pub fn oldest_receive(state: &State, q: usize) -> ReceiveRecord
    requires { (q < qp_count) × ((row_at waiting_t state.now q).first < most_waiting) }
    ensures { result ≡ row_at receive_t state.now (most_waiting * q + (row_at waiting_t state.now q).first) }
{
    let h = rows::load_head(state, WorkQueue::Receive, q);
    rows::load_receive(state, MOST_WAITING * q + h.first as usize)
}

// Queue pair q without the oldest of one of its queues.
pub fn drop_oldest(state: &mut State, queue: WorkQueue, q: usize)
    requires { (q < qp_count) × (0 < (row_at (heads_of queue) state.old q).count) }
    ensures { state.new ≡ drop_bytes queue state.old q }
{
    let h = rows::load_head(state, queue, q);
    let next = WaitingHead {
        first: wire::ring_place(queue.places(), h.first as usize, 1) as u8,
        count: h.count - 1,
    };
    rows::store_head(state, queue, q, next);
}
