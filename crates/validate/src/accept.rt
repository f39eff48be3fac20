// The state test of answer 15: specs/Accept.antt.
ghost use Rattle.std.specs.Prelude.{◌≡◌, ◌<◌, ◌&&◌, length};
ghost use Rattle.wire.specs.Scan.{all, all_below};
ghost use Rattle.tables.specs.Card.{cq_live};
ghost use Rattle.wire.specs.Ring.{ring_list};
ghost use Rattle.wire.specs.Table.{row_at};
ghost use Rattle.tables.specs.State.{card, pair_at, ring_at, receives_at, no_completion, no_record};
ghost use Rattle.tables.specs.Layout.{state_size, memory_t, turn_t};
ghost use Rattle.tables.specs.Limits.{pd_count, cq_count, qp_count, most_places, most_waiting};
ghost use Rattle.validate.specs.Accept.{accepts, memory_ok, turn_ok, is_status, is_state, completion_ok, receive_ok, queue_ok, pair_ok, pd_ok, cq_ok, qp_ok, names_ok, receives_ok};

use crate::live::is_live;
use crate::objects::{Pair, Queue};
use crate::{regions, together};
use tables::limits::{
    CQ_COUNT, ERROR, FLUSHED, LOCAL_LENGTH, LOCAL_PROTECTION, MOST_ACCESS, MOST_MEMORY,
    MOST_MESSAGE, MOST_PLACES, MOST_RECEIVE_SGES, MOST_WAITING, PD_COUNT, QP_COUNT, RECEIVED_WRITE,
    REMOTE_ACCESS, REMOTE_INVALID, RTS, SUCCESS,
};
use tables::rows::{STATE_SIZE, State};
use tables::{Completion, Kind, QueueHead, QueuePair, WaitingHead, WorkQueue, rows};

fn is_status(s: u8) -> bool
    ensures { result ≡ is_status s }
{
    matches!(
        s,
        SUCCESS | LOCAL_LENGTH | LOCAL_PROTECTION | FLUSHED | REMOTE_INVALID | REMOTE_ACCESS
    )
}

fn completion_ok(e: Completion) -> bool
    ensures { result ≡ completion_ok e }
{
    let owner = e.owner as usize;
    is_status(e.status)
        && e.opcode <= RECEIVED_WRITE
        && e.length <= MOST_MESSAGE
        && owner < QP_COUNT
}

pub fn is_state(s: u8) -> bool
    ensures { result ≡ is_state s }
{
    s <= RTS || s == ERROR
}

fn pair_ok(n: usize, p: QueuePair) -> bool
    ensures { result ≡ pair_ok n p }
{
    let dest = p.dest as usize;
    dest <= QP_COUNT
        && dest != n
        && p.signal <= 1
        && p.rights & MOST_ACCESS == p.rights
        && is_state(p.state)
}

fn queue_ok(h: QueueHead) -> bool
    ensures { result ≡ queue_ok h }
{
    let places = h.places as usize;
    let first = h.first as usize;
    (1 <= h.places) & (places <= MOST_PLACES) & (first < MOST_PLACES) & (h.count <= h.places)
}

impl Queue<'_> {
    // The unread completions; h is the queue's head.
    fn entries_ok(self, h: QueueHead) -> bool
        requires { h.first < most_places }
        ensures { result ≡ all completion_ok (ring_list no_completion most_places (ring_at self.entry.state.now self.entry.n) h.first h.count) }
    {
        self.completions_pass(h.count)
            || together::ring_passes(MOST_PLACES, h.first, h.count, |k| {
                completion_ok(rows::load_entry(self.state, MOST_PLACES * self.n + k))
            })
    }

    #[tactic(auto, unfolding(crate::specs::Accept::cq_ok, tables::specs::State::queue_at))]
    fn cq_ok(self) -> bool
        ensures { result ≡ cq_ok self.entry.state.now self.entry.n }
    {
        match rows::load_flag(self.state, Kind::Cq, self.n) {
            0 => true,
            1 => {
                let h = rows::load_cq(self.state, self.n);
                queue_ok(h) && self.entries_ok(h)
            }
            _ => false,
        }
    }
}

// The domain and the completion queues that a queue pair names are live.
fn names_ok(state: &State, p: QueuePair) -> bool
    ensures { result ≡ names_ok (card state.now).pd (cq_live (card state.now)) p }
{
    is_live(state, Kind::Pd, p.pd as u32)
        && is_live(state, Kind::Cq, p.scq as u32)
        && is_live(state, Kind::Cq, p.rcq as u32)
}

impl Pair<'_> {
    // The waiting receives; h is their head.
    fn receives_ok(self, h: WaitingHead) -> bool
        requires { h.first < most_waiting }
        ensures { result ≡ all receive_ok (ring_list no_record most_waiting (receives_at self.entry.state.now self.entry.n) h.first h.count) }
    {
        self.receives_pass(h.count)
            || together::ring_passes(MOST_WAITING, h.first, h.count, |k| {
                rows::load_receive(self.state, MOST_WAITING * self.n + k).count <= MOST_RECEIVE_SGES
            })
    }

    // The waiting receives and their head.
    #[tactic(auto, unfolding(tables::specs::State::pair_at))]
    fn waiting_ok(self) -> bool
        ensures { result ≡ receives_ok (pair_at self.entry.state.now self.entry.n) }
    {
        let h = rows::load_head(self.state, WorkQueue::Receive, self.n);
        let first = h.first as usize;
        let count = h.count as usize;
        first < MOST_WAITING && count <= MOST_WAITING && self.receives_ok(h)
    }

    #[tactic(auto, unfolding(crate::specs::Accept::qp_ok, tables::specs::State::pair_at))]
    fn qp_ok(self) -> bool
        ensures { result ≡ qp_ok self.entry.state.now self.entry.n }
    {
        match rows::load_flag(self.state, Kind::Qp, self.n) {
            0 => true,
            1 => {
                let p = rows::load_qp(self.state, self.n);
                names_ok(self.state, p)
                    && pair_ok(self.n, p)
                    && self.waiting_ok()
                    && self.sends_ok(p.state)
            }
            _ => false,
        }
    }
}

// The memory length, and the queue pair that a turn visits first.
fn header_ok(state: &State) -> bool
    ensures { result ≡ (memory_ok (row_at memory_t state.now 0) && turn_ok (row_at turn_t state.now 0)) }
{
    let memory = rows::load_memory(state);
    let turn = rows::load_turn(state) as usize;
    (1 <= memory) & (memory <= MOST_MEMORY) & (turn < QP_COUNT)
}

fn pds_ok(state: &State) -> bool
    ensures { result ≡ all_below pd_count (pd_ok state.now) }
{
    (0..PD_COUNT).all(|n| rows::load_flag(state, Kind::Pd, n) <= 1)
}

fn cqs_ok(state: &State) -> bool
    ensures { result ≡ all_below cq_count (cq_ok state.now) }
{
    (0..CQ_COUNT).all(|n| Queue::new(state, n).cq_ok())
}

fn qps_ok(state: &State) -> bool
    ensures { result ≡ all_below qp_count (qp_ok state.now) }
{
    (0..QP_COUNT).all(|n| Pair::new(state, n).qp_ok())
}

#[tactic(auto, unfolding(crate::specs::Accept::accepts))]
fn state_ok(state: &State) -> bool
    ensures { result ≡ accepts state.now }
{
    header_ok(state)
        && pds_ok(state)
        && cqs_ok(state)
        && regions::mrs_ok(state, rows::load_memory(state))
        && qps_ok(state)
}

// Whether the lent state is acceptable: any bytes, of any length.
#[tactic(auto, unfolding(crate::specs::Accept::accepts))]
pub fn accepted(state: &[u8]) -> bool
    ensures { result ≡ accepts state.now }
{
    match state.as_array::<STATE_SIZE>() {
        Some(state) => state_ok(state),
        None => false,
    }
}
