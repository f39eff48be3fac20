// The tests that hold a request: document 01, steps 1 and 2, of a sender and its peer; 02, M-103, the place that a sender in error needs.
// Definitions: specs/Meet.antt.
ghost use Rattle.std.specs.Prelude.{◌≡◌, true, cond, ◌<◌, ◌≤◌, ◌+◌, eqb, leb, length};
ghost use Rattle.wire.specs.Table.{row_at};
ghost use Rattle.validate.specs.Accept.{accepts};
ghost use Rattle.tables.specs.Layout.{state_size, cq_t, qp_flag_t};
ghost use Rattle.tables.specs.Limits.{cq_count, qp_count};
ghost use Rattle.tables.specs.State.{card, is_live};
ghost use Rattle.rules.specs.Touch.{takes, fills};
ghost use Rattle.delivery.specs.Meet.{answers, places_by, peer_meeting, has_place, holding, is_free, Sender};

use rules::{Answer, Cause};
use tables::limits::{ERROR, QP_COUNT, RTR, RTS, SEND, SEND_IMM, WRITE_IMM};
use tables::rows::State;
use tables::{Kind, QueueHead, QueuePair, WorkQueue, rows};

// A sender and its peer: their numbers and rows.
#[derive(Clone, Copy)]
pub struct Ends {
    pub q: usize,
    pub own: QueuePair,
    pub d: usize,
    pub far: QueuePair,
}

// Opcodes 1 to 3 take a receive of the peer.
pub fn takes_receive(opcode: u8) -> bool
    ensures { result ≡ takes opcode }
{
    (WRITE_IMM <= opcode) & (opcode <= SEND_IMM)
}

// Opcodes 2 and 3 fill it.
pub fn fills_receive(opcode: u8) -> bool
    ensures { result ≡ fills opcode }
{
    (SEND <= opcode) & (opcode <= SEND_IMM)
}

// Whether queue pair n is live, of a number that is one of the table: no second test.
pub fn is_live(state: &State, n: usize) -> bool
    requires { n < qp_count }
    ensures { result ≡ is_live (row_at qp_flag_t state.now n) }
{
    rows::load_flag(state, Kind::Qp, n) == 1
}

// Whether a queue pair, live or not, is ready and names q back.
fn answers_to(live: bool, far: QueuePair, q: usize) -> bool
    ensures { result ≡ answers live far q }
{
    live & ((far.state == RTR) | (far.state == RTS)) & (far.dest as usize == q)
}

// Whether a completion queue has n free places.
fn has_room(h: QueueHead, n: u32) -> bool
    requires { n ≤ 2 }
    ensures { result ≡ leb (h.count + n) h.places }
{
    h.count as u32 + n <= h.places as u32
}

// The places needed in the send queue, two where it is the receive queue too.
fn places_needed(both: bool) -> u32
    ensures { result ≡ cond both 2 1 }
{
    if both { 2 } else { 1 }
}

// A place for each completion: in the send queue s, and where a receive is taken in the receive queue r, which may be the same.
fn has_places(state: &State, s: u8, r: u8, opcode: u8) -> bool
    requires { (s < cq_count) × (r < cq_count) }
    ensures { result ≡ places_by (row_at cq_t state.now s) (row_at cq_t state.now r) (eqb s r) opcode }
{
    let first = rows::load_cq(state, s as usize);
    if !takes_receive(opcode) {
        return has_room(first, 1);
    }
    let second = rows::load_cq(state, r as usize);
    let n = places_needed(s == r);
    let own = has_room(first, n);
    let far = has_room(second, 1);
    own & far
}

// The tests of a peer that is ready: a receive that waits, and places for the completions.
fn meet_peer(state: &State, e: Ends, opcode: u8) -> Result<Ends, Answer>
    requires { (e.own.scq < cq_count) × (e.far.rcq < cq_count) × (e.d < qp_count) }
    ensures { result ≡ peer_meeting state.now e opcode }
{
    let h = rows::load_head(state, WorkQueue::Receive, e.d);
    if takes_receive(opcode) & (h.count == 0) {
        return Err(Answer::Held(Cause::Peer));
    }
    if !has_places(state, e.own.scq, e.far.rcq, opcode) {
        return Err(Answer::Held(Cause::Place));
    }
    Ok(e)
}

// The tests that hold a request of queue pair q, which is not in error: those of its peer.
pub fn meet(state: &State, q: usize, own: QueuePair, opcode: u8) -> Result<Ends, Answer>
    requires { Sender state.now q own × (own.state ≡ 6 → ⊥) }
    ensures { result ≡ holding state.now q opcode }
{
    let d = own.dest as usize;
    if QP_COUNT <= d {
        return Err(Answer::Held(Cause::Peer));
    }
    let live = is_live(state, d);
    let far = rows::load_qp(state, d);
    if !answers_to(live, far, q) {
        return Err(Answer::Held(Cause::Peer));
    }
    let e = Ends { q, own, d, far };
    meet_peer(state, e, opcode)
}

// The test of a queue pair in error, whose row is own: a place for its completion. No peer is looked at.
pub fn has_place(state: &State, own: QueuePair) -> bool
    requires { own.scq < cq_count }
    ensures { result ≡ has_place state.now own }
{
    let h = rows::load_cq(state, own.scq as usize);
    has_room(h, 1)
}

// Whether nothing holds a request of queue pair q, which is live.
pub fn is_free(state: &State, q: usize, opcode: u8) -> bool
    requires { (accepts state.now ≡ true) × (((card state.now).qp q).live ≡ true) }
    ensures { result ≡ is_free state.now q opcode }
{
    let own = rows::load_qp(state, q);
    if own.state == ERROR {
        return has_place(state, own);
    }
    meet(state, q, own, opcode).is_ok()
}
