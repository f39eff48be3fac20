// Steps 3 to 6 of document 01, "Posting and delivering": the status of a message, and the message moved. Definitions:
// specs/Deliver.antt.
ghost use Rattle.std.specs.Prelude.{◌≡◌, true, false, cond, not, ◌||◌, [], ◌∷◌, ◌<◌, ◌≤◌, leb, length, take};
ghost use Rattle.wire.specs.Table.{row_at};
ghost use Rattle.tables.specs.State.{card, no_record};
ghost use Rattle.tables.specs.Layout.{state_size, waiting_t};
ghost use Rattle.tables.specs.Limits.{qp_count, most_waiting};
ghost use Rattle.tables.specs.Records.{is_inline, receive_sges};
ghost use Rattle.rules.specs.Touch.{fills, sge_total};
ghost use Rattle.dma.specs.Grants.{allows_all};
ghost use Rattle.dma.specs.Moves.{Ready};
ghost use Rattle.delivery.specs.Deliver.{party_in, taken_row, Sending, Delivery, is_single, total_by, own_mask, own_by, far_list, far_mask, Carries, carried, OwnSide};

use crate::meet;
use crate::meet::Ends;
use crate::request::WorkRequest;
use dma::{permit, transfer};
use rules::Party;
use tables::limits::{
    LOCAL_LENGTH, LOCAL_PROTECTION, LOCAL_WRITE, MOST_MESSAGE, READ, REMOTE_ACCESS, REMOTE_INVALID,
    REMOTE_READ, REMOTE_WRITE, SUCCESS,
};
use tables::rows::State;
use tables::{QueuePair, ReceiveRecord, SendRecord, Sge, queue};

// Whose use of memory a queue pair's is. No From: both types are of other crates.
fn party_of(p: QueuePair) -> Party
    ensures { result ≡ party_in p }
{
    Party {
        pd: p.pd,
        rights: p.rights,
    }
}

// Step 3: whether each byte of the sender's own entries is permitted.
fn own_permitted(state: &State, p: Party, r: &WorkRequest) -> bool
    ensures { result ≡ allows_all (card state.now) p (own_mask r.now.head.opcode) (own_by r.now.head r.now.sges.now) }
{
    r.is_inline() || permit::sges_permitted(state, p, own_mask(r.head.opcode), r.sges)
}

// The access bit that the sender's side needs.
fn own_mask(opcode: u8) -> u8
    ensures { result ≡ own_mask opcode }
{
    if opcode == READ { LOCAL_WRITE } else { 0 }
}

// The access bit that the peer's side needs.
fn far_mask(opcode: u8) -> u8
    ensures { result ≡ far_mask opcode }
{
    if meet::fills_receive(opcode) {
        LOCAL_WRITE
    } else if opcode == READ {
        REMOTE_READ
    } else {
        REMOTE_WRITE
    }
}

// The status where a byte of the peer's side is not permitted.
fn far_fault(opcode: u8) -> u8
    ensures { result ≡ cond (fills opcode) 7 8 }
{
    if meet::fills_receive(opcode) {
        REMOTE_INVALID
    } else {
        REMOTE_ACCESS
    }
}

// Step 6: moves the message, inline bytes or those of entries, to the peer's side or, for a read, back.
fn move_bytes(state: &State, memory: &mut [u8], r: &WorkRequest, far: &[Sge])
    requires ready { Ready state.now memory.old }
    requires carries { Carries (card state.now) r.now.head r.now.inline.now (take r.now.head.count r.now.sges.now) far.now }
    ensures { memory.new ≡ carried (card state.now) r.now.head r.now.inline.now (take r.now.head.count r.now.sges.now) far.now memory.old }
{
    if r.is_inline() {
        transfer::scatter_inline(state, memory, r.inline, far);
    } else if r.head.opcode == READ {
        transfer::transfer(state, memory, far, r.sges);
    } else {
        transfer::transfer(state, memory, r.sges, far);
    }
}

// The receive that a request takes; no entries where it takes none. No Option: taken_row, of which Delivery and Settling speak, is no_record there.
pub fn taken_receive(state: &State, d: usize, opcode: u8) -> ReceiveRecord
    requires { (d < qp_count) × ((row_at waiting_t state.now d).first < most_waiting) }
    ensures { result ≡ taken_row state.now d opcode }
{
    if meet::takes_receive(opcode) {
        return queue::oldest_receive(state, d);
    }
    ReceiveRecord::default()
}

// Steps 5 and 6 of a message of n bytes, of which steps 3 and 4 found no fault: far is the peer's side.
fn deliver_to(
    state: &State,
    memory: &mut [u8],
    e: Ends,
    r: &WorkRequest,
    w: ReceiveRecord,
    n: u32,
    far: &[Sge],
) -> u8
    requires ready { Ready state.now memory.old }
    requires total { total_by r.now.head r.now.sges.now r.now.inline.now ≡ n }
    requires side { OwnSide (card state.now) e r.now.head r.now.sges.now n }
    requires fits { (not (fills r.now.head.opcode) || leb n (sge_total (receive_sges w))) ≡ true }
    requires list { far.now ≡ far_list r.now.head w n }
    ensures { Delivery state.now memory.old e r.now.head r.now.sges.now r.now.inline.now w n result memory.new }
{
    let opcode = r.head.opcode;
    if !permit::sges_permitted(state, party_of(e.far), far_mask(opcode), far) {
        return far_fault(opcode);
    }
    move_bytes(state, memory, r, far);
    SUCCESS
}

// Steps 4 to 6 of a message of n bytes, of which step 3 found no fault: the peer's side is the first n bytes of the receive, or the remote range.
fn deliver_far(
    state: &State,
    memory: &mut [u8],
    e: Ends,
    r: &WorkRequest,
    w: ReceiveRecord,
    n: u32,
) -> u8
    requires ready { Ready state.now memory.old × (w.count ≤ 2) }
    requires total { total_by r.now.head r.now.sges.now r.now.inline.now ≡ n }
    requires side { OwnSide (card state.now) e r.now.head r.now.sges.now n }
    ensures { Delivery state.now memory.old e r.now.head r.now.sges.now r.now.inline.now w n result memory.new }
{
    if meet::fills_receive(r.head.opcode) {
        let mut sges = [w.first, w.second];
        let far = &mut sges[..w.count as usize];
        if permit::sges_total(far) < n as u64 {
            return REMOTE_INVALID;
        }
        permit::cut_to(far, n);
        return deliver_to(state, memory, e, r, w, n, far);
    }
    let range = Sge {
        address: r.head.address,
        length: n,
        key: r.head.key,
    };
    deliver_to(state, memory, e, r, w, n, &[range])
}

// Step 6 of a request of one entry and a remote range.
fn move_single(state: &State, memory: &mut [u8], s: SendRecord, a: Sge)
    requires ready { Ready state.now memory.old × (is_single s ≡ true) }
    requires carries { Carries (card state.now) s [] (a ∷ []) (far_list s no_record a.length) }
    ensures { memory.new ≡ carried (card state.now) s [] (a ∷ []) (far_list s no_record a.length) memory.old }
{
    let b = Sge {
        address: s.address,
        length: a.length,
        key: s.key,
    };
    transfer::transfer_between(state, memory, a, b, s.opcode == READ);
}

// Steps 3 to 6 of such a request; no array is made of its one entry.
pub fn deliver_single(state: &State, memory: &mut [u8], e: Ends, s: SendRecord, a: Sge) -> u8
    requires { Ready state.now memory.old × (is_single s ≡ true) }
    ensures { Delivery state.now memory.old e s (a ∷ []) [] no_record a.length result memory.new }
{
    if MOST_MESSAGE < a.length {
        return LOCAL_LENGTH;
    }
    let n = a.length as u64;
    if !permit::range_permitted(
        state,
        party_of(e.own),
        own_mask(s.opcode),
        a.address,
        n,
        a.key,
    ) {
        return LOCAL_PROTECTION;
    }
    if !permit::range_permitted(
        state,
        party_of(e.far),
        far_mask(s.opcode),
        s.address,
        n,
        s.key,
    ) {
        return REMOTE_ACCESS;
    }
    move_single(state, memory, s, a);
    SUCCESS
}

// Steps 3 to 6 of a message of total bytes: the status, and on success the message moved. A status is its number, as in send_status of the rules, in
// Answer::Done and in Completion, between which it is only handed on.
pub fn deliver(
    state: &State,
    memory: &mut [u8],
    e: Ends,
    r: &WorkRequest,
    w: ReceiveRecord,
    total: u64,
) -> u8
    requires ready { Ready state.now memory.old × (w.count ≤ 2) }
    requires total { total_by r.now.head r.now.sges.now r.now.inline.now ≡ total }
    ensures { Delivery state.now memory.old e r.now.head r.now.sges.now r.now.inline.now w total result memory.new }
{
    if (MOST_MESSAGE as u64) < total {
        return LOCAL_LENGTH;
    }
    if !own_permitted(state, party_of(e.own), r) {
        return LOCAL_PROTECTION;
    }
    deliver_far(state, memory, e, r, w, total as u32)
}
