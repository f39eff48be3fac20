// What a post send leaves in the state: completions, error states, the receive consumed. Definitions: specs/Settle.antt.
// That a receive has two entries at most is a clause: ReceiveRecord is tables', where any count can stand.
ghost use Rattle.std.specs.Prelude.{◌≡◌, true, false, cond, ◌&&◌, ◌||◌, ◌<◌, ◌≤◌, eqb, length};
ghost use Rattle.wire.specs.Table.{row_at};
ghost use Rattle.tables.specs.Layout.{state_size, cq_t, waiting_t};
ghost use Rattle.tables.specs.Queue.{push_bytes};
ghost use Rattle.tables.specs.Limits.{cq_count, qp_count, most_places, most_message};
ghost use Rattle.tables.specs.State.{no_record};
ghost use Rattle.rules.specs.Send.{sender_opcode, receiver_opcode, consumes};
ghost use Rattle.rules.specs.Bytes.{push_all, error_bytes, consume_bytes};
ghost use Rattle.rules.specs.Touch.{takes};
ghost use Rattle.delivery.specs.Settle.{is_put, sender_entry, receiver_status, put_first, put_second, settled_bytes, Settling};

use crate::meet;
use crate::meet::Ends;
use dma::permit;
use tables::limits::{
    ERROR, FLUSHED, LOCAL_LENGTH, LOCAL_PROTECTION, READ, READ_BACK, RECEIVED, RECEIVED_WRITE,
    REMOTE_INVALID, SEND_IMM, SENT, SIGNALED_FLAG, SUCCESS, WRITE_IMM, WRITTEN,
};
use tables::rows::State;
use tables::{Completion, QueuePair, ReceiveRecord, SendRecord, WorkQueue, queue, rows};

// The opcode of the sender's completion: 0 send, 1 write, 2 read.
fn sender_opcode(opcode: u8) -> u8
    ensures { result ≡ sender_opcode opcode }
{
    if opcode == READ {
        READ_BACK
    } else if meet::fills_receive(opcode) {
        SENT
    } else {
        WRITTEN
    }
}

// The opcode of the receiver's completion.
fn receiver_opcode(opcode: u8) -> u8
    ensures { result ≡ receiver_opcode opcode }
{
    if opcode == WRITE_IMM {
        RECEIVED_WRITE
    } else {
        RECEIVED
    }
}

// The length that a completion of a message of n bytes tells: "the total on success, else 0".
fn told_length(st: u8, n: u64) -> u32
    requires { st ≡ 0 → n ≤ most_message }
    ensures { result ≡ cond (eqb st 0) n 0 }
{
    if st == SUCCESS { n as u32 } else { 0 }
}

// The immediate that the receiver's completion tells: on success that of opcodes 1 and 3, else zero.
fn told_imm(s: SendRecord, st: u8) -> u32
    ensures { result ≡ cond (eqb st 0 && (eqb s.opcode 1 || eqb s.opcode 3)) s.imm 0 }
{
    if (st == SUCCESS) & ((s.opcode == WRITE_IMM) | (s.opcode == SEND_IMM)) {
        s.imm
    } else {
        0
    }
}

// The receiver's status: the message does not fit, or a byte of the receive is not permitted.
fn receiver_status(st: u8, n: u64, w: ReceiveRecord) -> u8
    requires { w.count ≤ 2 }
    ensures { result ≡ receiver_status w st n }
{
    if st == SUCCESS {
        return SUCCESS;
    }
    if permit::sges_total(&[w.first, w.second][..w.count as usize]) < n {
        return LOCAL_LENGTH;
    }
    LOCAL_PROTECTION
}

// A completion of queue pair q's work wr, in completion queue cqn.
pub fn put_work(state: &mut State, cqn: u8, q: usize, wr: u64, opcode: u8, st: u8, told: u32)
    requires { (q < qp_count) × (cqn < cq_count) × ((row_at cq_t state.old cqn).count < most_places) }
    ensures { state.new ≡ push_bytes state.old cqn (sender_entry q wr opcode st told) }
{
    let entry = Completion {
        wr,
        status: st,
        opcode: sender_opcode(opcode),
        length: told,
        imm: 0,
        owner: q as u32,
    };
    queue::push_completion(state, cqn as usize, entry);
}

// Whether the sender's completion is put.
fn is_put(own: QueuePair, s: SendRecord, st: u8) -> bool
    ensures { result ≡ is_put own s st }
{
    (st != SUCCESS) | (own.signal == 0) | (s.flags & SIGNALED_FLAG != 0)
}

// The sender's completion, where one is put.
fn put_sender(state: &mut State, q: usize, own: QueuePair, s: SendRecord, st: u8, n: u64)
    requires q_lt_qp_count { (q < qp_count) × (own.scq < cq_count) × ((row_at cq_t state.old own.scq).count < most_places) }
    requires n_le_most_message { st ≡ 0 → n ≤ most_message }
    ensures { state.new ≡ push_all state.old (put_first q own s st n) }
{
    if is_put(own, s, st) {
        put_work(state, own.scq, q, s.wr, s.opcode, st, told_length(st, n));
    }
}

// The receiver's completion, where the receive is consumed.
fn put_receiver(state: &mut State, e: Ends, s: SendRecord, w: ReceiveRecord, st: u8, n: u64)
    requires d_lt_qp_count { (e.d < qp_count) × (w.count ≤ 2) × (st ≡ 0 → n ≤ most_message) }
    requires rcq_lt_cq_count { consumes s.opcode st ≡ true → (e.far.rcq < cq_count) × ((row_at cq_t state.old e.far.rcq).count < most_places) }
    ensures { state.new ≡ push_all state.old (put_second e s w st n) }
{
    if !is_consumed(s.opcode, st) {
        return;
    }
    let opcode = receiver_opcode(s.opcode);
    let length = told_length(st, n);
    let entry = Completion {
        wr: w.wr,
        status: receiver_status(st, n, w),
        opcode,
        length,
        imm: told_imm(s, st),
        owner: e.d as u32,
    };
    queue::push_completion(state, e.far.rcq as usize, entry);
}

// A receive is consumed by opcodes 1 to 3 on success, and where it does not take the message.
fn is_consumed(opcode: u8, st: u8) -> bool
    ensures { result ≡ consumes opcode st }
{
    meet::takes_receive(opcode) & ((st == SUCCESS) | (st == REMOTE_INVALID))
}

// Queue pair q goes to error, where b holds. The test is an argument, here and in consume_if, as in error_bytes and consume_bytes of the rules.
fn fail_if(state: &mut State, b: bool, q: usize)
    requires { q < qp_count }
    ensures { state.new ≡ error_bytes b state.old q }
{
    if b {
        let p = rows::load_qp(state, q);
        rows::store_qp(state, q, QueuePair { state: ERROR, ..p });
    }
}

// The oldest receive of queue pair q is consumed, where b holds.
fn consume_if(state: &mut State, b: bool, q: usize)
    requires { (q < qp_count) × (b ≡ true → 0 < (row_at waiting_t state.old q).count) }
    ensures { state.new ≡ consume_bytes b state.old q }
{
    if b {
        queue::drop_oldest(state, WorkQueue::Receive, q);
    }
}

// What a delivery with a status leaves in the state: its completions, the sender's error, the receive consumed, the peer's error.
pub fn settle(state: &mut State, e: Ends, s: SendRecord, w: ReceiveRecord, st: u8, n: u64)
    requires { Settling state.old e s w st n }
    ensures { state.new ≡ settled_bytes state.old e s w st n }
{
    put_sender(state, e.q, e.own, s, st, n);
    put_receiver(state, e, s, w, st, n);
    fail_if(state, (st != SUCCESS) & (st != FLUSHED), e.q);
    consume_if(state, is_consumed(s.opcode, st), e.d);
    fail_if(state, st == REMOTE_INVALID, e.d);
}

// What is left of that by a request that takes no receive: no byte where it succeeds silently. Apart from settle, by which a write of 64 bytes took
// 9.1 % more instructions (bench/instructions).
pub fn settle_single(state: &mut State, e: Ends, s: SendRecord, st: u8, n: u64)
    requires { Settling state.old e s no_record st n × (takes s.opcode ≡ false) × (eqb st 7 ≡ false) }
    ensures { state.new ≡ settled_bytes state.old e s no_record st n }
{
    if is_put(e.own, s, st) {
        put_work(
            state,
            e.own.scq,
            e.q,
            s.wr,
            s.opcode,
            st,
            told_length(st, n),
        );
        fail_if(state, (st != SUCCESS) & (st != FLUSHED), e.q);
    }
}
