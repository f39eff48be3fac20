// Queued sends in the lent state. Definitions: specs/Queue.antt.
ghost use Rattle.std.specs.Prelude.{◌≡◌, ◌<◌, ◌≤◌, length};
ghost use Rattle.wire.specs.Table.{row_at};
ghost use Rattle.tables.specs.Layout.{state_size, queued_count, send_head_t};
ghost use Rattle.tables.specs.Limits.{qp_count, most_queued, record_size};
ghost use Rattle.tables.specs.Queue.{place_bytes, queue_bytes, oldest_send};
ghost use Rattle.tables.specs.Records.{kind_of, sent_in};

use crate::limits::MOST_QUEUED;
use crate::rows::State;
use crate::{SendKind, SendRecord, WaitingHead, WorkQueue, records, rows};

// The numbers of a record that stand in the column of the queued sends.
impl From<SendRecord> for SendKind {
    ghost from_gives = { λ s k. k ≡ kind_of s };

    fn from(s: SendRecord) -> SendKind {
        SendKind {
            opcode: s.opcode,
            flags: s.flags,
            count: (s.count % 65536) as u16,
        }
    }
}

// The record `sent` in place p, with its numbers in the column.
fn put_place(state: &mut State, p: usize, sent: &[u8])
    requires { (p < queued_count) × (576 ≤ length sent.now) × (length sent.now ≤ record_size) }
    ensures { state.new ≡ place_bytes state.old p sent.now }
{
    rows::store_record(state, p, sent);
    rows::store_kind(state, p, records::send_head(sent).into());
}

// The record `sent` as the newest of queue pair q's queue. Apart from queue::post_receive, which stores a value.
pub fn push_send(state: &mut State, q: usize, sent: &[u8])
    requires q_lt_qp_count { (q < qp_count) × ((row_at send_head_t state.old q).count < most_queued) }
    requires in_bounds { (576 ≤ length sent.now) × (length sent.now ≤ record_size) }
    ensures { state.new ≡ queue_bytes state.old q sent.now }
{
    let h = rows::load_head(state, WorkQueue::Send, q);
    let at = wire::ring_place(MOST_QUEUED, h.first as usize, h.count as usize);
    put_place(state, MOST_QUEUED * q + at, sent);
    let next = WaitingHead {
        count: h.count + 1,
        ..h
    };
    rows::store_head(state, WorkQueue::Send, q, next);
}

// The opcode of the oldest queued send of queue pair q.
pub fn first_opcode(state: &State, q: usize) -> u8
    requires { (q < qp_count) × ((row_at send_head_t state.now q).first < most_queued) }
    ensures { result ≡ (oldest_send state.now q).kind.opcode }
{
    let h = rows::load_head(state, WorkQueue::Send, q);
    let k = rows::load_kind(state, MOST_QUEUED * q + h.first as usize);
    k.opcode
}

// The oldest queued send of queue pair q: its numbers, and its record copied out, so that the state can be written while it is
// read.
pub fn first_send(state: &State, q: usize, out: &mut [u8]) -> SendRecord
    requires q_lt_qp_count { (q < qp_count) × ((row_at send_head_t state.now q).first < most_queued) }
    requires out_len { length out.old ≡ record_size }
    ensures { (result ≡ sent_in (oldest_send state.now q)) × (out.new ≡ (oldest_send state.now q).body) }
{
    let h = rows::load_head(state, WorkQueue::Send, q);
    let at = MOST_QUEUED * q + h.first as usize;
    rows::load_record(state, at, out);
    let s = records::send_head(out);
    let k = rows::load_kind(state, at);
    SendRecord {
        opcode: k.opcode,
        flags: k.flags,
        count: k.count as u32,
        ..s
    }
}
