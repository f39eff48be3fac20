// The state test of queued sends: specs/Accept.antt.
ghost use Rattle.std.specs.Prelude.{◌≡◌, ◌+◌, ◌*◌, ◌<◌, [], length};
ghost use Rattle.wire.specs.Ring.{ring_list};
ghost use Rattle.wire.specs.Scan.{all, all_below};
ghost use Rattle.wire.specs.Table.{row_at};
ghost use Rattle.tables.specs.Layout.{state_size, qp_t};
ghost use Rattle.tables.specs.Limits.{qp_count, most_queued};
ghost use Rattle.tables.specs.Records.{send_bad, sent_in};
ghost use Rattle.tables.specs.State.{pair_at, queued_at, place_at, no_queued};
ghost use Rattle.validate.specs.Accept.{may_queue, queued_ok, sends_ok};
ghost use Rattle.validate.specs.Together.{Enough};

use crate::objects::Pair;
use crate::together;
use tables::limits::{ERROR, MOST_QUEUED, RTS};
use tables::{SendKind, SendRecord, WaitingHead, WorkQueue, records, rows};

// The tests of answer 4, of a queued send's numbers in the column.
fn kind_bad(k: SendKind) -> bool
    ensures { result ≡ send_bad (sent_in (record { kind = k; body = [] })) }
{
    records::send_bad(SendRecord {
        opcode: k.opcode,
        flags: k.flags,
        count: k.count as u32,
        ..SendRecord::default()
    })
}

fn may_queue(s: u8) -> bool
    ensures { result ≡ may_queue s }
{
    s == RTS || s == ERROR
}

impl Pair<'_> {
    // All places, also those that hold nothing, tested together: enough where they pass.
    fn kinds_pass(self) -> bool
        ensures { Enough result (all_below most_queued (λ k. queued_ok (place_at self.entry.state.now (most_queued * self.entry.n + k)))) }
    {
        !together::any_number(MOST_QUEUED, |k| {
            kind_bad(rows::load_kind(self.state, MOST_QUEUED * self.n + k))
        })
    }

    // The queued records; h is the queue's head.
    fn records_ok(self, h: WaitingHead) -> bool
        requires { h.first < most_queued }
        ensures { result ≡ all queued_ok (ring_list no_queued most_queued (queued_at self.entry.state.now self.entry.n) h.first h.count) }
    {
        self.kinds_pass()
            || together::ring_passes(MOST_QUEUED, h.first, h.count, |k| {
                !kind_bad(rows::load_kind(self.state, MOST_QUEUED * self.n + k))
            })
    }

    // The queued sends of the pair, whose state is s; an empty queue is its head alone.
    #[tactic(auto, unfolding(tables::specs::State::pair_at))]
    pub fn sends_ok(self, s: u8) -> bool
        requires { s ≡ (row_at qp_t self.state.now self.n).state }
        ensures { result ≡ sends_ok (pair_at self.entry.state.now self.entry.n) }
    {
        let h = rows::load_head(self.state, WorkQueue::Send, self.n);
        let first = h.first as usize;
        let count = h.count as usize;
        first < MOST_QUEUED
            && (count == 0 || count <= MOST_QUEUED && may_queue(s) && self.records_ok(h))
    }
}
