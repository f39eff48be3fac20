// Post send: document 01, "Posting and delivering", up to answer 3; the request that passes is run by the crate delivery.
ghost use Rattle.std.specs.Prelude.{◌≡◌, true, false, not, List, [], ℕ, ◌<◌, eqb, length};
ghost use Rattle.wire.specs.Table.{row_at};
ghost use Rattle.tables.specs.Layout.{state_size, send_head_t};
ghost use Rattle.tables.specs.Limits.{qp_count};
ghost use Rattle.tables.specs.declared.Sge.{Sge};
ghost use Rattle.rules.specs.Call.{Call};
ghost use Rattle.rules.specs.Contract.{Owes};
ghost use Rattle.rules.specs.Send.{delivery_checks};
ghost use Rattle.dma.specs.Moves.{Ready};
ghost use Rattle.delivery.specs.Asked.{asked};
ghost use Rattle.delivery.specs.Meet.{Sender};
ghost use Rattle.delivery.specs.Request.{Bounded};
ghost use Rattle.delivery.specs.Run.{request_by, Ran};

use delivery::meet;
use delivery::request::WorkRequest;
use rules::Answer;
use tables::limits::{ERROR, QP_COUNT, RTS};
use tables::refusal::Refusal;
use tables::rows::State;
use tables::{QueuePair, SendRecord, WorkQueue, records, rows};
use validate::live;

// 02, M-108: "A direct send answers 10 .. while its QP's queue isn't empty"
fn is_queued(state: &State, q: usize) -> bool
    requires { q < qp_count }
    ensures { result ≡ not (eqb (row_at send_head_t state.now q).count 0) }
{
    let h = rows::load_head(state, WorkQueue::Send, q);
    h.count != 0
}

// A request on the queue pair q in error, whose row is own: 10, or the request flushed.
fn direct_error(state: &mut State, q: usize, own: QueuePair, s: SendRecord) -> Answer
    requires { Sender state.old q own × (own.state ≡ 6) }
    ensures { (sges : List Sge) (b m : List ℕ) → Ran delivery_checks state.old q (request_by s sges b) m result state.new m }
{
    if is_queued(state, q) {
        return Refusal::InUse.into();
    }
    delivery::flush(state, q, own, s)
}

// "QP 2; QP not in RTS 3", 10, and then the request run on the queue pair.
fn direct(state: &mut State, memory: &mut [u8], qpn: u32, r: &WorkRequest) -> Answer
    requires { Ready state.old memory.old × Bounded r.now.head r.now.inline.now }
    ensures { Ran delivery_checks state.old qpn (asked r.now) memory.old result state.new memory.new }
{
    let q = qpn as usize;
    if QP_COUNT <= q {
        return Refusal::NotLive.into();
    }
    if !meet::is_live(state, q) {
        return Refusal::NotLive.into();
    }
    let own = rows::load_qp(state, q);
    if own.state == ERROR {
        return direct_error(state, q, own, r.head);
    }
    if own.state != RTS {
        return Refusal::WrongState.into();
    }
    if is_queued(state, q) {
        return Refusal::InUse.into();
    }
    delivery::run(state, memory, q, own, r)
}

// Post send: the state's and the memory's tests, the record's, and then the request that it is.
pub fn post_send(state: &mut [u8], memory: &mut [u8], qpn: u32, sent: &[u8]) -> Answer
    ensures { Owes state.old (Call.send qpn sent.now memory.old) result state.new memory.new [] }
{
    let Some(state) = live::acceptable(state) else {
        return Refusal::BadState.into();
    };
    if memory.len() as u64 != rows::load_memory(state) {
        return Refusal::OtherMemory.into();
    }
    match records::read_send(sent) {
        Ok(s) => {
            let sges = records::send_sges(sent);
            let r = WorkRequest::new(s, &sges, records::inline_bytes(sent));
            direct(state, memory, qpn, &r)
        }
        Err(reason) => Answer::from(reason),
    }
}
