// A request run on a queue pair: document 01, "Posting and delivering", steps 1 to 6; 02, M-103, the flush of one in error. Definitions:
// specs/Run.antt.
#![tactic(auto)]

ghost use Rattle.std.specs.Prelude.{◌≡◌, true, false};
ghost use Rattle.tables.specs.State.{card};
ghost use Rattle.rules.specs.Send.{hold_checks};
ghost use Rattle.dma.specs.Moves.{Ready};
ghost use Rattle.delivery.specs.Meet.{Sender, is_free};
ghost use Rattle.delivery.specs.Deliver.{is_single};
ghost use Rattle.delivery.specs.Asked.{asked};
ghost use Rattle.delivery.specs.Request.{Bounded};
ghost use Rattle.delivery.specs.Run.{Met, Carried, CarriedOne, Ran, Flushed};

use meet::Ends;
use request::WorkRequest;
use rules::{Answer, Cause};
use tables::limits::{ERROR, FLUSHED};
use tables::rows::State;
use tables::{QueuePair, SendRecord, Sge, rows};

pub mod deliver;
pub mod meet;
pub mod request;
pub mod settle;

// Steps 3 to 6 of a write or a read of one entry, without a list of entries. Apart from carry_out, by which a write of 64 bytes took 18.6 %
// more instructions (bench/instructions).
fn carry_single(state: &mut State, memory: &mut [u8], e: Ends, s: SendRecord, a: Sge) -> u8
    requires ready { Ready state.old memory.old }
    requires s_value { (is_single s ≡ true) × Met state.old e s.opcode }
    ensures { CarriedOne state.old e.q s a memory.old result state.new memory.new }
{
    let st = deliver::deliver_single(state, memory, e, s, a);
    settle::settle_single(state, e, s, st, a.length as u64);
    st
}

// Steps 3 to 6 of any request: the status, and all that the request leaves.
fn carry_out(state: &mut State, memory: &mut [u8], e: Ends, r: &WorkRequest) -> u8
    requires ready { Ready state.old memory.old }
    requires met { Met state.old e r.now.head.opcode }
    requires bounded { Bounded r.now.head r.now.inline.now }
    ensures { Carried state.old e.q (asked r.now) memory.old result state.new memory.new }
{
    let total = r.total();
    let w = deliver::taken_receive(state, e.d, r.head.opcode);
    let st = deliver::deliver(state, memory, e, r, w, total);
    settle::settle(state, e, r.head, w, st, total);
    st
}

// A request of queue pair q, whose row is own and which is not in error: what holds it, or the request carried out. The state
// and the memory are no one struct: C lends them apart, and most calls have the state alone.
pub fn run(
    state: &mut State,
    memory: &mut [u8],
    q: usize,
    own: QueuePair,
    r: &WorkRequest,
) -> Answer
    requires { Ready state.old memory.old × Sender state.old q own × (own.state ≡ 6 → ⊥) × Bounded r.now.head r.now.inline.now }
    ensures { Ran hold_checks state.old q (asked r.now) memory.old result state.new memory.new }
{
    let e = match meet::meet(state, q, own, r.head.opcode) {
        Ok(e) => e,
        Err(a) => return a,
    };
    if r.is_single() {
        return Answer::Done(carry_single(state, memory, e, r.head, r.sges[0]));
    }
    Answer::Done(carry_out(state, memory, e, r))
}

// A request of queue pair q, whose row is own and which is in error: what holds it, or the request flushed.
pub fn flush(state: &mut State, q: usize, own: QueuePair, s: SendRecord) -> Answer
    requires { Sender state.old q own × (own.state ≡ 6) }
    ensures { Flushed state.old q s result state.new }
{
    if !meet::has_place(state, own) {
        return Answer::Held(Cause::Place);
    }
    settle::put_work(state, own.scq, q, s.wr, s.opcode, FLUSHED, 0);
    Answer::Done(FLUSHED)
}

// A request of queue pair q, which is live, that nothing holds: carried out, or flushed where it is in error. A second way to carry_out beside run, whose
// machine code a second caller of run would make slower.
pub fn finish(state: &mut State, memory: &mut [u8], q: usize, r: &WorkRequest) -> u8
    requires { Ready state.old memory.old × (((card state.old).qp q).live ≡ true) × (is_free state.old q r.now.head.opcode ≡ true) × Bounded r.now.head r.now.inline.now }
    ensures { Carried state.old q (asked r.now) memory.old result state.new memory.new }
{
    let own = rows::load_qp(state, q);
    if own.state == ERROR {
        settle::put_work(state, own.scq, q, r.head.wr, r.head.opcode, FLUSHED, 0);
        return FLUSHED;
    }
    let d = own.dest as usize;
    let far = rows::load_qp(state, d);
    let e = Ends { q, own, d, far };
    carry_out(state, memory, e, r)
}
