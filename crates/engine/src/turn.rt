// The turn call, 02, M-108: the head of a queue is run as post send would run it. Definitions: rules, specs/Turn.antt.
ghost use Rattle.std.specs.Prelude.{◌≡◌, true, ◌<◌};
ghost use Rattle.validate.specs.Accept.{accepts};
ghost use Rattle.tables.specs.Limits.{qp_count};
ghost use Rattle.tables.specs.State.{card};
ghost use Rattle.rules.specs.Call.{Call};
ghost use Rattle.rules.specs.Contract.{OwesAll};
ghost use Rattle.rules.specs.Answer.{refused};
ghost use Rattle.rules.specs.Turn.{passed_over, head_of, runnable};
ghost use Rattle.dma.specs.Moves.{Ready};
ghost use Rattle.delivery.specs.Run.{Carried};
ghost use Rattle.engine.specs.Turn.{Serves, turn_leaves};

use delivery::meet;
use delivery::request::WorkRequest;
use rules::Answer;
use tables::limits::QP_COUNT;
use tables::refusal::Refusal;
use tables::rows::State;
use tables::{WorkQueue, queue, records, rows, sends};
use validate::live;

// A turn's answer, and the queue pair that it served; 0 where it served none: turn_leaves takes both, as C has them.
#[derive(Clone, Copy)]
pub struct Turned {
    pub answer: Answer,
    pub qpn: u32,
}

fn refused(reason: Refusal) -> Turned
    ensures { result ≡ record { answer = refused reason; qpn = 0 } }
{
    Turned {
        answer: reason.into(),
        qpn: 0,
    }
}

// Whether queue pair q has a queue whose head isn't held.
fn can_run(state: &State, q: usize) -> bool
    requires { (accepts state.now ≡ true) × (q < qp_count) }
    ensures { result ≡ runnable (card state.now) q }
{
    if !meet::is_live(state, q) {
        return false;
    }
    let h = rows::load_head(state, WorkQueue::Send, q);
    if h.count == 0 {
        return false;
    }
    let opcode = sends::first_opcode(state, q);
    meet::is_free(state, q, opcode)
}

// How many queue pairs a turn passes over that visits them from `next` on; 8 where no head may run, as passed_over has it.
fn first_runnable(state: &State, next: usize) -> usize
    requires { (accepts state.now ≡ true) × (next < qp_count) }
    ensures { result ≡ passed_over next (runnable (card state.now)) }
{
    for i in 0..QP_COUNT {
        if can_run(state, (next + i) % QP_COUNT) {
            return i;
        }
    }
    QP_COUNT
}

// The head of queue pair q's queue, run: its status. The record is copied out, since the state is written while it is read.
fn run_head(state: &mut State, memory: &mut [u8], q: usize) -> u8
    requires { Ready state.old memory.old × (runnable (card state.old) q ≡ true) }
    ensures { Carried state.old q (head_of (card state.old) q) memory.old result
        state.new memory.new }
{
    let mut record = [0u8; 640];
    let s = sends::first_send(state, q, &mut record);
    let sges = records::send_sges(&record);
    let r = WorkRequest::new(s, &sges, records::inline_of(&record, s));
    delivery::finish(state, memory, q, &r)
}

// The head is run and leaves its queue, and the next turn begins after q.
fn serve(state: &mut State, memory: &mut [u8], q: usize) -> u8
    requires { Ready state.old memory.old × (runnable (card state.old) q ≡ true) }
    ensures { Serves state.old q memory.old result state.new memory.new }
{
    let st = run_head(state, memory, q);
    queue::drop_oldest(state, WorkQueue::Send, q);
    rows::store_turn(state, ((q + 1) % QP_COUNT) as u8);
    st
}

// One turn: the first queue pair from the turn place on whose head isn't held is served.
pub fn turn(state: &mut [u8], memory: &mut [u8]) -> Turned
    ensures { OwesAll state.old (Call.turn memory.old)
        (turn_leaves result.answer result.qpn state.new memory.new) × (result.qpn < qp_count) }
{
    let Some(state) = live::acceptable(state) else {
        return refused(Refusal::BadState);
    };
    if memory.len() as u64 != rows::load_memory(state) {
        return refused(Refusal::OtherMemory);
    }
    let next = rows::load_turn(state) as usize;
    let passed = first_runnable(state, next);
    if QP_COUNT <= passed {
        return refused(Refusal::NothingThere);
    }
    let q = (next + passed) % QP_COUNT;
    let st = serve(state, memory, q);
    Turned {
        answer: Answer::Done(st),
        qpn: q as u32,
    }
}
