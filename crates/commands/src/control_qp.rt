// Control commands of queue pairs: document 01, "Control commands". Rules: rules/specs/Control.antt; contracts: specs/Control.antt.
ghost use Rattle.std.specs.Prelude.{◌≡◌, true, false, ◌<◌, length};
ghost use Rattle.validate.specs.Search.{free_qpn};
ghost use Rattle.tables.specs.State.{card};
ghost use Rattle.wire.specs.Table.{put_row};
ghost use Rattle.tables.specs.Layout.{state_size, waiting_t, send_head_t};
ghost use Rattle.tables.specs.Limits.{qp_count};
ghost use Rattle.tables.specs.Commands.{Command};
ghost use Rattle.rules.specs.Bytes.{command_bytes, new_pair, moved_pair, moved_head};
ghost use Rattle.rules.specs.Control.{is_move, rights_after};
ghost use Rattle.commands.specs.Control.{Ran, read_as, create_fine, create_live, modify_bad};

use tables::limits::{ERROR, MOST_ACCESS, QP_COUNT, RESET, RTR, RTS};
use tables::refusal::Refusal;
use tables::rows::State;
use tables::{Ack, CreateQp, Kind, ModifyQp, QueuePair, WaitingHead, WorkQueue, rows};
use validate::{accept, find, live};

// The attribute mask of modify QP: the state, the access flags, and the destination.
const STATE_BIT: u32 = 1;

const RIGHTS_BIT: u32 = 4;

const DEST_BIT: u32 = 32768;

const MASK_BITS: u32 = STATE_BIT + RIGHTS_BIT + DEST_BIT;

// The type and the destination as the record and the row have them: any byte.
const RC: u8 = 2;

const NO_DEST: u8 = 8;

fn create_fine(r: CreateQp) -> bool
    ensures { result ≡ create_fine r }
{
    (r.kind == RC) & (r.signal <= 1)
}

// Whether the objects that a new queue pair names are live.
fn create_live(state: &State, r: CreateQp) -> bool
    ensures { result ≡ create_live (card state.now) r }
{
    let pd = live::is_live(state, Kind::Pd, r.pd);
    let scq = live::is_live(state, Kind::Cq, r.scq);
    let rcq = live::is_live(state, Kind::Cq, r.rcq);
    pd & scq & rcq
}

// No From: its numbers must fit a byte, and a From asks nothing of its caller.
fn new_pair(r: CreateQp) -> QueuePair
    requires { (r.pd < 256) × (r.scq < 256) × (r.rcq < 256) }
    ensures { result ≡ new_pair r }
{
    QueuePair {
        pd: r.pd as u8,
        signal: r.signal,
        scq: r.scq as u8,
        rcq: r.rcq as u8,
        state: RESET,
        dest: NO_DEST,
        rights: 0,
    }
}

// Where the waiting receives and the queued sends of queue pair n stand.
fn store_heads(state: &mut State, n: usize, waiting: WaitingHead, sends: WaitingHead)
    requires { n < qp_count }
    ensures { state.new ≡ put_row send_head_t (put_row waiting_t state.old n waiting) n sends }
{
    rows::store_head(state, WorkQueue::Receive, n, waiting);
    rows::store_head(state, WorkQueue::Send, n, sends);
}

// The free number n is a new queue pair, on which no receive waits and which has no queued send.
fn put_pair(state: &mut State, n: usize, r: CreateQp)
    requires { (n < qp_count) × (n ≡ free_qpn (card state.old)) × (create_live (card state.old) r ≡ true) }
    ensures { state.new ≡ command_bytes state.old (Command.create_qp r) }
{
    let none = WaitingHead { first: 0, count: 0 };
    store_heads(state, n, none, none);
    rows::store_qp(state, n, new_pair(r));
    rows::store_flag(state, Kind::Qp, n, 1);
}

pub fn create_qp(state: &mut State, read: Option<CreateQp>) -> Result<Ack, Refusal>
    ensures { Ran state.old (read_as Command.create_qp read) result state.new }
{
    let r = read.ok_or(Refusal::WrongLength)?;
    if !create_fine(r) {
        return Err(Refusal::BadField);
    }
    if !create_live(state, r) {
        return Err(Refusal::NotLive);
    }
    let n = find::free_qpn(state);
    if QP_COUNT <= n {
        return Err(Refusal::Full);
    }
    put_pair(state, n, r);
    Ok(Ack::Number(n as u32))
}

// The tests of answer 4.
fn modify_bad(r: ModifyQp) -> bool
    ensures { result ≡ modify_bad r }
{
    let unknown = r.mask & MASK_BITS != r.mask;
    let state_bit = r.mask & STATE_BIT != 0;
    let rights_bit = r.mask & RIGHTS_BIT != 0;
    let dest_bit = r.mask & DEST_BIT != 0;
    let state = accept::is_state(r.state);
    let padding = (r.pad0 == 0) & (r.pad1 == 0) & (r.pad2 == 0);
    let ready = r.state == RTR;
    let number = r.dest as usize;
    let dest = (QP_COUNT <= number) | (r.dest == r.qpn);
    let rights = r.flags & (MOST_ACCESS as u32) != r.flags;
    let fields = unknown | !state_bit | !state | !padding;
    let named = fields | (dest_bit & !ready) | (!dest_bit & ready) | (dest_bit & dest);
    named | (rights_bit & rights)
}

fn is_move(from: u8, to: u8) -> bool
    ensures { result ≡ is_move from to }
{
    let next = from as u32 + 1;
    (to == RESET) | (to == ERROR) | ((to as u32 == next) & (to <= RTS))
}

// A queue pair's access flags after a move.
fn rights_after(rights: u8, r: ModifyQp) -> u8
    requires { modify_bad r ≡ false }
    ensures { result ≡ rights_after rights r }
{
    if r.state == RESET {
        return 0;
    }
    if r.mask & RIGHTS_BIT == 0 {
        return rights;
    }
    r.flags as u8
}

fn moved_pair(p: QueuePair, r: ModifyQp) -> QueuePair
    requires { modify_bad r ≡ false }
    ensures { result ≡ moved_pair p r }
{
    let dest = match r.state {
        RESET => NO_DEST,
        RTR => r.dest as u8,
        _ => p.dest,
    };
    QueuePair {
        state: r.state,
        dest,
        rights: rights_after(p.rights, r),
        ..p
    }
}

fn moved_head(h: WaitingHead, to: u8) -> WaitingHead
    ensures { result ≡ moved_head h to }
{
    let count = if to == RESET { 0 } else { h.count };
    WaitingHead { count, ..h }
}

// The live queue pair in the state that it moves to; a move to 0 drops its receives, its queued sends, its destination and its
// access flags.
fn move_pair(state: &mut State, r: ModifyQp)
    requires { (r.qpn < qp_count) × (modify_bad r ≡ false) }
    ensures { state.new ≡ command_bytes state.old (Command.modify_qp r) }
{
    let n = r.qpn as usize;
    let p = rows::load_qp(state, n);
    let w = moved_head(rows::load_head(state, WorkQueue::Receive, n), r.state);
    let s = moved_head(rows::load_head(state, WorkQueue::Send, n), r.state);
    rows::store_qp(state, n, moved_pair(p, r));
    store_heads(state, n, w, s);
}

pub fn modify_qp(state: &mut State, read: Option<ModifyQp>) -> Result<Ack, Refusal>
    ensures { Ran state.old (read_as Command.modify_qp read) result state.new }
{
    let r = read.ok_or(Refusal::WrongLength)?;
    if modify_bad(r) {
        return Err(Refusal::BadField);
    }
    if !live::is_live(state, Kind::Qp, r.qpn) {
        return Err(Refusal::NotLive);
    }
    let p = rows::load_qp(state, r.qpn as usize);
    if !is_move(p.state, r.state) {
        return Err(Refusal::WrongState);
    }
    move_pair(state, r);
    Ok(Ack::Done)
}
