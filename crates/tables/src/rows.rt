// The tables in the lent state: each object's rows read and written by value. Layout: specs/Layout.antt and docs/STATE.md. Each row has a
// layout of its own. That a row's number is below the table's count is a clause: a type for each kind of number would be made at every use.
ghost use Rattle.std.specs.Prelude.{◌≡◌, ◌<◌, ◌≤◌, ◌+◌, length};
ghost use Rattle.wire.specs.Parts.{part_at, put_part};
ghost use Rattle.wire.specs.Table.{row_at, put_row};
ghost use Rattle.tables.specs.Limits.{cq_count, mr_count, qp_count, record_size};
ghost use Rattle.tables.specs.Layout.{state_size, receive_count, entry_count, page_count, queued_count, memory_t, turn_t, flags_of, count_of, cq_t, entry_t, mr_t, page_t, qp_t, heads_of, places_of, receive_t, kind_t, record_p};

use crate::limits::{
    CQ_COUNT, MOST_PAGES, MOST_PLACES, MOST_QUEUED, MOST_WAITING, MR_COUNT, PD_COUNT, QP_COUNT,
    RECORD_SIZE,
};
use crate::{
    Completion, Kind, QueueHead, QueuePair, ReceiveRecord, Region, SendKind, WaitingHead,
    WorkQueue, records,
};

// ---- where each table begins

pub const MEMORY: usize = 0;

pub const TURN: usize = MEMORY + 8;

pub const PD_FLAGS: usize = MEMORY + 16;

pub const CQ_FLAGS: usize = PD_FLAGS + PD_COUNT;

pub const CQS: usize = CQ_FLAGS + CQ_COUNT;

pub const CQ_SIZE: usize = 4;

pub const ENTRIES: usize = CQS + CQ_COUNT * CQ_SIZE;

pub const ENTRY_SIZE: usize = 24;

pub const MR_FLAGS: usize = ENTRIES + CQ_COUNT * MOST_PLACES * ENTRY_SIZE;

pub const MRS: usize = MR_FLAGS + MR_COUNT;

pub const MR_SIZE: usize = 32;

pub const PAGES: usize = MRS + MR_COUNT * MR_SIZE;

pub const PAGE_NUMBER: usize = 2;

pub const QP_FLAGS: usize = PAGES + MR_COUNT * MOST_PAGES * PAGE_NUMBER;

pub const QPS: usize = QP_FLAGS + QP_COUNT;

pub const QP_SIZE: usize = 8;

pub const WAITING: usize = QPS + QP_COUNT * QP_SIZE;

pub const WAITING_SIZE: usize = 2;

pub const RECEIVES: usize = WAITING + QP_COUNT * WAITING_SIZE;

pub const RECEIVE_SIZE: usize = 56;

pub const SENDS: usize = RECEIVES + QP_COUNT * MOST_WAITING * RECEIVE_SIZE;

pub const KINDS: usize = SENDS + QP_COUNT * WAITING_SIZE;

pub const KIND_SIZE: usize = 4;

pub const RECORDS: usize = KINDS + QP_COUNT * MOST_QUEUED * KIND_SIZE;

pub const STATE_SIZE: usize = RECORDS + QP_COUNT * MOST_QUEUED * RECORD_SIZE;

// The lent state.
pub type State = [u8; STATE_SIZE];

// ---- the memory length given at reset

pub fn load_memory(state: &State) -> u64
    ensures { result ≡ row_at memory_t state.now 0 }
{
    wire::get(state, MEMORY)
}

pub fn store_memory(state: &mut State, r: u64)
    ensures { state.new ≡ put_row memory_t state.old 0 r }
{
    wire::put(state, MEMORY, r);
}

// ---- the queue pair that a turn visits first

pub fn load_turn(state: &State) -> u8
    ensures { result ≡ row_at turn_t state.now 0 }
{
    wire::get(state, TURN)
}

pub fn store_turn(state: &mut State, r: u8)
    ensures { state.new ≡ put_row turn_t state.old 0 r }
{
    wire::put(state, TURN, r);
}

// ---- live flags: 1 where the object is live

impl Kind {
    // Where its flags begin.
    fn flags(self) -> usize
        ensures { result ≡ (flags_of self).base }
    {
        match self {
            Kind::Pd => PD_FLAGS,
            Kind::Cq => CQ_FLAGS,
            Kind::Mr => MR_FLAGS,
            Kind::Qp => QP_FLAGS,
        }
    }

    // How many there are.
    pub fn count(self) -> usize
        ensures { result ≡ count_of self }
    {
        match self {
            Kind::Pd => PD_COUNT,
            Kind::Cq => CQ_COUNT,
            Kind::Mr => MR_COUNT,
            Kind::Qp => QP_COUNT,
        }
    }
}

pub fn load_flag(state: &State, kind: Kind, n: usize) -> u8
    requires { n < count_of kind }
    ensures { result ≡ row_at (flags_of kind) state.now n }
{
    wire::get(state, kind.flags() + n)
}

pub fn store_flag(state: &mut State, kind: Kind, n: usize, r: u8)
    requires { n < count_of kind }
    ensures { state.new ≡ put_row (flags_of kind) state.old n r }
{
    wire::put(state, kind.flags() + n, r);
}

// ---- completion queues

pub fn load_cq(state: &State, n: usize) -> QueueHead
    requires { n < cq_count }
    ensures { result ≡ row_at cq_t state.now n }
{
    let at = CQS + n * CQ_SIZE;
    QueueHead {
        places: wire::get(state, at),
        first: wire::get(state, at + 1),
        count: wire::get(state, at + 2),
    }
}

pub fn store_cq(state: &mut State, n: usize, r: QueueHead)
    requires { n < cq_count }
    ensures { state.new ≡ put_row cq_t state.old n r }
{
    wire::put_bytes(state, CQS + n * CQ_SIZE, [r.places, r.first, r.count, 0]);
}

// Completion row n: place k of completion queue q is row 16 q + k.
pub fn load_entry(state: &State, n: usize) -> Completion
    requires { n < entry_count }
    ensures { result ≡ row_at entry_t state.now n }
{
    records::get_completion(state, ENTRIES + n * ENTRY_SIZE)
}

pub fn store_entry(state: &mut State, n: usize, r: Completion)
    requires { n < entry_count }
    ensures { state.new ≡ put_row entry_t state.old n r }
{
    records::put_completion(state, ENTRIES + n * ENTRY_SIZE, r);
}

// ---- regions

pub fn load_mr(state: &State, n: usize) -> Region
    requires { n < mr_count }
    ensures { result ≡ row_at mr_t state.now n }
{
    let at = MRS + n * MR_SIZE;
    let [access, variant, pd, kind] = wire::get_bytes::<4>(state, at);
    Region {
        access,
        variant,
        pd,
        kind,
        start: wire::get(state, at + 8),
        length: wire::get(state, at + 16),
        virt: wire::get(state, at + 24),
    }
}

pub fn store_mr(state: &mut State, n: usize, r: Region)
    requires { n < mr_count }
    ensures { state.new ≡ put_row mr_t state.old n r }
{
    let at = MRS + n * MR_SIZE;
    wire::put_bytes(state, at, [r.access, r.variant, r.pd, r.kind]);
    wire::put(state, at + 8, r.start);
    wire::put(state, at + 16, r.length);
    wire::put(state, at + 24, r.virt);
}

// Page number row n: place k of region slot q is row 16 q + k.
pub fn load_page(state: &State, n: usize) -> u16
    requires { n < page_count }
    ensures { result ≡ row_at page_t state.now n }
{
    wire::get(state, PAGES + n * PAGE_NUMBER)
}

pub fn store_page(state: &mut State, n: usize, r: u16)
    requires { n < page_count }
    ensures { state.new ≡ put_row page_t state.old n r }
{
    wire::put(state, PAGES + n * PAGE_NUMBER, r);
}

// ---- queue pairs

pub fn load_qp(state: &State, n: usize) -> QueuePair
    requires { n < qp_count }
    ensures { result ≡ row_at qp_t state.now n }
{
    let at = QPS + n * QP_SIZE;
    QueuePair {
        pd: wire::get(state, at),
        signal: wire::get(state, at + 1),
        scq: wire::get(state, at + 2),
        rcq: wire::get(state, at + 3),
        state: wire::get(state, at + 4),
        dest: wire::get(state, at + 5),
        rights: wire::get(state, at + 6),
    }
}

pub fn store_qp(state: &mut State, n: usize, r: QueuePair)
    requires { n < qp_count }
    ensures { state.new ≡ put_row qp_t state.old n r }
{
    let at = QPS + n * QP_SIZE;
    wire::put_bytes(
        state,
        at,
        [r.pd, r.signal, r.scq, r.rcq, r.state, r.dest, r.rights, 0],
    );
}

impl WorkQueue {
    // Where its heads begin.
    fn heads(self) -> usize
        ensures { result ≡ (heads_of self).base }
    {
        match self {
            WorkQueue::Receive => WAITING,
            WorkQueue::Send => SENDS,
        }
    }

    // How many places it has.
    pub fn places(self) -> usize
        ensures { result ≡ places_of self }
    {
        match self {
            WorkQueue::Receive => MOST_WAITING,
            WorkQueue::Send => MOST_QUEUED,
        }
    }
}

// Where those of a queue of queue pair n stand.
pub fn load_head(state: &State, queue: WorkQueue, n: usize) -> WaitingHead
    requires { n < qp_count }
    ensures { result ≡ row_at (heads_of queue) state.now n }
{
    let at = queue.heads() + n * WAITING_SIZE;
    WaitingHead {
        first: wire::get(state, at),
        count: wire::get(state, at + 1),
    }
}

pub fn store_head(state: &mut State, queue: WorkQueue, n: usize, r: WaitingHead)
    requires { n < qp_count }
    ensures { state.new ≡ put_row (heads_of queue) state.old n r }
{
    wire::put_bytes(state, queue.heads() + n * WAITING_SIZE, [r.first, r.count]);
}

// Receive row n: place k of queue pair q is row 4 q + k.
pub fn load_receive(state: &State, n: usize) -> ReceiveRecord
    requires { n < receive_count }
    ensures { result ≡ row_at receive_t state.now n }
{
    let at = RECEIVES + n * RECEIVE_SIZE;
    ReceiveRecord {
        wr: wire::get(state, at),
        count: wire::get(state, at + 8),
        first: records::get_sge(state, at + 24),
        second: records::get_sge(state, at + 40),
    }
}

pub fn store_receive(state: &mut State, n: usize, r: ReceiveRecord)
    requires { n < receive_count }
    ensures { state.new ≡ put_row receive_t state.old n r }
{
    let at = RECEIVES + n * RECEIVE_SIZE;
    let a = r.first;
    let b = r.second;
    wire::put(state, at, r.wr);
    wire::put(state, at + 8, r.count);
    records::put_sge(state, at + 24, a);
    records::put_sge(state, at + 40, b);
}

// ---- queued sends

// Queued send n, without its record: place k of queue pair q is row 8 q + k.
pub fn load_kind(state: &State, n: usize) -> SendKind
    requires { n < queued_count }
    ensures { result ≡ row_at kind_t state.now n }
{
    let at = KINDS + n * KIND_SIZE;
    SendKind {
        opcode: wire::get(state, at),
        flags: wire::get(state, at + 1),
        count: wire::get(state, at + 2),
    }
}

pub fn store_kind(state: &mut State, n: usize, r: SendKind)
    requires { n < queued_count }
    ensures { state.new ≡ put_row kind_t state.old n r }
{
    let at = KINDS + n * KIND_SIZE;
    wire::put(state, at, r.opcode);
    wire::put(state, at + 1, r.flags);
    wire::put(state, at + 2, r.count);
}

// The bytes of place n, copied out.
pub fn load_record(state: &State, n: usize, out: &mut [u8])
    requires { (n < queued_count) × (length out.old ≡ record_size) }
    ensures { out.new ≡ part_at record_p state.now n }
{
    wire::copy_bytes(out, 0, state, RECORDS + n * RECORD_SIZE, RECORD_SIZE);
}

// A record as it was lent, stored in place n.
pub fn store_record(state: &mut State, n: usize, sent: &[u8])
    requires { (n < queued_count) × (length sent.now ≤ record_size) }
    ensures { state.new ≡ put_part record_p state.old n sent.now }
{
    wire::copy_bytes(state, RECORDS + n * RECORD_SIZE, sent, 0, sent.len());
}
