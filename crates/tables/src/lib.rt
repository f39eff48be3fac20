// The lower part: the records' layouts and the card's tables in the lent state.
#![tactic(auto)]

pub mod limits;
pub mod queue;
pub mod records;
pub mod refusal;
pub mod reset;
pub mod rows;
pub mod sends;

// The kinds of objects.
#[derive(Clone, Copy)]
pub enum Kind {
    Pd,
    Cq,
    Mr,
    Qp,
}

// A scatter/gather entry, document 01's piece: length bytes from the address on, under the key.
#[derive(Clone, Copy, Default)]
pub struct Sge {
    pub address: u64,
    pub length: u32,
    pub key: u32,
}

// A completion; wr is the work request's wr_id, owner the number of the queue pair.
#[derive(Clone, Copy, Default)]
pub struct Completion {
    pub wr: u64,
    pub status: u8,
    pub opcode: u8,
    pub length: u32,
    pub imm: u32,
    pub owner: u32,
}

// A completion queue without its ring: its places, the place of the oldest completion, how many are unread.
#[derive(Clone, Copy)]
pub struct QueueHead {
    pub places: u8,
    pub first: u8,
    pub count: u8,
}

// A completion queue: its ring of entries, the place of the oldest, how many are unread, and its places. A call puts into the ring the
// one entry that it looks at.
#[derive(Clone, Copy)]
pub struct CompletionQueue {
    pub ring: [Completion; 16],
    pub first: usize,
    pub count: usize,
    pub places: usize,
}

// A queue pair: scq and rcq are its send and its receive completion queue; dest 8 is no destination; rights are the access flags that
// remote uses of its memory need.
#[derive(Clone, Copy)]
pub struct QueuePair {
    pub pd: u8,
    pub signal: u8,
    pub scq: u8,
    pub rcq: u8,
    pub state: u8,
    pub dest: u8,
    pub rights: u8,
}

// The two queues of a queue pair: its waiting receives, of 4 places, and its queued sends, of 8.
#[derive(Clone, Copy)]
pub enum WorkQueue {
    Receive,
    Send,
}

// Where those of a queue stand among its places: the oldest, and how many.
#[derive(Clone, Copy)]
pub struct WaitingHead {
    pub first: u8,
    pub count: u8,
}

// A memory region; the variant is the last one that its slot handed out, the kind 0 for a region of adjacent bytes and 1 for one over pages.
#[derive(Clone, Copy)]
pub struct Region {
    pub access: u8,
    pub variant: u8,
    pub pd: u8,
    pub kind: u8,
    pub start: u64,
    pub length: u64,
    pub virt: u64,
}

// A receive record, of at most two scatter/gather entries, both of which the layout holds.
#[derive(Clone, Copy, Default)]
pub struct ReceiveRecord {
    pub wr: u64,
    pub count: u32,
    pub first: Sge,
    pub second: Sge,
}

// A send record without its inline bytes and scatter/gather entries. With the inline flag, the low 16 bits of count are the inline length.
#[derive(Clone, Copy, Default)]
pub struct SendRecord {
    pub wr: u64,
    pub opcode: u8,
    pub flags: u8,
    pub imm: u32,
    pub address: u64,
    pub key: u32,
    pub count: u32,
}

// What answer 15 asks of a queued send; count is its piece count, or with the inline flag its inline length.
#[derive(Clone, Copy)]
pub struct SendKind {
    pub opcode: u8,
    pub flags: u8,
    pub count: u16,
}

// The data of command 7, register MR.
#[derive(Clone, Copy)]
pub struct Registration {
    pub pd: u32,
    pub access: u32,
    pub start: u64,
    pub length: u64,
    pub virt: u64,
}

// The data of command 9, create QP; kind is the paper's type.
#[derive(Clone, Copy)]
pub struct CreateQp {
    pub pd: u32,
    pub kind: u8,
    pub signal: u8,
    pub scq: u32,
    pub rcq: u32,
}

// The data of command 10, modify QP; the paddings must be zero; flags are access flags. Three paddings, and no array: modify_qp_codec
// gives back every value (its law `back`), and the list of an array may have any length.
#[derive(Clone, Copy)]
pub struct ModifyQp {
    pub qpn: u32,
    pub mask: u32,
    pub state: u8,
    pub pad0: u8,
    pub pad1: u8,
    pub pad2: u8,
    pub dest: u32,
    pub flags: u32,
}

// The ack of command 0, query device, in 001's order: what the device is, its work requests, and its objects.
#[derive(Clone, Copy)]
pub struct Device {
    pub caps: DeviceCaps,
    pub work: DeviceWork,
    pub objects: DeviceObjects,
}

// 001's device_cap_flags, max_mr_size, page_size_cap, hw_ver.
#[derive(Clone, Copy)]
pub struct DeviceCaps {
    pub flags: u64,
    pub region: u64,
    pub page: u64,
    pub version: u32,
}

// 001's max_qp_wr, max_send_sge, max_recv_sge, max_sge_rd, max_cqe.
#[derive(Clone, Copy)]
pub struct DeviceWork {
    pub requests: u32,
    pub sends: u32,
    pub receives: u32,
    pub reads: u32,
    pub entries: u32,
}

// 001's max_mr, max_pd, max_qp_rd_atom, max_qp_init_rd_atom, max_ah, local_ca_ack_delay.
#[derive(Clone, Copy)]
pub struct DeviceObjects {
    pub regions: u32,
    pub domains: u32,
    pub responses: u32,
    pub initiations: u32,
    pub handles: u32,
    pub delay: u8,
}

// The ack of command 1, query port: 001's gid_tbl_len, max_msg_sz.
#[derive(Clone, Copy)]
pub struct Port {
    pub gids: u32,
    pub message: u32,
}

// What an ack says: error; OK; OK and a number; OK, a region's number, and its key as lkey and as rkey; OK and what a query reports.
#[derive(Clone, Copy)]
pub enum Ack {
    Error,
    Done,
    Number(u32),
    Keys(u32, u32),
    Device(Device),
    Port(Port),
}
