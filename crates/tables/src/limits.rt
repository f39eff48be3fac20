// The papers' limits, bits, states, opcodes and statuses, by name. They are numbers, as C lends records and the state with any byte in them: the
// definitions of answers 4 and 15 and of the rules look at each.

// ---- tables and lengths
pub const PD_COUNT: usize = 8;

pub const CQ_COUNT: usize = 8;

pub const MOST_PLACES: usize = 16;

pub const MR_COUNT: usize = 256;

pub const QP_COUNT: usize = 8;

pub const MOST_WAITING: usize = 4;

pub const MOST_QUEUED: usize = 8;

pub const RECORD_SIZE: usize = 640;

pub const MOST_MEMORY: u64 = 16777216;

pub const PAGE_SIZE: u64 = 4096;

pub const MOST_PAGES: usize = 16;

pub const MOST_PAGED: u64 = (MOST_PAGES as u64) * PAGE_SIZE;

pub const MOST_ADDRESS: u64 = 0xffff_ffff_ffff_ffff;

pub const MOST_MESSAGE: u32 = 4096;

pub const MOST_SGES: u32 = 4;

pub const MOST_INLINE: u32 = 512;

pub const MOST_RECEIVE_SGES: u32 = 2;

// ---- access bits
pub const LOCAL_WRITE: u8 = 1;

pub const REMOTE_WRITE: u8 = 2;

pub const REMOTE_READ: u8 = 4;

pub const MOST_ACCESS: u8 = LOCAL_WRITE + REMOTE_WRITE + REMOTE_READ;

// ---- kinds of region
pub const FLAT: u8 = 0;

pub const PAGED: u8 = 1;

// ---- queue pair states
pub const RESET: u8 = 0;

pub const RTR: u8 = 2;

pub const RTS: u8 = 3;

pub const ERROR: u8 = 6;

// ---- opcodes and flags of a send record
pub const WRITE_IMM: u8 = 1;

pub const SEND: u8 = 2;

pub const SEND_IMM: u8 = 3;

pub const READ: u8 = 4;

pub const SIGNALED_FLAG: u8 = 2;

pub const INLINE_FLAG: u8 = 8;

pub const FLAG_BITS: u8 = 15;

// ---- statuses
pub const SUCCESS: u8 = 0;

pub const LOCAL_LENGTH: u8 = 1;

pub const LOCAL_PROTECTION: u8 = 3;

pub const FLUSHED: u8 = 4;

pub const REMOTE_INVALID: u8 = 7;

pub const REMOTE_ACCESS: u8 = 8;

// ---- opcodes of a completion
pub const SENT: u8 = 0;

pub const WRITTEN: u8 = 1;

pub const READ_BACK: u8 = 2;

pub const RECEIVED: u8 = 3;

pub const RECEIVED_WRITE: u8 = 4;
