// Why a call is refused: document 01's answer numbers. Holds, 5 and 6, are no refusals.
ghost use Rattle.std.specs.Prelude.{◌≡◌};
ghost use Rattle.tables.specs.Refusal.{refusal_number};

#[derive(Clone, Copy, PartialEq, Eq, Debug)]
pub enum Refusal {
    // "record length wrong"
    WrongLength = 1,
    // "number not live"
    NotLive = 2,
    // "wrong QP state or move"
    WrongState = 3,
    // "bad field"
    BadField = 4,
    // "lent memory's length isn't the reset length"
    OtherMemory = 7,
    // "table or receive queue full"
    Full = 8,
    // "nothing there"
    NothingThere = 9,
    // "in use"
    InUse = 10,
    // "range"
    BadRange = 11,
    // "answer buffer too short"
    ShortBuffer = 12,
    // "unknown class or command"
    Unknown = 13,
    // "bad tape record (program only)"
    BadRecord = 14,
    // "lent card state not acceptable"
    BadState = 15,
}

impl From<Refusal> for u8 {
    ghost from_gives = { λ r n. n ≡ refusal_number r };

    fn from(reason: Refusal) -> u8 {
        reason as u8
    }
}
