// The records, read and written by their layouts: specs/Records.antt and specs/Commands.antt.
ghost use Rattle.std.specs.Prelude.{List, ◌∷◌, [], ◌≡◌, ℕ, ◌<◌, ◌≤◌, ◌+◌, ◌^◌, length};
ghost use Rattle.wire.specs.Codec.{decode, encode, put_fields};
ghost use Rattle.wire.specs.Rows.{rows};
ghost use Rattle.tables.specs.Limits.{most_sges};
ghost use Rattle.tables.specs.Commands.{number_codec, register_codec, create_qp_codec, modify_qp_codec, data_read, head_read};
ghost use Rattle.tables.specs.Records.{sge_codec, sge_at, completion_codec, result_fields, receive_read, send_codec, send_read, send_sge, send_bad, send_size, inline_bytes, inline_in};

use crate::limits::{FLAG_BITS, INLINE_FLAG, MOST_INLINE, MOST_RECEIVE_SGES, MOST_SGES, READ};
use crate::refusal::Refusal;
use crate::{Completion, CreateQp, ModifyQp, ReceiveRecord, Registration, SendRecord, Sge};
use std::array;

// A send record's bytes before its scatter/gather entries, and where its inline bytes begin.
const SEND_SIZE: usize = 576;

const INLINE_AT: usize = 48;

// The piece count; with inline, the inline length in its low two bytes.
const COUNT_AT: usize = 560;

const RECEIVE_HEAD: usize = 24;

const CONTROL_CLASS: u8 = 6;

const SGE_SIZE: usize = 16;

// ---- work requests

// The numbers of a send record.
#[tactic(auto, unfolding(crate::specs::Records::send_codec, wire::specs::Codec::fields_at))]
pub fn send_head(request: &[u8]) -> SendRecord
    requires { 576 ≤ length request.now }
    ensures { result ≡ decode send_codec request.now 0 }
{
    SendRecord {
        wr: wire::get(request, 0),
        opcode: wire::get(request, 8),
        flags: wire::get(request, 9),
        imm: wire::get(request, 12),
        address: wire::get(request, 16),
        key: wire::get(request, 24),
        count: wire::get(request, COUNT_AT),
    }
}

// The tests that give answer 4.
pub fn send_bad(s: SendRecord) -> bool
    ensures { result ≡ send_bad s }
{
    let unknown = s.flags & FLAG_BITS != s.flags;
    let inline = s.flags & INLINE_FLAG != 0;
    let long = MOST_INLINE < s.count % 65536;
    let many = MOST_SGES < s.count;
    let bad_inline = inline & ((s.opcode == READ) | long);
    (READ < s.opcode) | unknown | bad_inline | (!inline & many)
}

// The exact length of the record that begins with s.
fn send_size(s: SendRecord) -> usize
    ensures { result ≡ send_size s }
{
    if s.flags & INLINE_FLAG != 0 {
        return SEND_SIZE;
    }
    let count = s.count as usize;
    SEND_SIZE + SGE_SIZE * count
}

// Reads a send record without its inline bytes and scatter/gather entries.
#[tactic(auto, using(crate::proofs::ReadingLaws::send_short, crate::proofs::ReadingLaws::send_refused, crate::proofs::ReadingLaws::send_wrong, crate::proofs::ReadingLaws::send_right))]
pub fn read_send(request: &[u8]) -> Result<SendRecord, Refusal>
    ensures { result ≡ send_read request.now }
{
    if request.len() < SEND_SIZE {
        return Err(Refusal::WrongLength);
    }
    let s = send_head(request);
    if send_bad(s) {
        return Err(Refusal::BadField);
    }
    let size = send_size(s);
    if request.len() != size {
        return Err(Refusal::WrongLength);
    }
    Ok(s)
}

// The inline bytes, as a part of the caller's record.
#[tactic(auto, unfolding(crate::specs::Records::inline_bytes, crate::specs::Records::inline_length))]
pub fn inline_bytes(request: &[u8]) -> &[u8]
    requires { 576 ≤ length request.now }
    ensures { result.now ≡ inline_bytes request.now }
{
    let n = wire::get::<u16>(request, COUNT_AT) as usize;
    wire::part(request, INLINE_AT, n)
}

// The inline bytes of a record whose numbers are s, as a part of it.
pub fn inline_of(request: &[u8], s: SendRecord) -> &[u8]
    ensures { result.now ≡ inline_in s request.now }
{
    wire::part(request, INLINE_AT, (s.count % 65536) as usize)
}

// ---- scatter/gather entries and completions at an offset

#[tactic(auto, unfolding(crate::specs::Records::sge_codec, wire::specs::Codec::fields_at))]
pub fn get_sge(bytes: &[u8], at: usize) -> Sge
    requires { at + 16 ≤ length bytes.now }
    ensures { result ≡ decode sge_codec bytes.now at }
{
    Sge {
        address: wire::get(bytes, at),
        length: wire::get(bytes, at + 8),
        key: wire::get(bytes, at + 12),
    }
}

#[tactic(auto, unfolding(crate::specs::Records::sge_codec, wire::specs::Codec::put_fields))]
pub fn put_sge(bytes: &mut [u8], at: usize, s: Sge)
    requires { at + 16 ≤ length bytes.old }
    ensures { bytes.new ≡ encode sge_codec bytes.old at s }
{
    wire::put(bytes, at, s.address);
    wire::put(bytes, at + 8, s.length);
    wire::put(bytes, at + 12, s.key);
}

#[tactic(auto, unfolding(crate::specs::Records::completion_codec, wire::specs::Codec::fields_at))]
pub fn get_completion(bytes: &[u8], at: usize) -> Completion
    requires { at + 24 ≤ length bytes.now }
    ensures { result ≡ decode completion_codec bytes.now at }
{
    Completion {
        wr: wire::get(bytes, at),
        status: wire::get(bytes, at + 8),
        opcode: wire::get(bytes, at + 9),
        length: wire::get(bytes, at + 12),
        imm: wire::get(bytes, at + 16),
        owner: wire::get(bytes, at + 20),
    }
}

// A completion's bytes after its wr_id: status, opcode and length.
#[tactic(auto, unfolding(wire::specs::Codec::put_fields))]
fn put_result(bytes: &mut [u8], at: usize, c: Completion)
    requires { at + 24 ≤ length bytes.old }
    ensures { bytes.new ≡ put_fields result_fields bytes.old at (c.status ∷ c.opcode ∷ 0 ∷ c.length ∷ []) }
{
    wire::put(bytes, at + 8, c.status);
    wire::put(bytes, at + 9, c.opcode);
    wire::put::<u16>(bytes, at + 10, 0);
    wire::put(bytes, at + 12, c.length);
}

#[tactic(auto, unfolding(crate::specs::Records::completion_codec, wire::specs::Codec::put_fields))]
pub fn put_completion(bytes: &mut [u8], at: usize, c: Completion)
    requires { at + 24 ≤ length bytes.old }
    ensures { bytes.new ≡ encode completion_codec bytes.old at c }
{
    wire::put(bytes, at, c.wr);
    put_result(bytes, at, c);
    wire::put(bytes, at + 16, c.imm);
    wire::put(bytes, at + 20, c.owner);
}

// The scatter/gather entry at an offset; one that the record does not have is nothing.
#[tactic(auto, using(crate::proofs::ReadingLaws::sge_none, crate::proofs::ReadingLaws::sge_some))]
fn sge_at(request: &[u8], at: usize) -> Sge
    requires { at + 16 < 2 ^ 64 }
    ensures { result ≡ sge_at request.now at }
{
    if request.len() < at + SGE_SIZE {
        return Sge {
            address: 0,
            length: 0,
            key: 0,
        };
    }
    get_sge(request, at)
}

// Scatter/gather entry i of a send record.
#[tactic(auto, unfolding(crate::specs::Records::send_sge))]
pub fn send_sge(request: &[u8], i: usize) -> Sge
    requires { i < most_sges }
    ensures { result ≡ send_sge request.now i }
{
    sge_at(request, SEND_SIZE + SGE_SIZE * i)
}

// Every scatter/gather entry of a send record, nothing where it has no more.
#[tactic(auto, unfolding(wire::specs::Rows::rows, wire::specs::Rows::rows_from))]
pub fn send_sges(request: &[u8]) -> [Sge; 4]
    ensures { result ≡ rows most_sges (send_sge request.now) }
{
    array::from_fn(|i| send_sge(request, i))
}

// Reads a receive record.
#[tactic(auto, using(crate::proofs::ReadingLaws::receive_short, crate::proofs::ReadingLaws::receive_many, crate::proofs::ReadingLaws::receive_wrong), unfolding(crate::specs::Records::receive_codec, wire::specs::Codec::fields_at))]
pub fn read_receive(request: &[u8]) -> Result<ReceiveRecord, Refusal>
    ensures { result ≡ receive_read request.now }
{
    if request.len() < RECEIVE_HEAD {
        return Err(Refusal::WrongLength);
    }
    let count = wire::get::<u32>(request, 8);
    if MOST_RECEIVE_SGES < count {
        return Err(Refusal::BadField);
    }
    let size = RECEIVE_HEAD + SGE_SIZE * (count as usize);
    if request.len() != size {
        return Err(Refusal::WrongLength);
    }
    Ok(ReceiveRecord {
        wr: wire::get(request, 0),
        count,
        first: sge_at(request, RECEIVE_HEAD),
        second: sge_at(request, RECEIVE_HEAD + SGE_SIZE),
    })
}

// ---- control commands: the class byte, the command byte, and the data from byte 2 on

// Reads the class and the command byte.
#[tactic(auto, using(crate::proofs::ReadingLaws::head_short, crate::proofs::ReadingLaws::head_class, crate::proofs::ReadingLaws::head_right))]
pub fn read_head(command: &[u8]) -> Result<u8, Refusal>
    ensures { result ≡ head_read command.now }
{
    if command.len() < 2 {
        return Err(Refusal::WrongLength);
    }
    if wire::get::<u8>(command, 0) != CONTROL_CLASS {
        return Err(Refusal::Unknown);
    }
    Ok(wire::get(command, 1))
}

// The data of a command, by its layout.
pub trait CommandData {
    // The command's whole length.
    const LENGTH: usize;

    ghost LENGTH: { ℕ };

    ghost data_in: { List ℕ → Self };

    fn read(command: &[u8]) -> Self
        requires { LENGTH ≤ length command.now }
        ensures { result ≡ data_in command.now };
}

// Reads the data of a command; none where the command has not the length.
pub fn read_data<T: CommandData>(command: &[u8]) -> Option<T>
    ensures { result ≡ data_read T.LENGTH T.data_in command.now }
{
    if command.len() != T::LENGTH {
        return None;
    }
    Some(T::read(command))
}

// One number.
#[tactic(auto, unfolding(crate::specs::Commands::number_codec, wire::specs::Codec::fields_at))]
impl CommandData for u32 {
    const LENGTH: usize = 6;

    ghost LENGTH = { 6 };

    ghost data_in = { λ k. decode number_codec k 2 };

    fn read(command: &[u8]) -> u32 {
        wire::get::<u32>(command, 2)
    }
}

#[tactic(auto, unfolding(crate::specs::Commands::register_codec, wire::specs::Codec::fields_at))]
impl CommandData for Registration {
    const LENGTH: usize = 34;

    ghost LENGTH = { 34 };

    ghost data_in = { λ k. decode register_codec k 2 };

    fn read(command: &[u8]) -> Registration {
        Registration {
            pd: wire::get(command, 2),
            access: wire::get(command, 6),
            start: wire::get(command, 10),
            length: wire::get(command, 18),
            virt: wire::get(command, 26),
        }
    }
}

#[tactic(auto, unfolding(crate::specs::Commands::create_qp_codec, wire::specs::Codec::fields_at))]
impl CommandData for CreateQp {
    const LENGTH: usize = 18;

    ghost LENGTH = { 18 };

    ghost data_in = { λ k. decode create_qp_codec k 2 };

    fn read(command: &[u8]) -> CreateQp {
        CreateQp {
            pd: wire::get(command, 2),
            kind: wire::get(command, 6),
            signal: wire::get(command, 7),
            scq: wire::get(command, 10),
            rcq: wire::get(command, 14),
        }
    }
}

#[tactic(auto, unfolding(crate::specs::Commands::modify_qp_codec, wire::specs::Codec::fields_at))]
impl CommandData for ModifyQp {
    const LENGTH: usize = 22;

    ghost LENGTH = { 22 };

    ghost data_in = { λ k. decode modify_qp_codec k 2 };

    fn read(command: &[u8]) -> ModifyQp {
        ModifyQp {
            qpn: wire::get(command, 2),
            mask: wire::get(command, 6),
            state: wire::get(command, 10),
            pad0: wire::get(command, 11),
            pad1: wire::get(command, 12),
            pad2: wire::get(command, 13),
            dest: wire::get(command, 14),
            flags: wire::get(command, 18),
        }
    }
}
