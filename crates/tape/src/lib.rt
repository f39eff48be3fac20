// The replay tape: reading a record's header, making its call, writing its answer. What a tape means: specs/Tape.antt.
#![tactic(auto)]

pub mod audit;
pub mod input;
pub mod start;
pub mod steps;

ghost use Rattle.std.specs.Prelude.{◌≡◌, true, cond, [], ◌++◌, ◌+◌, ◌*◌, ◌≤◌, length, take, drop};
ghost use Rattle.tables.specs.Card.{Card};
ghost use Rattle.tables.specs.Layout.{state_size};
ghost use Rattle.tables.specs.Commands.{ack_size, command_of};
ghost use Rattle.tables.specs.Reset.{zeros, reset_bytes};
ghost use Rattle.rules.specs.Answer.{is_done};
ghost use Rattle.rules.specs.Call.{Call};
ghost use Rattle.rules.specs.Control.{command_ack};
ghost use Rattle.rules.specs.Lists.{maybe};
ghost use Rattle.tape.specs.Tape.{is_mark, kind_in, is_length, header_of, ack_written, answer_head};
ghost use Rattle.tape.specs.Tape.{answer_record, bad_record, completion_size, call_of, memory_left, tape_ack};
ghost use Rattle.tape.specs.Inside.{placed, Answers};

use rules::Answer;
use rules::verb::Verb;
use tables::refusal::Refusal;

const HEADER: usize = 6;

// The length of a record's body at most.
const MOST_BODY: u16 = 640;

// The length of a card's state.
pub const STATE: usize = tables::rows::STATE_SIZE;

// The length of an answer record at most.
pub const MOST_ANSWER: usize = 135;

// The kinds of record.
#[derive(Clone, Copy)]
pub enum Kind {
    Control,
    Send,
    Receive,
    Poll,
    Flush,
}

// A record by its header: its kind, its number byte and the length of its body.
#[derive(Clone, Copy)]
pub struct Header {
    pub kind: Kind,
    pub number: u8,
    pub length: u16,
}

// Why the first bytes of the input hold no header: a bad one stands there, or less than one.
#[derive(Clone, Copy)]
pub enum HeaderError {
    Bad,
    Cut,
}

// The bytes of a tape that are held, and whether the tape has ended behind them.
#[derive(Clone, Copy)]
pub struct Part<'a> {
    pub bytes: &'a [u8],
    pub ended: bool,
}

// What stands at the front of the input: a whole record, a bad or a cut one, a clean end, or too few bytes to tell.
#[derive(Clone, Copy)]
pub enum Step {
    Whole(Header),
    Fault,
    End,
    More,
}

// What was done about the bytes held: a record, of `used` bytes of the input, was answered by `written` bytes; a fault was
// answered by six, and the tape ends there; the clean end was found; or more bytes are wanted.
#[derive(Clone, Copy)]
pub enum Reply {
    Answered { used: usize, written: usize },
    Fault,
    End,
    More,
}

// What a round of an audit finds: more bytes of the calls or of the answers are wanted; an answer as it is due, of so many
// bytes of each tape; the tapes agree; or they differ, at the record due or so many records later.
#[derive(Clone, Copy)]
pub enum Found {
    Calls,
    Answers,
    Same { calls: usize, answers: usize },
    Agrees,
    Differs { later: u64 },
}

impl TryFrom<u8> for Kind {
    type Error = HeaderError;

    ghost try_from_gives = { λ byte r. r ≡ kind_in byte };

    fn try_from(byte: u8) -> Result<Self, HeaderError> {
        match byte {
            1 => Ok(Kind::Control),
            2 => Ok(Kind::Send),
            3 => Ok(Kind::Receive),
            4 => Ok(Kind::Poll),
            5 => Ok(Kind::Flush),
            _ => Err(HeaderError::Bad),
        }
    }
}

fn is_mark(input: &[u8]) -> bool
    requires { 6 ≤ length input.now }
    ensures { result ≡ is_mark input.now }
{
    input.starts_with(b"RK")
}

// A poll and a flush have no body.
fn is_length(kind: Kind, length: u16) -> bool
    ensures { result ≡ is_length kind length }
{
    match kind {
        Kind::Control | Kind::Send | Kind::Receive => length <= MOST_BODY,
        Kind::Poll | Kind::Flush => length == 0,
    }
}

fn read_header(input: &[u8]) -> Result<Header, HeaderError>
    ensures { result ≡ header_of input.now }
{
    if input.len() < HEADER {
        return Err(HeaderError::Cut);
    }
    let kind = Kind::try_from(wire::get::<u8>(input, 2))?;
    let length = wire::get::<u16>(input, 4);
    let is_good = is_mark(input) & is_length(kind, length);
    if !is_good {
        return Err(HeaderError::Bad);
    }
    let number = wire::get::<u8>(input, 3);
    Ok(Header {
        kind,
        number,
        length,
    })
}

// The six bytes before what an answer record carries.
fn put_head(out: &mut [u8], answer: Answer, size: u16)
    requires { 6 ≤ length out.old }
    ensures { out.new ≡ answer_head answer size ++ drop 6 out.old }
{
    let [low, high] = size.to_le_bytes();
    let answer_number = answer.number();
    let status = answer.status();
    out[..HEADER].copy_from_slice(&[b'r', b'k', answer_number, status, low, high]);
}

// Writes the answer record of a call that wrote these bytes, and returns its length.
fn put_answer(out: &mut [u8], answer: Answer, written: &[u8]) -> usize
    requires { (length written.now ≤ 129) × (135 ≤ length out.old) }
    ensures value { result ≡ length (answer_record answer written.now) }
    ensures out_after { out.new ≡ placed (answer_record answer written.now) out.old }
{
    let size = HEADER + written.len();
    put_head(out, answer, written.len() as u16);
    out[HEADER..size].copy_from_slice(written);
    size
}

// The commands whose acks are more than the ack byte, by the number in a record's second byte.
const QUERY_DEVICE: u8 = Verb::QueryDevice as u8;

const QUERY_PORT: u8 = Verb::QueryPort as u8;

const CREATE_CQ: u8 = Verb::CreateCq as u8;

const CREATE_PD: u8 = Verb::CreatePd as u8;

const REGISTER_MR: u8 = Verb::RegisterMr as u8;

const CREATE_QP: u8 = Verb::CreateQp as u8;

// How many ack bytes a command writes that is answered 0.
fn ack_size(command: &[u8]) -> usize
    requires { 2 ≤ length command.now }
    ensures value { (c : Card) → result ≡ maybe 1 (λ q. ack_size (command_ack c q)) (command_of command.now) }
    ensures upper_bound { result ≤ 129 }
{
    match wire::get::<u8>(command, 1) {
        QUERY_DEVICE => 129,
        QUERY_PORT => 33,
        REGISTER_MR => 13,
        CREATE_CQ | CREATE_PD | CREATE_QP => 5,
        _ => 1,
    }
}

fn ack_written(answer: Answer, command: &[u8]) -> usize
    requires { is_done answer ≡ true → 2 ≤ length command.now }
    ensures value { (c : Card) → result ≡ ack_written answer c command.now }
    ensures upper_bound { result ≤ 129 }
{
    match answer {
        Answer::Done(_) => ack_size(command),
        Answer::Held(_) => 1,
        Answer::Refused(n) => {
            if (n == u8::from(Refusal::ShortBuffer)) | (n == u8::from(Refusal::BadState)) {
                return 0;
            }
            1
        }
    }
}

fn completion_written(answer: Answer) -> usize
    ensures { (result ≡ cond (is_done answer) completion_size 0) × (result ≤ 24) }
{
    match answer {
        Answer::Done(_) => 24,
        Answer::Held(_) => 0,
        Answer::Refused(_) => 0,
    }
}

// ---- the call of a record, with its answer record written; the two that return bytes have a buffer of their own, and `out` is lent, as there is
// no heap

fn answer_control(state: &mut [u8], body: &[u8], out: &mut [u8]) -> usize
    requires { 135 ≤ length out.old }
    ensures { Answers (Call.control body.now (zeros tape_ack))
        state.old out.old result state.new out.new }
{
    let mut ack = [0u8; 129];
    let answer = commands::control::control(state, body, &mut ack);
    let n = ack_written(answer, body);
    put_answer(out, answer, &ack[..n])
}

fn answer_poll(state: &mut [u8], number: u8, out: &mut [u8]) -> usize
    requires { 135 ≤ length out.old }
    ensures { Answers (Call.poll number (zeros completion_size))
        state.old out.old result state.new out.new }
{
    let mut buffer = [0u8; 24];
    let answer = queues::poll(state, number as u32, &mut buffer);
    let n = completion_written(answer);
    put_answer(out, answer, &buffer[..n])
}

// Makes the call of a record with this body, writes its answer record and returns its length.
fn answer_record(
    state: &mut [u8],
    memory: &mut [u8],
    header: Header,
    body: &[u8],
    out: &mut [u8],
) -> usize
    requires { 135 ≤ length out.old }
    ensures answers { Answers (call_of header.kind header.number body.now memory.old)
        state.old out.old result state.new out.new }
    ensures memory_after { memory.new
        ≡ memory_left state.old memory.old (call_of header.kind header.number body.now memory.old) }
{
    let number = header.number;
    match header.kind {
        Kind::Control => answer_control(state, body, out),
        Kind::Send => {
            let answer = engine::send::post_send(state, memory, number as u32, body);
            put_answer(out, answer, &[])
        }
        Kind::Receive => {
            let answer = queues::post_receive(state, number as u32, body);
            put_answer(out, answer, &[])
        }
        Kind::Poll => answer_poll(state, number, out),
        Kind::Flush => {
            let answer = queues::flush(state, number as u32);
            put_answer(out, answer, &[])
        }
    }
}

// Writes the answer record of a fault, which ends the tape.
fn bad_record(out: &mut [u8])
    requires { 6 ≤ length out.old }
    ensures { out.new ≡ bad_record ++ drop 6 out.old }
{
    put_head(out, Refusal::BadRecord.into(), 0);
}
