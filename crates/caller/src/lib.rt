// A caller of the nine exported functions. What each promises is what the judge's theorem asks of a call (FromC), on any
// state, and calls in turn on one state are a list of that theorem. An export that promised less would leave this crate
// unproved.
#![tactic(auto)]

ghost use Rattle.std.specs.Prelude.{[], ◌∷◌};
ghost use Rattle.rules.specs.Call.{Call};
ghost use Rattle.judge.specs.Whole.{FromC};
ghost use Rattle.caller.specs.Exchange.{seen, exchange, Answered};

// ---- a function for each export, with the clause `FromC` of its own call

pub fn reset(state: &mut [u8], memory: u64) -> u32
    ensures { FromC state.old (seen (Call.reset memory) result state.new [] []) }
{
    engine::lesungkap_reset(state, memory)
}

pub fn control(state: &mut [u8], command: &[u8], ack: &mut [u8]) -> u32
    ensures { FromC state.old
        (seen (Call.control command.now ack.old) result state.new [] ack.new) }
{
    engine::lesungkap_control(state, command, ack)
}

pub fn register_pages(state: &mut [u8], command: &[u8], pages: &[u64], ack: &mut [u8]) -> u32
    ensures { FromC state.old
        (seen (Call.register_pages command.now pages.now ack.old) result
        state.new [] ack.new) }
{
    engine::lesungkap_register_pages(state, command, pages, ack)
}

pub fn send(state: &mut [u8], memory: &mut [u8], qpn: u32, sent: &[u8]) -> u32
    ensures { FromC state.old
        (seen (Call.send qpn sent.now memory.old) result state.new memory.new []) }
{
    engine::lesungkap_post_send(state, memory, qpn, sent)
}

pub fn enqueue(state: &mut [u8], memory: &[u8], qpn: u32, sent: &[u8]) -> u32
    ensures { FromC state.old
        (seen (Call.enqueue qpn sent.now memory.now) result state.new memory.now []) }
{
    engine::lesungkap_enqueue(state, memory, qpn, sent)
}

pub fn turn(state: &mut [u8], memory: &mut [u8]) -> u32
    ensures { FromC state.old
        (seen (Call.turn memory.old) result state.new memory.new []) }
{
    engine::lesungkap_turn(state, memory)
}

pub fn receive(state: &mut [u8], qpn: u32, posted: &[u8]) -> u32
    ensures { FromC state.old (seen (Call.receive qpn posted.now) result state.new [] []) }
{
    engine::lesungkap_post_receive(state, qpn, posted)
}

pub fn flush(state: &mut [u8], qpn: u32) -> u32
    ensures { FromC state.old (seen (Call.flush qpn) result state.new [] []) }
{
    engine::lesungkap_flush(state, qpn)
}

pub fn poll(state: &mut [u8], cqn: u32, buffer: &mut [u8]) -> u32
    ensures { FromC state.old
        (seen (Call.poll cqn buffer.old) result state.new [] buffer.new) }
{
    engine::lesungkap_poll(state, cqn, buffer)
}

// What the calls of `run` are given, beside the state and the buffers that they change.
#[derive(Clone, Copy)]
pub struct Given<'a> {
    pub size: u64,
    pub command: &'a [u8],
    pub region: &'a [u8],
    pub pages: &'a [u64],
    pub receiver: u32,
    pub posted: &'a [u8],
    pub sender: u32,
    pub sent: &'a [u8],
    pub queued: &'a [u8],
    pub cqn: u32,
}

// What the calls of `run` returned.
#[derive(Clone, Copy)]
pub struct Results {
    pub reset: u32,
    pub control: u32,
    pub pages: u32,
    pub receive: u32,
    pub send: u32,
    pub enqueue: u32,
    pub turn: u32,
    pub flush: u32,
    pub poll: u32,
}

// The nine in turn on one state, which each finds as the last one left it. Post send has one memory, the two calls of send
// queues another. The buffers stay parameters: a clause names what is left behind a `&mut` in a struct by its place alone.
pub fn run(
    state: &mut [u8],
    given: Given<'_>,
    ack: &mut [u8],
    keys: &mut [u8],
    memory: &mut [u8],
    later: &mut [u8],
    buffer: &mut [u8],
) -> Results
    ensures { let g = given.entry in
        Answered state.old (exchange (Call.reset g.size) result.reset [] [])
        (exchange (Call.control g.command.now ack.old) result.control [] ack.new
        ∷ exchange (Call.register_pages g.region.now g.pages.now keys.old) result.pages []
        keys.new
        ∷ exchange (Call.receive g.receiver g.posted.now) result.receive [] []
        ∷ exchange (Call.send g.sender g.sent.now memory.old) result.send memory.new []
        ∷ exchange (Call.enqueue g.sender g.queued.now later.old) result.enqueue later.old []
        ∷ exchange (Call.turn later.old) result.turn later.new []
        ∷ exchange (Call.flush g.receiver) result.flush [] []
        ∷ exchange (Call.poll g.cqn buffer.old) result.poll [] buffer.new
        ∷ [])
        state.new }
{
    Results {
        reset: reset(state, given.size),
        control: control(state, given.command, ack),
        pages: register_pages(state, given.region, given.pages, keys),
        receive: receive(state, given.receiver, given.posted),
        send: send(state, memory, given.sender, given.sent),
        enqueue: enqueue(state, later, given.sender, given.queued),
        turn: turn(state, later),
        flush: flush(state, given.receiver),
        poll: poll(state, given.cqn, buffer),
    }
}
