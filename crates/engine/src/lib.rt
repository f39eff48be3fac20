// The engine: post send, and all of the card's calls for a caller in C.
#![tactic(auto)]

ghost use Rattle.std.specs.Prelude.{[]};
ghost use Rattle.rules.specs.Call.{Call};
ghost use Rattle.rules.specs.Contract.{Exports};

use commands::{control, pages};

pub mod send;
pub mod turn;

// ---- calls from C, each an export of its own: it answers with its number in bits 0 to 7 and its status in bits 8 to 15

#[unsafe(no_mangle)]
pub extern "C" fn lesungkap_reset(state: &mut [u8], memory: u64) -> u32
    ensures { Exports state.old (Call.reset memory) result state.new [] [] }
{
    u32::from(queues::reset(state, memory))
}

#[unsafe(no_mangle)]
pub extern "C" fn lesungkap_control(state: &mut [u8], command: &[u8], ack: &mut [u8]) -> u32
    ensures { Exports state.old (Call.control command.now ack.old) result state.new [] ack.new }
{
    u32::from(control::control(state, command, ack))
}

#[unsafe(no_mangle)]
pub extern "C" fn lesungkap_register_pages(
    state: &mut [u8],
    command: &[u8],
    pages: &[u64],
    ack: &mut [u8],
) -> u32
    ensures { Exports state.old (Call.register_pages command.now pages.now ack.old) result state.new [] ack.new }
{
    u32::from(pages::register_pages(state, command, pages, ack))
}

#[unsafe(no_mangle)]
pub extern "C" fn lesungkap_post_send(
    state: &mut [u8],
    memory: &mut [u8],
    qpn: u32,
    sent: &[u8],
) -> u32
    ensures { Exports state.old (Call.send qpn sent.now memory.old) result state.new memory.new [] }
{
    u32::from(send::post_send(state, memory, qpn, sent))
}

#[unsafe(no_mangle)]
pub extern "C" fn lesungkap_post_receive(state: &mut [u8], qpn: u32, posted: &[u8]) -> u32
    ensures { Exports state.old (Call.receive qpn posted.now) result state.new [] [] }
{
    u32::from(queues::post_receive(state, qpn, posted))
}

#[unsafe(no_mangle)]
pub extern "C" fn lesungkap_flush(state: &mut [u8], qpn: u32) -> u32
    ensures { Exports state.old (Call.flush qpn) result state.new [] [] }
{
    u32::from(queues::flush(state, qpn))
}

#[unsafe(no_mangle)]
pub extern "C" fn lesungkap_poll(state: &mut [u8], cqn: u32, buffer: &mut [u8]) -> u32
    ensures { Exports state.old (Call.poll cqn buffer.old) result state.new [] buffer.new }
{
    u32::from(queues::poll(state, cqn, buffer))
}

#[unsafe(no_mangle)]
pub extern "C" fn lesungkap_enqueue(state: &mut [u8], memory: &[u8], qpn: u32, sent: &[u8]) -> u32
    ensures { Exports state.old (Call.enqueue qpn sent.now memory.now) result state.new memory.now [] }
{
    u32::from(queues::sends::enqueue(state, memory, qpn, sent))
}

// Bits 16 to 23 of its result are the queue pair served.
#[unsafe(no_mangle)]
pub extern "C" fn lesungkap_turn(state: &mut [u8], memory: &mut [u8]) -> u32
    ensures { Exports state.old (Call.turn memory.old) result state.new memory.new [] }
{
    let t = turn::turn(state, memory);
    let a = t.answer;
    u32::from(a) + 65536 * t.qpn
}
