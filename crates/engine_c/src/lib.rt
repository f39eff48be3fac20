// The calls of the card for C: each is the function of `engine` of its name, with the same contract, as a library that is linked to C exports its own functions alone.
#![tactic(auto)]

ghost use Rattle.std.specs.Prelude.{[]};
ghost use Rattle.rules.specs.Call.{Call};
ghost use Rattle.rules.specs.Contract.{Exports};

#[unsafe(no_mangle)]
pub extern "C" fn lesungkap_reset(state: &mut [u8], memory: u64) -> u32
    ensures { Exports state.old (Call.reset memory) result state.new [] [] }
{
    engine::lesungkap_reset(state, memory)
}

#[unsafe(no_mangle)]
pub extern "C" fn lesungkap_control(state: &mut [u8], command: &[u8], ack: &mut [u8]) -> u32
    ensures { Exports state.old (Call.control command.now ack.old) result state.new [] ack.new }
{
    engine::lesungkap_control(state, command, ack)
}

#[unsafe(no_mangle)]
pub extern "C" fn lesungkap_register_pages(
    state: &mut [u8],
    command: &[u8],
    pages: &[u64],
    ack: &mut [u8],
) -> u32
    ensures { Exports state.old (Call.register_pages command.now pages.now ack.old) result state.new [] ack.new }
{
    engine::lesungkap_register_pages(state, command, pages, ack)
}

#[unsafe(no_mangle)]
pub extern "C" fn lesungkap_post_send(
    state: &mut [u8],
    memory: &mut [u8],
    qpn: u32,
    sent: &[u8],
) -> u32
    ensures { Exports state.old (Call.send qpn sent.now memory.old) result state.new memory.new [] }
{
    engine::lesungkap_post_send(state, memory, qpn, sent)
}

#[unsafe(no_mangle)]
pub extern "C" fn lesungkap_post_receive(state: &mut [u8], qpn: u32, posted: &[u8]) -> u32
    ensures { Exports state.old (Call.receive qpn posted.now) result state.new [] [] }
{
    engine::lesungkap_post_receive(state, qpn, posted)
}

#[unsafe(no_mangle)]
pub extern "C" fn lesungkap_flush(state: &mut [u8], qpn: u32) -> u32
    ensures { Exports state.old (Call.flush qpn) result state.new [] [] }
{
    engine::lesungkap_flush(state, qpn)
}

#[unsafe(no_mangle)]
pub extern "C" fn lesungkap_poll(state: &mut [u8], cqn: u32, buffer: &mut [u8]) -> u32
    ensures { Exports state.old (Call.poll cqn buffer.old) result state.new [] buffer.new }
{
    engine::lesungkap_poll(state, cqn, buffer)
}

#[unsafe(no_mangle)]
pub extern "C" fn lesungkap_enqueue(state: &mut [u8], memory: &[u8], qpn: u32, sent: &[u8]) -> u32
    ensures { Exports state.old (Call.enqueue qpn sent.now memory.now) result state.new memory.now [] }
{
    engine::lesungkap_enqueue(state, memory, qpn, sent)
}

#[unsafe(no_mangle)]
pub extern "C" fn lesungkap_turn(state: &mut [u8], memory: &mut [u8]) -> u32
    ensures { Exports state.old (Call.turn memory.old) result state.new memory.new [] }
{
    engine::lesungkap_turn(state, memory)
}
