// Control commands: document 01, "Control commands". Rules: rules/specs/Control.antt; contracts: specs/Control.antt.
ghost use Rattle.std.specs.Prelude.{◌≡◌, true, ◌&&◌, [], ◌<◌, leb, length};
ghost use Rattle.wire.specs.Le.{le_at};
ghost use Rattle.validate.specs.Accept.{access_ok};
ghost use Rattle.validate.specs.Search.{free_cqn, free_mrn};
ghost use Rattle.tables.specs.State.{card};
ghost use Rattle.tables.specs.Layout.{state_size};
ghost use Rattle.tables.specs.Limits.{cq_count, mr_count, most_places};
ghost use Rattle.tables.specs.Commands.{Command, ack_need};
ghost use Rattle.rules.specs.Bytes.{command_bytes, region_bytes};
ghost use Rattle.rules.specs.Call.{Call};
ghost use Rattle.rules.specs.Contract.{Owes};
ghost use Rattle.rules.specs.Control.{new_variant};
ghost use Rattle.rules.specs.Permit.{key_of};
ghost use Rattle.rules.specs.Verb.{verb_number};
ghost use Rattle.commands.specs.Control.{no_data_read, verb_read, Ran, Chosen, Classed, read_as, bare, in_range, outcome_ack};

use crate::{control_qp, destroy, query};
use acks::queries;
use rules::Answer;
use rules::verb::Verb;
use tables::limits::{CQ_COUNT, FLAT, MOST_ADDRESS, MOST_PLACES, MR_COUNT, PD_COUNT};
use tables::refusal::Refusal;
use tables::rows::State;
use tables::{Ack, Kind, QueueHead, Region, Registration, records, rows};
use validate::{find, live, regions};

// "The ack buffer has at least 13 bytes".
pub const ACK_LEAST: usize = 13;

// The class byte and the command byte.
pub const HEAD_SIZE: usize = 2;

// The test of a command without data.
pub fn no_data(command: &[u8]) -> Result<(), Refusal>
    ensures { result ≡ no_data_read command.now }
{
    if command.len() != HEAD_SIZE {
        return Err(Refusal::WrongLength);
    }
    Ok(())
}

// ---- completion queues

fn places_fine(n: u32) -> bool
    ensures { result ≡ (leb 1 n && leb n most_places) }
{
    let places = n as usize;
    (1 <= n) & (places <= MOST_PLACES)
}

// The free number n is a completion queue with no completion.
fn put_queue(state: &mut State, n: usize, places: u8)
    requires { (n < cq_count) × (n ≡ free_cqn (card state.old)) }
    ensures { state.new ≡ command_bytes state.old (Command.create_cq places) }
{
    let head = QueueHead {
        places,
        first: 0,
        count: 0,
    };
    rows::store_cq(state, n, head);
    rows::store_flag(state, Kind::Cq, n, 1);
}

fn create_cq(state: &mut State, read: Option<u32>) -> Result<Ack, Refusal>
    ensures { Ran state.old (read_as Command.create_cq read) result state.new }
{
    let places = read.ok_or(Refusal::WrongLength)?;
    if !places_fine(places) {
        return Err(Refusal::BadField);
    }
    let n = find::free_cqn(state);
    if CQ_COUNT <= n {
        return Err(Refusal::Full);
    }
    put_queue(state, n, places as u8);
    Ok(Ack::Number(n as u32))
}

// ---- domains

fn create_pd(state: &mut State, command: &[u8]) -> Result<Ack, Refusal>
    ensures { Ran state.old (bare Command.create_pd command.now) result state.new }
{
    no_data(command)?;
    let n = find::free_pdn(state);
    if PD_COUNT <= n {
        return Err(Refusal::Full);
    }
    rows::store_flag(state, Kind::Pd, n, 1);
    Ok(Ack::Number(n as u32))
}

// ---- regions

// The tests of answer 11; no sum wraps.
fn in_range(memory: u64, g: Registration) -> bool
    ensures { result ≡ in_range memory g }
{
    let in_memory = wire::sum_within(g.start, g.length, memory);
    let in_space = wire::sum_within(g.virt, g.length, MOST_ADDRESS);
    !(g.length == 0) & in_memory & in_space
}

pub fn key_of(n: usize, variant: u8) -> u32
    requires { n < mr_count }
    ensures { result ≡ key_of n variant }
{
    256 * (n as u32) + variant as u32
}

// The free slot n holds the region, of either kind, under the slot's next variant, which is returned.
pub fn put_region(state: &mut State, n: usize, g: Registration, kind: u8) -> u8
    requires { (n < mr_count) × (n ≡ free_mrn (card state.old)) × (access_ok g.access ≡ true) × ((card state.old).pd g.pd ≡ true) }
    ensures { (result ≡ new_variant (card state.old)) × (state.new ≡ region_bytes state.old kind g) }
{
    let variant = rows::load_mr(state, n).variant + 1;
    // no From: it could not ask that the numbers fit a byte
    let row = Region {
        access: g.access as u8,
        variant,
        pd: g.pd as u8,
        kind,
        start: g.start,
        length: g.length,
        virt: g.virt,
    };
    rows::store_mr(state, n, row);
    rows::store_flag(state, Kind::Mr, n, 1);
    variant
}

// Apart from register_paged, whose tests differ from the third on; what both leave is put_region's.
fn register(state: &mut State, read: Option<Registration>) -> Result<Ack, Refusal>
    ensures { Ran state.old (read_as Command.register read) result state.new }
{
    let g = read.ok_or(Refusal::WrongLength)?;
    if !regions::access_ok(g.access) {
        return Err(Refusal::BadField);
    }
    if !live::is_live(state, Kind::Pd, g.pd) {
        return Err(Refusal::NotLive);
    }
    if !in_range(rows::load_memory(state), g) {
        return Err(Refusal::BadRange);
    }
    let n = find::free_mrn(state);
    if MR_COUNT <= n {
        return Err(Refusal::Full);
    }
    let variant = put_region(state, n, g, FLAT);
    Ok(Ack::Keys(n as u32, key_of(n, variant)))
}

// ---- any command

// The command that a record names.
pub fn read_verb(command: &[u8]) -> Result<Verb, Refusal>
    ensures { result ≡ verb_read command.now }
{
    Verb::try_from(records::read_head(command)?)
}

// The command chooses the reader and the rules: a match, since each arm calls a function of other parameters.
fn run(state: &mut State, command: &[u8], verb: Verb) -> Result<Ack, Refusal>
    requires { verb_number verb ≡ le_at 1 command.now 1 }
    ensures { Chosen state.old command.now result state.new }
{
    match verb {
        Verb::QueryDevice => query::query_device(state, command),
        Verb::QueryPort => query::query_port(state, command),
        Verb::CreateCq => create_cq(state, records::read_data(command)),
        Verb::DestroyCq => destroy::destroy(state, Kind::Cq, records::read_data(command)),
        Verb::CreatePd => create_pd(state, command),
        Verb::DestroyPd => destroy::destroy(state, Kind::Pd, records::read_data(command)),
        Verb::RegisterMr => register(state, records::read_data(command)),
        Verb::DeregisterMr => destroy::destroy(state, Kind::Mr, records::read_data(command)),
        Verb::CreateQp => control_qp::create_qp(state, records::read_data(command)),
        Verb::ModifyQp => control_qp::modify_qp(state, records::read_data(command)),
        Verb::DestroyQp => destroy::destroy(state, Kind::Qp, records::read_data(command)),
    }
}

fn dispatch(state: &mut State, command: &[u8]) -> Result<Ack, Refusal>
    ensures { Classed state.old command.now result state.new }
{
    run(state, command, read_verb(command)?)
}

// The bytes that the ack buffer must have for a command.
fn ack_need(command: &[u8]) -> usize
    ensures { result ≡ ack_need command.now }
{
    let Ok(verb) = read_verb(command) else {
        return ACK_LEAST;
    };
    match verb {
        Verb::QueryDevice => queries::DEVICE_ACK,
        Verb::QueryPort => queries::PORT_ACK,
        _ => ACK_LEAST,
    }
}

// What the ack says of a command.
pub fn ack_of<E: Drop>(outcome: Result<Ack, E>) -> Ack
    ensures { result ≡ outcome_ack outcome }
{
    outcome.unwrap_or(Ack::Error)
}

// A control command: its answer, and what it leaves in the state and in the ack buffer.
pub fn control(state: &mut [u8], command: &[u8], ack: &mut [u8]) -> Answer
    ensures { Owes state.old (Call.control command.now ack.old) result state.new [] ack.new }
{
    let Some(state) = live::acceptable(state) else {
        return Answer::from(Refusal::BadState);
    };
    if ack.len() < ack_need(command) {
        return Answer::from(Refusal::ShortBuffer);
    }
    let outcome = dispatch(state, command);
    acks::write_ack(ack, ack_of(outcome));
    Answer::from(outcome)
}
