// Registration over a page list: document 02, M-105. Rules: rules/specs/Pages.antt; contracts: specs/Pages.antt.
ghost use Rattle.std.specs.Prelude.{◌≡◌, true, [], ◌<◌, ◌≤◌, length};
ghost use Rattle.tables.specs.Layout.{state_size};
ghost use Rattle.tables.specs.Limits.{mr_count, most_pages, most_memory};
ghost use Rattle.validate.specs.Accept.{accepts};
ghost use Rattle.rules.specs.Call.{Call};
ghost use Rattle.rules.specs.Contract.{Owes};
ghost use Rattle.rules.specs.Bytes.{put_pages};
ghost use Rattle.rules.specs.Pages.{entry_ok, entries_ok};
ghost use Rattle.commands.specs.Pages.{count_ok, in_pages, Listed, Recorded};

use crate::control;
use crate::control::ACK_LEAST;
use rules::Answer;
use rules::verb::Verb;
use tables::limits::{MOST_ADDRESS, MOST_PAGED, MOST_PAGES, MR_COUNT, PAGE_SIZE, PAGED};
use tables::refusal::Refusal;
use tables::rows::State;
use tables::{Ack, Kind, Registration, records, rows};
use validate::{find, live, regions};

// ---- the list

// Whether an entry of the list is a page's first byte, with the whole page inside the memory; the sum does not wrap.
fn entry_ok(memory: u64, entry: u64) -> bool
    ensures { result ≡ entry_ok memory entry }
{
    let inside = wire::sum_within(entry, PAGE_SIZE, memory);
    (entry % PAGE_SIZE == 0) & inside
}

fn entries_ok(memory: u64, pages: &[u64]) -> bool
    ensures { result ≡ entries_ok memory pages.now }
{
    pages.iter().all(|page| entry_ok(memory, *page))
}

// Whether the list has exactly the pages that the region needs, at most 16; no sum wraps.
fn count_ok(g: Registration, pages: &[u64]) -> bool
    ensures { result ≡ count_ok g pages.now }
{
    if !wire::sum_within(g.start, g.length, MOST_PAGED) {
        return false;
    }
    pages.len() as u64 == regions::pages_needed(g.start, g.length)
}

// The tests of answer 11; no sum wraps.
fn in_pages(memory: u64, g: Registration, pages: &[u64]) -> bool
    ensures { result ≡ in_pages memory g pages.now }
{
    let in_space = wire::sum_within(g.virt, g.length, MOST_ADDRESS);
    let in_first = !(PAGE_SIZE <= g.start);
    let counted = count_ok(g, pages);
    if !(!(g.length == 0) & in_space & in_first & counted) {
        return false;
    }
    entries_ok(memory, pages)
}

// Stores the pages' numbers in slot n.
fn put_pages(state: &mut State, n: usize, pages: &[u64])
    requires { (n < mr_count) × (length pages.now ≤ most_pages) × (entries_ok most_memory pages.now ≡ true) }
    ensures { state.new ≡ put_pages state.old n 0 pages.now }
{
    for (k, page) in pages.iter().enumerate() {
        rows::store_page(state, MOST_PAGES * n + k, (*page / PAGE_SIZE) as u16);
    }
}

// ---- the registration

fn register_paged(
    state: &mut State,
    read: Option<Registration>,
    pages: &[u64],
) -> Result<Ack, Refusal>
    requires { accepts state.old ≡ true }
    ensures { Listed state.old read pages.now result state.new }
{
    let g = read.ok_or(Refusal::WrongLength)?;
    if !regions::access_ok(g.access) {
        return Err(Refusal::BadField);
    }
    if !live::is_live(state, Kind::Pd, g.pd) {
        return Err(Refusal::NotLive);
    }
    if !in_pages(rows::load_memory(state), g, pages) {
        return Err(Refusal::BadRange);
    }
    let n = find::free_mrn(state);
    if MR_COUNT <= n {
        return Err(Refusal::Full);
    }
    let variant = control::put_region(state, n, g, PAGED);
    put_pages(state, n, pages);
    Ok(Ack::Keys(n as u32, control::key_of(n, variant)))
}

// Command 7, and no other.
fn choose(state: &mut State, command: &[u8], pages: &[u64]) -> Result<Ack, Refusal>
    requires { accepts state.old ≡ true }
    ensures { Recorded state.old command.now pages.now result state.new }
{
    match control::read_verb(command)? {
        Verb::RegisterMr => register_paged(state, records::read_data(command), pages),
        _ => Err(Refusal::Unknown),
    }
}

// A registration over a page list: its answer, and what it leaves in the state and in the ack buffer.
pub fn register_pages(state: &mut [u8], command: &[u8], pages: &[u64], ack: &mut [u8]) -> Answer
    ensures { Owes state.old (Call.register_pages command.now pages.now ack.old) result state.new [] ack.new }
{
    let Some(state) = live::acceptable(state) else {
        return Answer::from(Refusal::BadState);
    };
    if ack.len() < ACK_LEAST {
        return Answer::from(Refusal::ShortBuffer);
    }
    let outcome = choose(state, command, pages);
    acks::write_ack(ack, control::ack_of(outcome));
    Answer::from(outcome)
}
