// How a request's bytes are moved: all source bytes are read, into a staging array, before any is written. Who may move them is not asked
// here, only that each byte lies in a live region.
ghost use Rattle.std.specs.Prelude.{◌≡◌, true, cond, ◌∷◌, [], ◌++◌, ◌+◌, ◌≤◌, length, take, drop};
ghost use Rattle.std.proofs.Math.Seq.{paste};
ghost use Rattle.validate.specs.Accept.{accepts};
ghost use Rattle.tables.specs.State.{card};
ghost use Rattle.tables.specs.Layout.{state_size};
ghost use Rattle.tables.specs.Limits.{most_message, most_inline};
ghost use Rattle.rules.specs.Touch.{sge_bytes, sge_total};
ghost use Rattle.rules.specs.Lists.{stored};
ghost use Rattle.dma.specs.Moves.{Ready, mapped_all, places, place_of, Lies, Splits, read_bytes, moved, Message};

use tables::limits::{FLAT, MOST_PAGES, PAGE_SIZE};
use tables::rows::State;
use tables::{Sge, rows};

// That an entry's bytes are mapped is a clause, as it speaks of the state too.

// The place in memory where an entry begins; 0 for an empty one.
fn place_of(state: &State, s: Sge) -> usize
    requires { (accepts state.now ≡ true) × (mapped_all (card state.now) (sge_bytes (s ∷ [])) ≡ true) }
    ensures { result ≡ place_of (card state.now) s }
{
    if s.length == 0 {
        return 0;
    }
    let slot = (s.key / 256) as usize;
    let r = rows::load_mr(state, slot);
    let offset = r.start + (s.address - r.virt);
    if r.kind == FLAT {
        return offset as usize;
    }
    let page = rows::load_page(state, MOST_PAGES * slot + (offset / PAGE_SIZE) as usize);
    (PAGE_SIZE * (page as u64) + offset % PAGE_SIZE) as usize
}

// How many bytes of an entry, from its first on, stand one after the other in memory: all, or those up to the page's end.
fn run_of(state: &State, memory: &[u8], s: Sge) -> u32
    requires ready { Ready state.now memory.now }
    requires s_value { (mapped_all (card state.now) (sge_bytes (s ∷ [])) ≡ true) × (s.length ≤ most_message) }
    ensures { Splits (card state.now) (length memory.now) s result }
{
    if s.length == 0 {
        return 0;
    }
    let r = rows::load_mr(state, (s.key / 256) as usize);
    if r.kind == FLAT {
        return s.length;
    }
    let left = PAGE_SIZE - (r.start + (s.address - r.virt)) % PAGE_SIZE;
    if s.length as u64 <= left {
        return s.length;
    }
    left as u32
}

// Copies an entry's bytes to staging, from index at on.
fn copy_out(state: &State, memory: &[u8], s: Sge, staging: &mut [u8], at: usize)
    requires ready { Ready state.now memory.now }
    requires s_value { (mapped_all (card state.now) (sge_bytes (s ∷ [])) ≡ true) × (s.length ≤ most_message) × (at + s.length ≤ length staging.old) }
    ensures { take (at + s.length) staging.new ≡ take at staging.old ++ read_bytes memory.now (places (card state.now) (s ∷ [])) }
{
    let n = run_of(state, memory, s);
    let a = Sge { length: n, ..s };
    let from = place_of(state, a);
    wire::copy_bytes(staging, at, memory, from, n as usize);
    if n < s.length {
        let b = Sge {
            address: s.address + n as u64,
            length: s.length - n,
            ..s
        };
        let then = place_of(state, b);
        wire::copy_bytes(staging, at + n as usize, memory, then, b.length as usize);
    }
}

// Copies staging, from index at on, to an entry's bytes. Apart from copy_out, as scatter from gather: memory is lent to be written here and to be
// read there, and stored and read_bytes, which the two promise, are no one equation.
fn copy_in(state: &State, memory: &mut [u8], s: Sge, staging: &[u8], at: usize)
    requires ready { Ready state.now memory.old }
    requires s_value { (mapped_all (card state.now) (sge_bytes (s ∷ [])) ≡ true) × (s.length ≤ most_message) × (at + s.length ≤ length staging.now) }
    ensures { memory.new ≡ stored memory.old (places (card state.now) (s ∷ [])) (drop at staging.now) }
{
    let n = run_of(state, memory, s);
    let a = Sge { length: n, ..s };
    let to = place_of(state, a);
    wire::copy_bytes(memory, to, staging, at, n as usize);
    if n < s.length {
        let b = Sge {
            address: s.address + n as u64,
            length: s.length - n,
            ..s
        };
        let then = place_of(state, b);
        wire::copy_bytes(memory, then, staging, at + n as usize, b.length as usize);
    }
}

// Gathers the entries, one after the other, into staging.
fn gather(state: &State, memory: &[u8], sges: &[Sge], staging: &mut [u8])
    requires ready { Ready state.now memory.now }
    requires sources { mapped_all (card state.now) (sge_bytes sges.now) ≡ true }
    requires room { (sge_total sges.now ≤ length staging.old) × (sge_total sges.now ≤ most_message) }
    ensures { take (sge_total sges.now) staging.new ≡ read_bytes memory.now (places (card state.now) sges.now) }
{
    let mut at = 0;
    for s in sges {
        copy_out(state, memory, *s, staging, at);
        at += s.length as usize;
    }
}

// Scatters staging to the entries, one after the other.
fn scatter(state: &State, memory: &mut [u8], sges: &[Sge], staging: &[u8])
    requires ready { Ready state.now memory.old }
    requires targets { mapped_all (card state.now) (sge_bytes sges.now) ≡ true }
    requires room { (sge_total sges.now ≤ length staging.now) × (sge_total sges.now ≤ most_message) }
    ensures { memory.new ≡ stored memory.old (places (card state.now) sges.now) staging.now }
{
    let mut at = 0;
    for s in sges {
        copy_in(state, memory, *s, staging, at);
        at += s.length as usize;
    }
}

// Moves n bytes of memory to another place of it.
fn deliver_one(memory: &mut [u8], from: usize, to: usize, n: usize)
    requires { (n ≤ most_message) × (from + n ≤ length memory.old) × (to + n ≤ length memory.old) }
    ensures { memory.new ≡ paste memory.old to (drop from memory.old) n }
{
    let mut staging = [0u8; 4096];
    wire::copy_bytes(&mut staging, 0, memory, from, n);
    wire::copy_bytes(memory, to, &staging, 0, n);
}

// Moves the bytes of the entries from to the entries to.
fn transfer_many(state: &State, memory: &mut [u8], from: &[Sge], to: &[Sge])
    requires ready { Ready state.now memory.old }
    requires message { Message (card state.now) from.now to.now }
    ensures { memory.new ≡ moved memory.old (places (card state.now) from.now) (places (card state.now) to.now) }
{
    let mut staging = [0u8; 4096];
    gather(state, memory, from, &mut staging);
    scatter(state, memory, to, &staging);
}

// Moves one entry's bytes to one entry: one move where no page ends in between.
pub fn transfer_single(state: &State, memory: &mut [u8], from: Sge, to: Sge)
    requires ready { Ready state.now memory.old }
    requires message { Message (card state.now) (from ∷ []) (to ∷ []) }
    ensures { memory.new ≡ moved memory.old (places (card state.now) (from ∷ [])) (places (card state.now) (to ∷ [])) }
{
    if (run_of(state, memory, from) == from.length) & (run_of(state, memory, to) == to.length) {
        let a = place_of(state, from);
        let b = place_of(state, to);
        deliver_one(memory, a, b, from.length as usize);
        return;
    }
    transfer_many(state, memory, &[from], &[to]);
}

// Moves the bytes of the entry a to the entry b, or where back holds those of b to a: one move where no page ends in between. Apart from
// transfer_single and called from one place, so that the compiler has the regions' rows at hand: by one function for both a write of 64 bytes takes 35
// instructions of 924 more (bench/instructions), by two calls of transfer_single in place of back 31.
pub fn transfer_between(state: &State, memory: &mut [u8], a: Sge, b: Sge, back: bool)
    requires ready { Ready state.now memory.old }
    requires message { Message (card state.now) (a ∷ []) (b ∷ []) }
    ensures { memory.new ≡ cond back (moved memory.old (places (card state.now) (b ∷ [])) (places (card state.now) (a ∷ []))) (moved memory.old (places (card state.now) (a ∷ [])) (places (card state.now) (b ∷ []))) }
{
    if (run_of(state, memory, a) == a.length) & (run_of(state, memory, b) == b.length) {
        let x = place_of(state, a);
        let y = place_of(state, b);
        let n = a.length as usize;
        if back {
            deliver_one(memory, y, x, n);
        } else {
            deliver_one(memory, x, y, n);
        }
    } else if back {
        transfer_many(state, memory, &[b], &[a]);
    } else {
        transfer_many(state, memory, &[a], &[b]);
    }
}

// Moves the bytes of the entries from to the entries to, of one entry to one entry by themselves.
pub fn transfer(state: &State, memory: &mut [u8], from: &[Sge], to: &[Sge])
    requires ready { Ready state.now memory.old }
    requires message { Message (card state.now) from.now to.now }
    ensures { memory.new ≡ moved memory.old (places (card state.now) from.now) (places (card state.now) to.now) }
{
    match (from, to) {
        ([s], [t]) => transfer_single(state, memory, *s, *t),
        _ => transfer_many(state, memory, from, to),
    }
}

// Writes inline bytes to a place of memory. Apart from deliver_one, whose bytes stand in memory itself, which is lent once.
fn deliver_inline(memory: &mut [u8], bytes: &[u8], to: usize)
    requires { (length bytes.now ≤ most_inline) × (to + length bytes.now ≤ length memory.old) }
    ensures { memory.new ≡ paste memory.old to bytes.now (length bytes.now) }
{
    let mut staging = [0u8; 4096];
    let n = bytes.len();
    wire::copy_bytes(&mut staging, 0, bytes, 0, n);
    wire::copy_bytes(memory, to, &staging, 0, n);
}

// Writes inline bytes to the entries to. Apart from transfer_many: inline bytes stand in no region and are not gathered.
fn inline_many(state: &State, memory: &mut [u8], bytes: &[u8], to: &[Sge])
    requires ready { Ready state.now memory.old }
    requires targets { mapped_all (card state.now) (sge_bytes to.now) ≡ true }
    requires total { (sge_total to.now ≡ length bytes.now) × (length bytes.now ≤ most_inline) }
    ensures { memory.new ≡ stored memory.old (places (card state.now) to.now) bytes.now }
{
    let mut staging = [0u8; 4096];
    let n = bytes.len();
    wire::copy_bytes(&mut staging, 0, bytes, 0, n);
    scatter(state, memory, to, &staging);
}

// Writes inline bytes, which stand in the caller's record, to the entries to; those of one entry are one move where no page ends in between.
pub fn scatter_inline(state: &State, memory: &mut [u8], bytes: &[u8], to: &[Sge])
    requires ready { Ready state.now memory.old }
    requires targets { mapped_all (card state.now) (sge_bytes to.now) ≡ true }
    requires total { (sge_total to.now ≡ length bytes.now) × (length bytes.now ≤ most_inline) }
    ensures { memory.new ≡ stored memory.old (places (card state.now) to.now) bytes.now }
{
    if let [t] = to {
        if run_of(state, memory, *t) == t.length {
            let at = place_of(state, *t);
            deliver_inline(memory, bytes, at);
            return;
        }
    }
    inline_many(state, memory, bytes, to);
}
