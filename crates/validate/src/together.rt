// Tests of several rows together, each enough for the rows that it looks at: specs/Together.antt. Where one does not pass, the
// state test looks at the rows one by one.
ghost use Rattle.std.specs.Prelude.{◌≡◌, ◌+◌, ◌-◌, ◌*◌, ◌/◌, ◌^◌, ◌<◌, ◌≤◌, ℕ, Bool, true, length, if◌then◌else◌, nat_eq, nat_le};
ghost use Rattle.wire.specs.Ring.{ring_place};
ghost use Rattle.wire.specs.Scan.{all_below, any_below};
ghost use Rattle.wire.specs.Table.{row_at};
ghost use Rattle.tables.specs.Layout.{state_size, page_count, memory_t, mr_flag_t, entry_t, receive_t};
ghost use Rattle.tables.specs.Limits.{cq_count, mr_count, qp_count, most_pages, page_size, most_places, most_waiting};
ghost use Rattle.tables.specs.State.{card};
ghost use Rattle.tables.specs.declared.Region.{Region};
ghost use Rattle.validate.specs.Accept.{mr_ok, completion_ok, receive_ok};
ghost use Rattle.validate.specs.Together.{Enough, Tells, Gives, Zeros, eight_ok, pages_ok, first_word, remote_ok, words_ok, word_ok, variant_ok, virt_ok, range_ok, row_ok};

use crate::objects::{Eight, Pair, Queue};
use tables::limits::{
    FLAT, LOCAL_LENGTH, MOST_ACCESS, MOST_ADDRESS, MOST_MESSAGE, MOST_PAGED, MOST_PAGES,
    MOST_PLACES, MOST_RECEIVE_SGES, MOST_WAITING, MR_COUNT, PAGE_SIZE, PAGED, QP_COUNT,
    RECEIVED_WRITE,
};
use tables::rows::State;
use tables::{Region, rows};

// From how many unread completions and waiting receives on all places are looked at.
const MANY_UNREAD: u8 = 8;

const MANY_WAITING: u8 = 2;

// ---- what the rows of eight region slots are tested by

// The first four bytes of a row.
fn first_word(r: Region) -> u32
    ensures { result ≡ first_word r }
{
    u32::from_le_bytes([r.access, r.variant, r.pd, r.kind])
}

// Remote write of one of them is no fault where each has local write.
fn remote_ok(any: u32, all: u32) -> bool
    ensures { result ≡ remote_ok any all }
{
    all % 2 == 1 || any / 2 % 2 == 0
}

fn words_ok(any: u32, all: u32, kind: u8, domains: usize) -> bool
    ensures { result ≡ words_ok kind domains any all }
{
    let most = any.to_le_bytes();
    let least = all.to_le_bytes();
    let pd = most[2] as usize;
    remote_ok(any, all)
        && (most[0] <= MOST_ACCESS) & (pd < domains) & (most[3] == kind) & (least[3] == kind)
}

// Whether the range is not empty and ends at the limit at most.
fn range_ok(r: Region, limit: u64) -> bool
    ensures { result ≡ range_ok limit r }
{
    r.start <= limit && std::num::wrapping_sub_u64(r.length, 1) < limit - r.start
}

#[tactic(auto, using(std::proofs::lemmas::Nat::le_or_l, std::proofs::lemmas::Nat::le_or_r))]
fn joined(a: u16, b: u16) -> u16
    ensures { (a ≤ result) × (b ≤ result) }
{
    a | b
}

// Page numbers, also those that a region does not need, by one number that is at least each, made by join.
fn pages_below<F: Fn(u16, u16) -> u16>(
    state: &State,
    from: usize,
    many: usize,
    memory: u64,
    join: F,
) -> bool
    requires rows { from + many ≤ page_count }
    requires callable { F.IsAlwaysCallable join }
    requires joins { (a b r : ℕ) → F.post join a b r → (a ≤ r) × (b ≤ r) }
    ensures { Enough result (pages_ok memory state.now from many) }
{
    let mut most: u16 = 0;
    for k in 0..many {
        most = join(most, rows::load_page(state, from + k));
    }
    (most as u64) < memory / PAGE_SIZE
}

// By the bits that any of them has: the quicker of two ways, and all that it takes where the memory's pages are a power of two.
pub fn page_bits_pass(state: &State, from: usize, many: usize, memory: u64) -> bool
    requires { from + many ≤ page_count }
    ensures { Enough result (pages_ok memory state.now from many) }
{
    pages_below(state, from, many, memory, joined)
}

// Where regions of this kind end at most.
fn limit_of(kind: u8, memory: u64) -> u64
    ensures { result ≡ (if nat_eq kind 0 then memory else most_pages * page_size) }
{
    if kind == FLAT { memory } else { MOST_PAGED }
}

// ---- eight region slots

impl Eight<'_> {
    fn variants_pass(self) -> bool
        ensures { result ≡ eight_ok variant_ok self.entry.state.now self.entry.g }
    {
        (0..8).all(|i| 1 <= self.variant(i))
    }

    // A number of each row against the limit, by the bits that any of them has.
    fn numbers_pass<F: Fn(Region) -> u64>(self, limit: u64, number: F) -> bool
        requires { F.IsAlwaysCallable number }
        ensures { (f : Region → ℕ) → Gives (F.post number) f → Enough result (eight_ok (λ r. nat_le (f r) limit) self.entry.state.now self.entry.g) }
    {
        let mut any: u64 = 0;
        for i in 0..8 {
            any |= number(self.row(i));
        }
        any <= limit
    }

    // Access, domain and kind.
    fn words_pass(self, kind: u8, domains: usize) -> bool
        ensures { Enough result (eight_ok (word_ok kind domains) self.entry.state.now self.entry.g) }
    {
        let mut any: u32 = 0;
        let mut all: u32 = 0xffff_ffff;
        for i in 0..8 {
            let w = first_word(self.row(i));
            any |= w;
            all &= w;
        }
        words_ok(any, all, kind, domains)
    }

    fn ranges_pass(self, limit: u64) -> bool
        ensures { result ≡ eight_ok (range_ok limit) self.entry.state.now self.entry.g }
    {
        (0..8).all(|i| range_ok(self.row(i), limit))
    }

    // What rows of one kind show without the pages.
    fn rows_pass(self, kind: u8, limit: u64, domains: usize) -> bool
        ensures { Enough result (eight_ok (row_ok kind limit domains) self.entry.state.now self.entry.g) }
    {
        self.numbers_pass(MOST_ADDRESS - limit, |r| r.virt)
            && self.variants_pass()
            && self.words_pass(kind, domains)
            && self.ranges_pass(limit)
    }

    fn pages_pass(self) -> bool
        ensures { Enough result (pages_ok self.entry.memory self.entry.state.now (128 * self.entry.g) 128) }
    {
        let from = 8 * MOST_PAGES * self.g;
        let many = 8 * MOST_PAGES;
        page_bits_pass(self.state, from, many, self.memory)
            || pages_below(self.state, from, many, self.memory, |a, b| a.max(b))
    }

    // Eight live regions of one kind, whose domains are among the first, which are live.
    fn live_pass(self, domains: usize) -> bool
        requires i_value { all_below 8 (λ i. nat_eq (row_at mr_flag_t self.state.now (8 * self.g + i)) 1) ≡ true }
        requires state_value { all_below domains (card self.state.now).pd ≡ true }
        ensures { Enough result (all_below 8 (λ i. mr_ok self.entry.state.now (8 * self.entry.g + i))) }
    {
        let state = self.state;
        let kind = wire::get::<u8>(state, rows::MRS + 8 * self.g * rows::MR_SIZE + 3);
        self.rows_pass(kind, limit_of(kind, self.memory), domains)
            && match kind {
                FLAT => true,
                PAGED => self.numbers_pass(PAGE_SIZE - 1, |r| r.start) && self.pages_pass(),
                _ => false,
            }
    }

    // Enough for the eight.
    pub fn regions_pass(self) -> bool
        ensures { Enough result (all_below 8 (λ i. mr_ok self.entry.state.now (8 * self.entry.g + i))) }
    {
        let state = self.state;
        8 <= wire::lowest_clear(state, rows::MR_FLAGS + 8 * self.g, 1)
            && self.live_pass(wire::lowest_clear(state, rows::PD_FLAGS, 1))
    }
}

// ---- numbers of a table

// Whether any number below count passes. All are tested, several at a time in the machine code.
pub fn any_number<F: Fn(usize) -> bool>(count: usize, test: F) -> bool
    requires { (n : ℕ) → n < count → F.pre test n }
    ensures { (p : ℕ → Bool) → Tells (F.post test) count p → result ≡ any_below count p }
{
    let mut found = false;
    for n in 0..count {
        found = test(n) | found;
    }
    found
}

// ---- free slots

// The four words from index at on, or-ed.
fn four_words(s: &[u8], at: usize) -> u64
    requires { at + 32 ≤ length s.now }
    ensures { result ≡ 0 → Zeros s.now at 32 }
{
    wire::get::<u64>(s, at)
        | wire::get::<u64>(s, at + 8)
        | wire::get::<u64>(s, at + 16)
        | wire::get::<u64>(s, at + 24)
}

// Past eights of region slots from this one on that are all free, four at a time. A while: its end is also where fewer than four are left,
// which a stepped range does not say.
pub fn past_free(state: &State, from: usize) -> usize
    requires { from ≤ 32 }
    ensures { (from ≤ result) × (result ≤ 32) × Enough (all_below (8 * from) (mr_ok state.now)) (all_below (8 * result) (mr_ok state.now)) }
{
    let mut g = from;
    while g + 4 <= MR_COUNT / 8 {
        if four_words(state, rows::MR_FLAGS + 8 * g) != 0 {
            return g;
        }
        g += 4;
    }
    g
}

// ---- rings

// Whether the count entries of a ring of cap places pass, from the place first on: the test is given a place.
pub fn ring_passes<F: Fn(usize) -> bool>(cap: usize, first: u8, count: u8, test: F) -> bool
    requires places { (first < cap) × (cap < 2 ^ 16) }
    requires callable { (k : ℕ) → k < cap → F.pre test k }
    ensures { (p : ℕ → Bool) → Tells (F.post test) cap p → result ≡ all_below count (λ k. p (ring_place cap first k)) }
{
    // at goes along: found anew from its number, a place costs up to 7 instructions more
    let mut at = first as usize;
    for _ in 0..count {
        if !test(at) {
            return false;
        }
        at = wire::ring_place(cap, at, 1);
    }
    true
}

impl Queue<'_> {
    // All places, whatever the first is: worth it where many hold an unread completion.
    pub fn completions_pass(self, count: u8) -> bool
        ensures { Enough result (all_below most_places (λ k. completion_ok (row_at entry_t self.entry.state.now (most_places * self.entry.n + k)))) }
    {
        if count < MANY_UNREAD {
            return false;
        }
        let mut statuses: u8 = 0;
        let mut opcodes: u8 = 0;
        let mut owners: u32 = 0;
        for k in 0..MOST_PLACES {
            let e = rows::load_entry(self.state, MOST_PLACES * self.n + k);
            if MOST_MESSAGE < e.length {
                return false;
            }
            statuses |= e.status;
            opcodes |= e.opcode;
            owners |= e.owner;
        }
        (statuses <= LOCAL_LENGTH) & (opcodes <= RECEIVED_WRITE) & (owners < QP_COUNT as u32)
    }
}

impl Pair<'_> {
    // All places of the receives: one number of each row, where completions_pass ors three.
    pub fn receives_pass(self, count: u8) -> bool
        ensures { Enough result (all_below most_waiting (λ k. receive_ok (row_at receive_t self.entry.state.now (most_waiting * self.entry.n + k)))) }
    {
        MANY_WAITING <= count
            && (0..MOST_WAITING).all(|k| {
                rows::load_receive(self.state, MOST_WAITING * self.n + k).count <= MOST_RECEIVE_SGES
            })
    }
}
