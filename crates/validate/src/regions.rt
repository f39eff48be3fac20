// The test of stored regions: their fields, their pages, and the slots one by one where together.rt is not enough. Definitions:
// specs/Accept.antt.
ghost use Rattle.std.specs.Prelude.{◌≡◌, ◌+◌, ◌*◌, ◌<◌, ◌≤◌, length};
ghost use Rattle.wire.specs.Scan.{all_below};
ghost use Rattle.wire.specs.Table.{row_at};
ghost use Rattle.tables.specs.State.{region_at, pages_at, pages_needed};
ghost use Rattle.tables.specs.Layout.{state_size, memory_t, mr_t};
ghost use Rattle.tables.specs.Limits.{mr_count, most_pages, page_size};
ghost use Rattle.validate.specs.Accept.{access_ok, fields_ok, numbers_ok, paged_ok, land_ok, mr_ok};

use crate::live::is_live;
use crate::objects::{Eight, Slot};
use crate::together;
use tables::limits::{
    FLAT, LOCAL_WRITE, MOST_ACCESS, MOST_ADDRESS, MOST_PAGED, MOST_PAGES, MR_COUNT, PAGE_SIZE,
    PAGED, REMOTE_WRITE,
};
use tables::rows::State;
use tables::{Kind, Region, rows};

// Whether a region may have the access bits.
pub fn access_ok(access: u32) -> bool
    ensures { result ≡ access_ok access }
{
    let known = access & (MOST_ACCESS as u32) == access;
    let remote = access & (REMOTE_WRITE as u32) != 0;
    let local = access & (LOCAL_WRITE as u32) != 0;
    known & (!remote | local)
}

// A live region's own fields.
fn fields_ok(r: Region) -> bool
    ensures { result ≡ fields_ok r }
{
    access_ok(r.access as u32)
        && 1 <= r.variant
        && 1 <= r.length
        && wire::sum_within(r.virt, r.length, MOST_ADDRESS)
}

// How many pages the bytes need from an offset into the first one on.
#[tactic(auto, unfolding(tables::specs::State::pages_needed))]
pub fn pages_needed(start: u64, length: u64) -> u64
    requires { start + length ≤ most_pages * page_size }
    ensures { result ≡ pages_needed start length }
{
    (start + length + (PAGE_SIZE - 1)) / PAGE_SIZE
}

impl Slot<'_> {
    // The first count page numbers.
    fn numbers_ok(self, count: usize) -> bool
        requires { count ≤ most_pages }
        ensures { result ≡ numbers_ok self.entry.memory count (pages_at self.entry.state.now self.entry.n) }
    {
        let limit = self.memory / PAGE_SIZE;
        let from = MOST_PAGES * self.n;
        together::page_bits_pass(self.state, from, MOST_PAGES, self.memory)
            || (0..count).all(|k| (rows::load_page(self.state, from + k) as u64) < limit)
    }

    // Where a region over pages lies; r is its row.
    #[tactic(auto, unfolding(tables::specs::State::region_at))]
    fn paged_ok(self, r: Region) -> bool
        requires { r ≡ row_at mr_t self.state.now self.n }
        ensures { result ≡ paged_ok self.entry.memory (region_at self.entry.state.now self.entry.n) }
    {
        r.start <= PAGE_SIZE - 1
            && wire::sum_within(r.start, r.length, MOST_PAGED)
            && self.numbers_ok(pages_needed(r.start, r.length) as usize)
    }

    // Where a region lies in the memory; r is its row.
    #[tactic(auto, unfolding(tables::specs::State::region_at))]
    fn land_ok(self, r: Region) -> bool
        requires { r ≡ row_at mr_t self.state.now self.n }
        ensures { result ≡ land_ok self.entry.memory (region_at self.entry.state.now self.entry.n) }
    {
        match r.kind {
            FLAT => wire::sum_within(r.start, r.length, self.memory),
            PAGED => self.paged_ok(r),
            _ => false,
        }
    }

    #[tactic(auto, unfolding(crate::specs::Accept::mr_ok, tables::specs::State::region_at))]
    fn mr_ok(self) -> bool
        ensures { result ≡ mr_ok self.entry.state.now self.entry.n }
    {
        match rows::load_flag(self.state, Kind::Mr, self.n) {
            0 => true,
            1 => {
                let r = rows::load_mr(self.state, self.n);
                fields_ok(r) && is_live(self.state, Kind::Pd, r.pd as u32) && self.land_ok(r)
            }
            _ => false,
        }
    }
}

impl Eight<'_> {
    // Together, or one by one.
    fn eight_ok(self) -> bool
        ensures { result ≡ all_below 8 (λ i. mr_ok self.entry.state.now (8 * self.entry.g + i)) }
    {
        self.regions_pass() || (0..8).all(|i| self.slot(i).mr_ok())
    }
}

// Free slots are passed eight or more at a time: their flags are zero words. A while: g goes on by as many as past_free finds; eight at a
// time, a test with two live regions took 683 instructions in place of 567 (docs/PERFORMANCE.md).
pub fn mrs_ok(state: &State, memory: u64) -> bool
    requires { memory ≡ row_at memory_t state.now 0 }
    ensures { result ≡ all_below mr_count (mr_ok state.now) }
{
    let mut g = 0;
    while g < MR_COUNT / 8 {
        if wire::get::<u64>(state, rows::MR_FLAGS + 8 * g) != 0 {
            if !(Eight { state, memory, g }).eight_ok() {
                return false;
            }
        }
        g = together::past_free(state, g + 1);
    }
    true
}
