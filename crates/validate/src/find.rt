// Look-ups: the lowest free number of each table, and whether an object is in use. Definitions: specs/Search.antt.
ghost use Rattle.std.specs.Prelude.{◌≡◌, ◌+◌, ◌*◌, ◌<◌, ◌≤◌, length};
ghost use Rattle.wire.specs.Scan.{lowest, any_below};
ghost use Rattle.tables.specs.State.{card};
ghost use Rattle.tables.specs.Layout.{state_size};
ghost use Rattle.tables.specs.Limits.{mr_count, qp_count};
ghost use Rattle.validate.specs.Search.{IsLowest, vacant, free_pdn, free_cqn, free_mrn, free_qpn, mr_names, qp_names, pd_in_use, cq_in_use};

use crate::together;
use tables::limits::{CQ_COUNT, MR_COUNT, PD_COUNT, QP_COUNT};
use tables::rows::State;
use tables::{Kind, rows};

// Each search gives its table's count where no number is free, as free_pdn .. of Search.antt do, on which the tests of answer 8 stand; three are
// a line over the search that they share.

#[tactic(auto, using(crate::proofs::SearchLaws::free_pdn_lem))]
pub fn free_pdn(state: &State) -> usize
    ensures { result ≡ free_pdn (card state.now) }
{
    wire::lowest_clear(state, rows::PD_FLAGS, PD_COUNT / 8)
}

#[tactic(auto, using(crate::proofs::SearchLaws::free_cqn_lem))]
pub fn free_cqn(state: &State) -> usize
    ensures { result ≡ free_cqn (card state.now) }
{
    wire::lowest_clear(state, rows::CQ_FLAGS, CQ_COUNT / 8)
}

// The last variant of a slot's keys.
const LAST_VARIANT: u8 = 255;

// Whether a registration may take slot n: it is free, and not retired.
#[tactic(auto, using(crate::proofs::SearchLaws::slot_vacant))]
fn is_vacant(state: &State, n: usize) -> bool
    requires { n < mr_count }
    ensures { result ≡ vacant ((card state.now).mr n) }
{
    let live = rows::load_flag(state, Kind::Mr, n);
    let r = rows::load_mr(state, n);
    live != 1 && r.variant < LAST_VARIANT
}

// The first of the eight slots from 8 g on that a registration may take, counted from there. A for: with find, eight live slots cost 19
// instructions in place of 9.
fn vacant_of_eight(state: &State, g: usize) -> Option<usize>
    requires { 8 * g + 8 ≤ mr_count }
    ensures { IsLowest result 8 (λ i. vacant ((card state.now).mr (8 * g + i))) }
{
    let start = wire::lowest_clear(state, rows::MR_FLAGS + 8 * g, 1);
    for i in start..8 {
        if is_vacant(state, 8 * g + i) {
            return Some(i);
        }
    }
    None
}

// Eight slots that are all live are passed at once.
pub fn free_mrn(state: &State) -> usize
    ensures { result ≡ free_mrn (card state.now) }
{
    for g in 0..MR_COUNT / 8 {
        if let Some(i) = vacant_of_eight(state, g) {
            return 8 * g + i;
        }
    }
    MR_COUNT
}

#[tactic(auto, using(crate::proofs::SearchLaws::free_qpn_lem))]
pub fn free_qpn(state: &State) -> usize
    ensures { result ≡ free_qpn (card state.now) }
{
    wire::lowest_clear(state, rows::QP_FLAGS, QP_COUNT / 8)
}

// Whether a live region names the domain.
fn named_by_mr(state: &State, pd: u32) -> bool
    ensures { result ≡ any_below mr_count (mr_names (card state.now) pd) }
{
    together::any_number(MR_COUNT, |n| {
        let r = rows::load_mr(state, n);
        (rows::load_flag(state, Kind::Mr, n) == 1) & (r.pd as u32 == pd)
    })
}

// Whether a live queue pair names the domain.
fn named_by_qp(state: &State, pd: u32) -> bool
    ensures { result ≡ any_below qp_count (qp_names (card state.now) pd) }
{
    together::any_number(QP_COUNT, |n| {
        let p = rows::load_qp(state, n);
        (rows::load_flag(state, Kind::Qp, n) == 1) & (p.pd as u32 == pd)
    })
}

pub fn pd_in_use(state: &State, pd: u32) -> bool
    ensures { result ≡ pd_in_use (card state.now) pd }
{
    named_by_mr(state, pd) | named_by_qp(state, pd)
}

pub fn cq_in_use(state: &State, cq: u32) -> bool
    ensures { result ≡ cq_in_use (card state.now) cq }
{
    together::any_number(QP_COUNT, |n| {
        let p = rows::load_qp(state, n);
        (rows::load_flag(state, Kind::Qp, n) == 1) & ((p.scq as u32 == cq) | (p.rcq as u32 == cq))
    })
}
