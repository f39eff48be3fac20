// What the state test looks at, by number in a state.
ghost use Rattle.std.specs.Prelude.{◌≡◌, ◌+◌, ◌*◌, ◌<◌, ◌≤◌};
ghost use Rattle.wire.specs.Table.{row_at};
ghost use Rattle.tables.specs.Layout.{memory_t, mr_t};
ghost use Rattle.tables.specs.Limits.{cq_count, mr_count, qp_count};

use tables::rows::State;
use tables::{Region, rows};

// Completion queue n.
#[derive(Clone, Copy)]
pub struct Queue<'a> {
    pub state: &'a State,
    pub n: usize,
    pub ghost inside: { n < cq_count },
}

impl<'a> Queue<'a> {
    pub fn new(state: &'a State, n: usize) -> Self
        requires { n < cq_count }
        ensures { (result.state.now ≡ state.now) × (result.n ≡ n) }
    {
        Queue { state, n }
    }
}

// Queue pair n.
#[derive(Clone, Copy)]
pub struct Pair<'a> {
    pub state: &'a State,
    pub n: usize,
    pub ghost inside: { n < qp_count },
}

impl<'a> Pair<'a> {
    pub fn new(state: &'a State, n: usize) -> Self
        requires { n < qp_count }
        ensures { (result.state.now ≡ state.now) × (result.n ≡ n) }
    {
        Pair { state, n }
    }
}

// Region slot n; memory is the memory's length.
#[derive(Clone, Copy)]
pub struct Slot<'a> {
    pub state: &'a State,
    pub memory: u64,
    pub n: usize,
    pub ghost inside: { n < mr_count },
    pub ghost stored: { memory ≡ row_at memory_t state.now 0 },
}

// The eight region slots from 8 g on.
#[derive(Clone, Copy)]
pub struct Eight<'a> {
    pub state: &'a State,
    pub memory: u64,
    pub g: usize,
    pub ghost inside: { 8 * g + 8 ≤ mr_count },
    pub ghost stored: { memory ≡ row_at memory_t state.now 0 },
}

impl<'a> Eight<'a> {
    // Slot i of them.
    pub fn slot(self, i: usize) -> Slot<'a>
        requires { i < 8 }
        ensures { (result.state.now ≡ self.entry.state.now) × (result.n ≡ 8 * self.entry.g + i) }
    {
        Slot {
            state: self.state,
            memory: self.memory,
            n: 8 * self.g + i,
        }
    }

    // The variant of slot i of them, read alone: beside the row's other numbers the first word would be read in halves.
    #[tactic(auto, using(crate::proofs::TogetherLaws::variant_is))]
    pub fn variant(self, i: usize) -> u8
        requires { i < 8 }
        ensures { result ≡ (row_at mr_t self.entry.state.now (8 * self.entry.g + i)).variant }
    {
        let state = self.state;
        wire::get(state, rows::MRS + (8 * self.g + i) * rows::MR_SIZE + 1)
    }

    // The row of slot i of them.
    pub fn row(self, i: usize) -> Region
        requires { i < 8 }
        ensures { result ≡ row_at mr_t self.entry.state.now (8 * self.entry.g + i) }
    {
        rows::load_mr(self.state, 8 * self.g + i)
    }
}
