// Whether an object is live, and whether the lent bytes are an acceptable state.
ghost use Rattle.std.specs.Prelude.{◌≡◌, false, true, MatchOption};
ghost use Rattle.std.specs.Borrow.{sem, LendsIf, Array, u8};
ghost use Rattle.tables.specs.Card.{live_of};
ghost use Rattle.tables.specs.State.{card};
ghost use Rattle.validate.specs.Accept.{accepts};

use crate::accept::accepted;
use tables::rows::State;
use tables::{Kind, rows};

// Whether object n of a kind is live.
pub fn is_live(state: &State, kind: Kind, n: u32) -> bool
    ensures { result ≡ live_of (card state.now) kind n }
{
    let i = n as usize;
    i < kind.count() && rows::load_flag(state, kind, i) == 1
}

// The lent bytes as a card's state, where they are an acceptable one; none where answer 15 is due.
#[tactic(auto, using(crate::proofs::AcceptedLaws::accepted_size))]
pub fn acceptable(state: &mut [u8]) -> Option<&mut State>
    ensures* writes_back { sem 𝓛 (LendsIf (Array u8 0) (Array u8 0) state.entry result (λ l. l) state.old) }
    ensures value { MatchOption result (accepts state.old ≡ false) (λ s. (accepts s.now ≡ true) × (s.now ≡ state.old)) }
{
    if !accepted(state) {
        return None;
    }
    state.as_mut_array()
}
