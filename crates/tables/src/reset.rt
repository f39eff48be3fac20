// The state that a reset leaves: specs/Reset.antt.
ghost use Rattle.std.specs.Prelude.{◌≡◌, length};
ghost use Rattle.tables.specs.Layout.{state_size};
ghost use Rattle.tables.specs.Reset.{zeros, reset_bytes};

use crate::rows;
use crate::rows::State;

// Sets every byte to 0.
fn clear(state: &mut [u8])
    ensures { state.new ≡ zeros (length state.old) }
{
    state.fill(0);
}

// An empty card over a memory of the given length.
pub fn reset(state: &mut State, memory: u64)
    ensures { state.new ≡ reset_bytes memory }
{
    clear(state);
    rows::store_memory(state, memory);
}
