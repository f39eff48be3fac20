// Destroy CQ, PD and QP, and deregister MR: one shape for the four kinds of objects. Contracts: specs/Control.antt.
ghost use Rattle.std.specs.Prelude.{◌≡◌, true};
ghost use Rattle.tables.specs.Card.{live_of};
ghost use Rattle.tables.specs.State.{card};
ghost use Rattle.rules.specs.Bytes.{command_bytes};
ghost use Rattle.commands.specs.Control.{Ran, read_as, destroy_of, used_of};

use tables::refusal::Refusal;
use tables::rows::State;
use tables::{Ack, Kind, rows};
use validate::{find, live};

// Regions and queue pairs are never in use.
fn in_use(state: &State, kind: Kind, n: u32) -> bool
    ensures { result ≡ used_of (card state.now) kind n }
{
    match kind {
        Kind::Pd => find::pd_in_use(state, n),
        Kind::Cq => find::cq_in_use(state, n),
        Kind::Mr | Kind::Qp => false,
    }
}

// Object n is no longer live.
fn clear(state: &mut State, kind: Kind, n: u32)
    requires { live_of (card state.old) kind n ≡ true }
    ensures { state.new ≡ command_bytes state.old (destroy_of kind n) }
{
    rows::store_flag(state, kind, n as usize, 0);
}

pub fn destroy(state: &mut State, kind: Kind, read: Option<u32>) -> Result<Ack, Refusal>
    ensures { Ran state.old (read_as (destroy_of kind) read) result state.new }
{
    let n = read.ok_or(Refusal::WrongLength)?;
    if !live::is_live(state, kind, n) {
        return Err(Refusal::NotLive);
    }
    if in_use(state, kind, n) {
        return Err(Refusal::InUse);
    }
    clear(state, kind, n);
    Ok(Ack::Done)
}
