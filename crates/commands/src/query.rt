// The queries, document 02, M-100: what the card reports of itself. Rules: rules/specs/Control.antt.
ghost use Rattle.std.specs.Prelude.{◌≡◌, length};
ghost use Rattle.tables.specs.Commands.{Command};
ghost use Rattle.tables.specs.Layout.{state_size};
ghost use Rattle.tables.specs.State.{card};
ghost use Rattle.rules.specs.Control.{device_of};
ghost use Rattle.commands.specs.Control.{Ran, bare};

use crate::control::no_data;
use tables::limits::{
    MOST_MESSAGE, MOST_PLACES, MOST_RECEIVE_SGES, MOST_SGES, MOST_WAITING, MR_COUNT, PAGE_SIZE,
    PD_COUNT,
};
use tables::refusal::Refusal;
use tables::rows::State;
use tables::{Ack, Device, DeviceCaps, DeviceObjects, DeviceWork, Port, rows};

const VERSION: u32 = 1;

fn device_of(state: &State) -> Device
    ensures { result ≡ device_of (card state.now) }
{
    Device {
        caps: DeviceCaps {
            flags: 0,
            region: rows::load_memory(state),
            page: PAGE_SIZE,
            version: VERSION,
        },
        work: DeviceWork {
            requests: MOST_WAITING as u32,
            sends: MOST_SGES,
            receives: MOST_RECEIVE_SGES,
            reads: MOST_SGES,
            entries: MOST_PLACES as u32,
        },
        objects: DeviceObjects {
            regions: MR_COUNT as u32,
            domains: PD_COUNT as u32,
            responses: 1,
            initiations: 1,
            handles: 0,
            delay: 0,
        },
    }
}

pub fn query_device(state: &State, command: &[u8]) -> Result<Ack, Refusal>
    ensures { Ran state.now (bare Command.query_device command.now) result state.now }
{
    no_data(command)?;
    Ok(Ack::Device(device_of(state)))
}

pub fn query_port(state: &[u8], command: &[u8]) -> Result<Ack, Refusal>
    ensures { Ran state.now (bare Command.query_port command.now) result state.now }
{
    no_data(command)?;
    Ok(Ack::Port(Port {
        gids: 0,
        message: MOST_MESSAGE,
    }))
}
