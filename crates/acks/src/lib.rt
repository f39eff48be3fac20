// The acks of control commands, written into the caller's buffer by their layouts: tables, specs/Commands.antt and specs/Queries.antt.
#![tactic(auto)]

pub mod queries;

ghost use Rattle.std.specs.Prelude.{◌≡◌, ◌≤◌, length};
ghost use Rattle.tables.specs.Commands.{ack_least, ack_size, encode_ack};

use queries::Report;
use tables::Ack;

// Writes an ack; the bytes behind it stay.
#[tactic(auto, unfolding(wire::specs::Codec::put_fields))]
pub fn write_ack(ack: &mut [u8], a: Ack)
    requires { (ack_least ≤ length ack.old) × (ack_size a ≤ length ack.old) }
    ensures { ack.new ≡ encode_ack a ack.old }
{
    match a {
        Ack::Error => {
            wire::put::<u8>(ack, 0, 1);
        }
        Ack::Done => {
            wire::put::<u8>(ack, 0, 0);
        }
        Ack::Number(n) => {
            wire::put::<u8>(ack, 0, 0);
            wire::put(ack, 1, n);
        }
        Ack::Keys(n, key) => {
            wire::put::<u8>(ack, 0, 0);
            wire::put(ack, 1, n);
            wire::put(ack, 5, key);
            wire::put(ack, 9, key);
        }
        Ack::Device(d) => {
            wire::put::<u8>(ack, 0, 0);
            d.put(ack);
        }
        Ack::Port(p) => {
            wire::put::<u8>(ack, 0, 0);
            p.put(ack);
        }
    }
}
