// The acks of the queries, written and read by one layout each: tables, specs/Queries.antt.
#![tactic(auto, unfolding(tables::specs::Queries::device_codec, tables::specs::Queries::port_codec, wire::specs::Codec::fields_at, wire::specs::Codec::put_fields))]

ghost use Rattle.std.specs.Prelude.{List, ◌≡◌, ℕ, ◌≤◌, ◌<◌, length};
ghost use Rattle.wire.specs.Codec.{decode, encode, fields_of, values_of, put_fields};
ghost use Rattle.tables.specs.Queries.{caps_lines, work_lines, objects_lines, device_codec, port_codec, report_read, device_read, port_read};

use tables::refusal::Refusal;
use tables::{Device, DeviceCaps, DeviceObjects, DeviceWork, Port};

// An ack of command 0 and of command 1, with the ack byte.
pub const DEVICE_ACK: usize = 129;

pub const PORT_ACK: usize = 33;

// ---- a device's report, written by its parts

fn put_caps(ack: &mut [u8], d: DeviceCaps)
    requires { 129 ≤ length ack.old }
    ensures { ack.new ≡ put_fields (fields_of (caps_lines (λ c. c))) ack.old 1 (values_of (caps_lines (λ c. c)) d) }
{
    wire::put(ack, 1, d.flags);
    wire::put(ack, 9, d.region);
    wire::put(ack, 17, d.page);
    wire::put(ack, 25, d.version);
}

fn put_work(ack: &mut [u8], d: DeviceWork)
    requires { 129 ≤ length ack.old }
    ensures { ack.new ≡ put_fields (fields_of (work_lines (λ c. c))) ack.old 1 (values_of (work_lines (λ c. c)) d) }
{
    wire::put(ack, 29, d.requests);
    wire::put(ack, 33, d.sends);
    wire::put(ack, 37, d.receives);
    wire::put(ack, 41, d.reads);
    wire::put(ack, 45, d.entries);
}

fn put_objects(ack: &mut [u8], d: DeviceObjects)
    requires { 129 ≤ length ack.old }
    ensures { ack.new ≡ put_fields (fields_of (objects_lines (λ c. c))) ack.old 1 (values_of (objects_lines (λ c. c)) d) }
{
    wire::put(ack, 49, d.regions);
    wire::put(ack, 53, d.domains);
    wire::put(ack, 57, d.responses);
    wire::put(ack, 61, d.initiations);
    wire::put(ack, 65, d.handles);
    wire::put(ack, 69, d.delay);
}

// ---- and read

fn get_caps(ack: &[u8]) -> DeviceCaps
    requires { 129 ≤ length ack.now }
    ensures { result ≡ (decode device_codec ack.now 1).caps }
{
    DeviceCaps {
        flags: wire::get(ack, 1),
        region: wire::get(ack, 9),
        page: wire::get(ack, 17),
        version: wire::get(ack, 25),
    }
}

fn get_work(ack: &[u8]) -> DeviceWork
    requires { 129 ≤ length ack.now }
    ensures { result ≡ (decode device_codec ack.now 1).work }
{
    DeviceWork {
        requests: wire::get(ack, 29),
        sends: wire::get(ack, 33),
        receives: wire::get(ack, 37),
        reads: wire::get(ack, 41),
        entries: wire::get(ack, 45),
    }
}

fn get_objects(ack: &[u8]) -> DeviceObjects
    requires { 129 ≤ length ack.now }
    ensures { result ≡ (decode device_codec ack.now 1).objects }
{
    DeviceObjects {
        regions: wire::get(ack, 49),
        domains: wire::get(ack, 53),
        responses: wire::get(ack, 57),
        initiations: wire::get(ack, 61),
        handles: wire::get(ack, 65),
        delay: wire::get(ack, 69),
    }
}

// ---- what a query reports, in the SIZE bytes behind the ack byte

pub trait Report {
    const SIZE: usize;

    ghost SIZE: { ℕ };

    ghost written: { List ℕ → Self → List ℕ };

    ghost told: { List ℕ → Self };

    // Bytes of no field are written as zero.
    fn put(self, ack: &mut [u8])
        requires { SIZE < length ack.old }
        ensures { ack.new ≡ written ack.old self };

    fn get(ack: &[u8]) -> Self
        requires { SIZE < length ack.now }
        ensures { result ≡ told ack.now };
}

// Reads a query's ack.
pub fn read_report<T: Report>(ack: &[u8]) -> Result<T, Refusal>
    ensures { result ≡ report_read T.SIZE T.told ack.now }
{
    if ack.len() <= T::SIZE {
        return Err(Refusal::WrongLength);
    }
    if wire::get::<u8>(ack, 0) != 0 {
        return Err(Refusal::BadField);
    }
    Ok(T::get(ack))
}

// The report of command 0.
impl Report for Device {
    const SIZE: usize = DEVICE_ACK - 1;

    ghost SIZE = { 128 };

    ghost written = { λ a d. encode device_codec a 1 d };

    ghost told = { λ a. decode device_codec a 1 };

    fn put(self, ack: &mut [u8]) {
        put_caps(ack, self.caps);
        put_work(ack, self.work);
        put_objects(ack, self.objects);
        wire::put_zeros(ack, 70, 59);
    }

    fn get(ack: &[u8]) -> Device {
        Device {
            caps: get_caps(ack),
            work: get_work(ack),
            objects: get_objects(ack),
        }
    }
}

// The report of command 1.
impl Report for Port {
    const SIZE: usize = PORT_ACK - 1;

    ghost SIZE = { 32 };

    ghost written = { λ a p. encode port_codec a 1 p };

    ghost told = { λ a. decode port_codec a 1 };

    fn put(self, ack: &mut [u8]) {
        wire::put(ack, 1, self.gids);
        wire::put(ack, 5, self.message);
        wire::put_zeros(ack, 9, 24);
    }

    fn get(ack: &[u8]) -> Port {
        Port {
            gids: wire::get(ack, 1),
            message: wire::get(ack, 5),
        }
    }
}

// ---- the two acks, each read by a function of its own: ReadBack speaks of what these give

// Reads an ack of command 0.
#[tactic(auto, unfolding(tables::specs::Queries::device_codec, tables::specs::Queries::device_read))]
pub fn read_device(ack: &[u8]) -> Result<Device, Refusal>
    ensures { result ≡ device_read ack.now }
{
    read_report::<Device>(ack)
}

// Reads an ack of command 1.
#[tactic(auto, unfolding(tables::specs::Queries::port_codec, tables::specs::Queries::port_read))]
pub fn read_port(ack: &[u8]) -> Result<Port, Refusal>
    ensures { result ≡ port_read ack.now }
{
    read_report::<Port>(ack)
}
