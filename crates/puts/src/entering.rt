// An element of a put as it enters the store: its id, its type and what is inside it as they came, behind the shortest start for its data
// with the new serial number.
ghost use Rattle.std.specs.Prelude.{◌≡◌, ◌+◌, ◌^◌, ◌≤◌, ◌<◌, length};
ghost use Rattle.laws.specs.Placed.{Lays};
ghost use Rattle.numbers.specs.Serial.{serial_bytes};
ghost use Rattle.numbers.specs.Results.Serial.{Numbered};
ghost use Rattle.store.specs.Written.{key_guid, written_element, content_in};
ghost use Rattle.puts.specs.Plan.{inside_from, entering_data, data_length, entering_length, Enters};

use numbers::compact::compact_length;
use numbers::extended_guid::extended_guid_length;
use numbers::guid::Guid;
use numbers::serial::write_serial;
use objects::header_write::start_length;
use objects::layout::{COMPOUND, ROOM, ReadObjects, part};
use objects::reading::ReadFields;
use request::filter::REQUEST_PADDING;
use store::element::{ELEMENT, Element, Key, PACKAGE};
use store::held::named;
use store::lay::{lay_extended_guid, lay_number, lay_part, lay_start};

// Where what is inside an element begins: behind the data of its start.
fn inside_from(request: &[u8], x: Element) -> usize
    ensures { result ≡ inside_from request.now x }
{
    let o = Ok((x.place, 0)).start(request, PACKAGE, ELEMENT, COMPOUND, ROOM, REQUEST_PADDING);
    o.skip(request, o.value()).place()
}

// How long its data is with a new serial number, which takes 25 bytes.
fn data_length(x: Element) -> usize
    requires { x.id.number < 2 ^ 32 }
    ensures { (result ≡ data_length x) × (result ≤ 55) }
{
    extended_guid_length(named(x.id)) + 25 + compact_length(x.kind)
}

// How long it is as it enters.
pub(crate) fn entering_length(request: &[u8], x: Element) -> usize
    requires { Enters request.now x }
    ensures { (result ≡ entering_length request.now x) × (result ≤ length request.now + 68) }
{
    let n = data_length(x);
    let inside = x.place + x.length - inside_from(request, x);
    start_length(ELEMENT, n as u64) + n + inside
}

// A serial number at a place.
fn lay_serial(out: &mut [u8], at: usize, k: Key) -> usize
    requires { at + 25 ≤ length out.old }
    ensures { Lays at (serial_bytes (Numbered (key_guid k) k.number)) out.old result out.new }
{
    let _ = write_serial(&mut out[at..], Some((Guid::from(k), k.number)));
    at + 25
}

// The data of its start at a place: the id, this serial number, the type.
fn lay_data(out: &mut [u8], at: usize, x: Element, serial: Key) -> usize
    requires { (x.id.number < 2 ^ 32) × (at + length (entering_data serial x) ≤ length out.old) }
    ensures { Lays at (entering_data serial x) out.old result out.new }
{
    let behind_id = lay_extended_guid(out, at, named(x.id));
    let behind_serial = lay_serial(out, behind_id, serial);
    lay_number(out, behind_serial, x.kind)
}

// The element at a place, with this serial number.
pub(crate) fn lay_entering(
    out: &mut [u8],
    at: usize,
    request: &[u8],
    x: Element,
    serial: Key,
) -> usize
    requires { Enters request.now x × (at + length (written_element (content_in request.now x serial)) ≤ length out.old) }
    ensures { Lays at (written_element (content_in request.now x serial)) out.old result out.new }
{
    let n = data_length(x);
    let from = inside_from(request, x);
    let inside = x.place + x.length - from;
    let behind_start = lay_start(out, at, ELEMENT, COMPOUND, n as u64);
    let behind_data = lay_data(out, behind_start, x, serial);
    lay_part(out, behind_data, part(request, from, inside as u64))
}
