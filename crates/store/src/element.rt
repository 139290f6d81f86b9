// One element and its parts: the header, the id, the serial number, the type, and what is inside.
ghost use Rattle.std.specs.Prelude.{◌≡◌};
ghost use Rattle.store.specs.Element.{key_of, named_key, numbered_key, any_key, fresh_key, key_here, id_field, serial_field, fields_of, element_on, element_at};
ghost use Rattle.objects.specs.Steps.{Behind};
ghost use Rattle.store.specs.Tables.{id_keys, Lent};

use crate::table::{ID_WIDTH, seen_key};
use numbers::guid::Guid;
use numbers::refusal::{Fault, Refusal, at_place};
use objects::layout::{COMPOUND, ROOM, ReadObjects, closed};
use objects::reading::{FRONT, GoesOn, ReadFields, Reading, ReadingId, ReadingSerial, Reads};

// The types of the two objects that a store is made of. A type is a number, and no enum: any may come, and most are only passed over.
pub const ELEMENT: u64 = 0x01;

pub const PACKAGE: u64 = 0x15;

// An id or a serial number that is not null: the GUID as two little-endian numbers, and the number.
#[derive(Clone, Copy, PartialEq, Eq)]
pub struct Key {
    pub low: u64,
    pub high: u64,
    pub number: u64,
}

// An element of a store: where it stands, how long it is from its start to its end, its type, its id and serial number.
#[derive(Clone, Copy)]
pub struct Element {
    pub place: usize,
    pub length: usize,
    pub kind: u64,
    pub id: Key,
    pub serial: Key,
}

// How strictly the elements of a package are read, which goes by what the package stands in: whether padding is taken, how many levels
// are left inside an element, and whether serial numbers are judged (10) or only their form is.
#[derive(Clone, Copy)]
pub struct Strictness {
    pub padding: bool,
    pub levels: usize,
    pub serials: bool,
}

// The place behind an id or a serial number, and it.
pub type ReadingKey = Reads<Key>;

// The ids of the elements before one and their marks, among which its own id is looked for.
#[derive(Clone, Copy)]
pub(crate) struct Before<'a> {
    pub(crate) ids: &'a [u64],
    pub(crate) marks: &'a [u8],
    pub(crate) count: usize,
}

// The fields of an element; `last` stands behind them, with the type as its number.
#[derive(Drop)]
pub struct Fields {
    pub id: Key,
    pub serial: Key,
    pub last: Reading,
}

pub type ReadElement = Result<Element, Refusal>;

// A GUID and a number.
pub fn key_of(g: Guid, number: u64) -> Key
    ensures { result ≡ key_of g number }
{
    Key {
        low: g.low,
        high: g.high,
        number,
    }
}

// An id that stands at p and must not be null.
#[tactic(auto, unfolding(crate::specs::Element::named_key))]
fn named_key(c: ReadingId, p: usize) -> ReadingKey
    ensures { result ≡ named_key p c }
{
    let (q, x) = c?;
    match x {
        None => Err(at_place(Fault::NullName as u8, p)),
        Some((g, number)) => Ok((q, key_of(g, number as u64))),
    }
}

// A serial number that stands at p and must not be null. (It has 64 bits, and an id's number 32: one function for both would need a bound
// for that, with a law of its own.)
#[tactic(auto, unfolding(crate::specs::Element::numbered_key))]
fn numbered_key(c: ReadingSerial, p: usize) -> ReadingKey
    ensures { result ≡ numbered_key p c }
{
    let (q, x) = c?;
    match x {
        None => Err(at_place(Fault::NullName as u8, p)),
        Some((g, number)) => Ok((q, key_of(g, number))),
    }
}

// A serial number of which only the form counts: a null one is a key of zeros.
#[tactic(auto, unfolding(crate::specs::Element::any_key))]
fn any_key(c: ReadingSerial) -> ReadingKey
    ensures { result ≡ any_key c }
{
    let (q, x) = c?;
    match x {
        None => Ok((
            q,
            Key {
                low: 0,
                high: 0,
                number: 0,
            },
        )),
        Some((g, number)) => Ok((q, key_of(g, number))),
    }
}

// It stands at p and must not have been seen before.
#[tactic(auto, unfolding(crate::specs::Element::fresh_key))]
fn fresh_key(c: ReadingKey, p: usize, was: bool) -> ReadingKey
    ensures { result ≡ fresh_key p was c }
{
    let (q, k) = c?;
    if was {
        return Err(at_place(Fault::SeenBefore as u8, p));
    }
    Ok((q, k))
}

// The key that was read; zeros after a fault.
#[tactic(auto, unfolding(crate::specs::Element::key_here))]
fn key_here(c: ReadingKey) -> Key
    ensures { result ≡ key_here c }
{
    match c {
        Ok((_, k)) => k,
        Err(_) => Key {
            low: 0,
            high: 0,
            number: 0,
        },
    }
}

// The id at the front of an element's data.
#[tactic(auto, unfolding(crate::specs::Element::id_field))]
fn id_field(d: &[u8], before: Before) -> ReadingKey
    requires { Lent before.ids.now before.marks.now before.count }
    ensures { result ≡ id_field (id_keys before.entry.ids.now before.entry.count) d.now }
{
    let c = named_key(FRONT.extended_guid(d), 0);
    let was = seen_key(
        before.ids,
        before.marks,
        0,
        ID_WIDTH,
        before.count,
        key_here(c),
    );
    fresh_key(c, 0, was)
}

// The serial number behind it, which must not be null if serial numbers are judged. It may stand twice: "11 is kept for ids only".
fn serial_field(d: &[u8], c: Reading, strict: Strictness) -> ReadingKey
    ensures { result ≡ serial_field strict.serials d.now c }
{
    if strict.serials {
        return numbered_key(c.serial(d), c.place());
    }
    any_key(c.serial(d))
}

// The fields of an element, in the part that its data run is.
#[tactic(auto, unfolding(crate::specs::Element::fields_of))]
fn read_fields(d: &[u8], before: Before, strict: Strictness) -> Fields
    requires { Lent before.ids.now before.marks.now before.count }
    ensures { result ≡ fields_of strict (id_keys before.entry.ids.now before.entry.count) d.now }
{
    let i = id_field(d, before);
    let k = serial_field(d, i.on(), strict);
    Fields {
        id: key_here(i),
        serial: key_here(k),
        last: k.on().number(d, strict.padding),
    }
}

// The element that begins here.
pub(crate) fn read_element(s: &[u8], c: Reading, before: Before, strict: Strictness) -> ReadElement
    requires { Lent before.ids.now before.marks.now before.count }
    ensures { result ≡ element_at strict (id_keys before.entry.ids.now before.entry.count) s.now c }
{
    let o = c.start(s, PACKAGE, ELEMENT, COMPOUND, ROOM, strict.padding);
    let f = read_fields(o.run(s), before, strict);
    let k = closed(o, s, f.last);
    let e = k.inside(s, strict.levels, ELEMENT, strict.padding);
    element_on(c.place(), f, k.value(), e)
}

// The element, if its end was reached.
#[tactic(auto, unfolding(crate::specs::Element::element_on))]
fn element_on(at: usize, f: Fields, kind: u64, e: Reading) -> ReadElement
    requires { Behind at e }
    ensures { result ≡ element_on at f kind e }
{
    let (p, _) = e?;
    Ok(Element {
        place: at,
        length: p - at,
        kind,
        id: f.id,
        serial: f.serial,
    })
}
