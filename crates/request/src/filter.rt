// Filters, read one at a time: kind and operation, and the object that the kind has inside. Padding is refused, as in all of a request.
ghost use Rattle.std.specs.Prelude.{◌≡◌, IfSome};
ghost use Rattle.request.specs.Filter.{kind_taken, kind_field, filter_start, filter_opened, filter_fields, one_number, type_part, id_step, ids_from, ids_field, ids_part, kind_part, filter_at, filters_from};
ghost use Rattle.objects.specs.Steps.{run_here};
ghost use Rattle.request.specs.ShortId.{short_id, Seen};

use numbers::compact::PADDING_REFUSED;
use numbers::refusal::Fault;
use objects::layout::{COMPOUND, NO_ROOM, PLAIN, ROOM, ReadObjects, closed};
use objects::reading::{FRONT, GoesOn, ReadFields, Reading};

// The types of the objects.
pub const SUB_REQUEST: u64 = 0x42;

pub const FILTER: u64 = 0x47;

pub const FILTER_TYPE: u64 = 0x57;

pub const FILTER_IDS: u64 = 0x54;

// At most so many filters, and so many ids in one.
pub const MOST_FILTERS: u64 = 16;

pub const MOST_IDS: u64 = 64;

// Padding is refused in every part of a request, and in what is handed in to be written into one.
pub const REQUEST_PADDING: bool = PADDING_REFUSED;

// The kinds of filters that are taken: All, Data Element Type, Data Element IDs.
pub const ALL: u64 = 1;

pub const OF_TYPE: u64 = 2;

pub const WITH_IDS: u64 = 6;

// The two bytes of a filter; `last` stands behind them.
#[derive(Drop)]
pub struct FilterFields {
    pub kind: u64,
    pub operation: u64,
    pub last: Reading,
}

#[tactic(auto, unfolding(crate::specs::Filter::kind_taken))]
fn kind_taken(k: u64) -> bool
    ensures { result ≡ kind_taken k }
{
    matches!(k, ALL | OF_TYPE | WITH_IDS)
}

// The kind, in the part that the filter's data run is.
fn kind_field(d: &[u8]) -> Reading
    ensures { result ≡ kind_field d.now }
{
    let k = FRONT.fixed_in(d, 1, 0, 255, Fault::NotServed as u8);
    k.need(kind_taken(k.value()), Fault::NotServed as u8, 0)
}

// Both bytes.
#[tactic(auto, unfolding(crate::specs::Filter::filter_fields))]
pub(crate) fn filter_fields(d: &[u8]) -> FilterFields
    ensures { result ≡ filter_fields d.now }
{
    let k = kind_field(d);
    let last = k.fixed_in(d, 1, 0, 1, Fault::NotServed as u8);
    FilterFields {
        kind: k.value(),
        operation: last.value(),
        last,
    }
}

// A data run of one number.
#[tactic(auto, unfolding(crate::specs::Filter::one_number))]
pub(crate) fn one_number(d: &[u8]) -> Reading
    ensures { result ≡ one_number d.now }
{
    FRONT.number(d, REQUEST_PADDING)
}

// The type that a filter of that kind has inside.
#[tactic(auto, using(crate::proofs::Inside::good_one_number), unfolding(crate::specs::Filter::type_part))]
pub(crate) fn type_part(s: &[u8], c: Reading) -> Reading
    ensures { result ≡ type_part s.now c }
{
    let o = c.start(s, FILTER, FILTER_TYPE, PLAIN, ROOM, REQUEST_PADDING);
    closed(o, s, one_number(o.run(s)))
}

// How long the id at the front of a part of 18 bytes or more is, where that is seen without reading it: in the form of 17 bytes, and in
// that of 18 where the number is in the form's range, as it is 32 or more if its upper byte is 8 or more.
#[tactic(auto, using(crate::proofs::ShortIds::seen_17, crate::proofs::ShortIds::seen_18), unfolding(crate::specs::ShortId::short_id))]
fn short_id(s: &[u8]) -> Option<usize>
    ensures told { result ≡ short_id s.now }
    ensures seen { IfSome result (Seen s.now) }
{
    if s.len() < 18 {
        return None;
    }
    match s[0].trailing_zeros() {
        2 => Some(17),
        5 if 8 <= s[1] => Some(18),
        _ => None,
    }
}

// Past the id at c. Nobody asks for its GUID here, so where its length is seen the GUID is not read.
fn past_id(d: &[u8], c: Reading) -> Reading
    ensures { result ≡ id_step d.now c }
{
    if let Ok((at, _)) = c
        && let Some(rest) = d.get(at..)
        && let Some(n) = short_id(rest)
    {
        return Ok((at + n, 0));
    }
    c.extended_guid(d).on()
}

// n ids, from c on.
fn ids_from(d: &[u8], n: u64, c: Reading) -> Reading
    ensures { result ≡ ids_from 64 d.now n c }
{
    let mut at = c;
    for i in 0..n {
        let next = past_id(d, at);
        if i == MOST_IDS {
            return next.need(false, Fault::TooMany as u8, at.place());
        }
        at = next;
    }
    at
}

// The count of ids, and the ids.
#[tactic(auto, unfolding(crate::specs::Filter::ids_field))]
fn ids_field(d: &[u8]) -> Reading
    ensures { result ≡ ids_field d.now }
{
    let n = one_number(d);
    ids_from(d, n.value(), n)
}

// The ids that a filter of that kind has inside.
#[tactic(auto, using(crate::proofs::Inside::good_ids_field), unfolding(crate::specs::Filter::ids_part))]
fn ids_part(s: &[u8], c: Reading) -> Reading
    ensures { result ≡ ids_part s.now c }
{
    let o = c.start(s, FILTER, FILTER_IDS, PLAIN, ROOM, REQUEST_PADDING);
    closed(o, s, ids_field(o.run(s)))
}

// What a filter of this kind has inside.
#[tactic(auto, unfolding(crate::specs::Filter::kind_part))]
fn kind_part(s: &[u8], kind: u64, c: Reading) -> Reading
    ensures { result ≡ kind_part s.now kind c }
{
    match kind {
        OF_TYPE => type_part(s, c),
        WITH_IDS => ids_part(s, c),
        _ => c,
    }
}

// The filter that begins here, read as far as behind its two bytes.
#[tactic(auto, using(crate::proofs::Inside::good_filter_fields), unfolding(crate::specs::Filter::filter_opened))]
pub(crate) fn open_filter(s: &[u8], c: Reading) -> FilterFields
    ensures { result ≡ record (filter_fields (run_here s.now (filter_start s.now c))) { last = filter_opened s.now c } }
{
    let o = c.start(s, SUB_REQUEST, FILTER, COMPOUND, ROOM, REQUEST_PADDING);
    let f = filter_fields(o.run(s));
    FilterFields {
        kind: f.kind,
        operation: f.operation,
        last: closed(o, s, f.last),
    }
}

// The filter that begins here.
#[tactic(auto, unfolding(crate::specs::Filter::filter_at))]
fn filter_at(s: &[u8], c: Reading) -> Reading
    ensures { result ≡ filter_at s.now c }
{
    let f = open_filter(s, c);
    kind_part(s, f.kind, f.last).end(s, FILTER)
}

// The filters; the number is how many they are.
pub fn read_filters(s: &[u8], c: Reading) -> Reading
    ensures { result ≡ filters_from 16 s.now c }
{
    let mut at = c;
    for n in 0..MOST_FILTERS {
        if !at.next_is(s, FILTER) {
            return at.valued(n);
        }
        at = filter_at(s, at);
    }
    if at.next_is(s, FILTER) {
        return at.start(s, SUB_REQUEST, FILTER, COMPOUND, NO_ROOM, REQUEST_PADDING);
    }
    at.valued(MOST_FILTERS)
}
