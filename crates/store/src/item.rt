// Ranges and entries of a cell knowledge, read one at a time.
ghost use Rattle.std.specs.Prelude.{◌≡◌};
ghost use Rattle.store.specs.Knowledge.{guid_in, range_fields, item_of, range_start, range_item, entry_of, entry_item, item_next, item_kind, item_at};

use numbers::guid::Guid;
use numbers::refusal::{Fault, Refusal};
use objects::header::short_number;
use objects::layout::{PLAIN, ROOM, ReadObjects, closed};
use objects::reading::{FRONT, GoesOn, ReadFields, Reading, ReadingGuid, ReadingSerial, Reads};
use ranges::range_of;
use talk::range::Range;

// The types of the objects.
pub const CELL: u64 = 0x14;

pub const RANGE: u64 = 0x0F;

pub const ENTRY: u64 = 0x17;

// The first byte of a range's start of 16 bits. The second is twice the length of its data.
pub const SHORT_RANGE: u8 = 0x78;

// The fields of a range; `last` stands behind them.
#[derive(Drop)]
pub struct RangeFields {
    pub range: Range,
    pub last: Reading,
}

// The place behind a range or an entry, and what it adds.
pub type Item = Reads<Option<Range>>;

// The GUID that was read.
fn guid_in(c: ReadingGuid) -> Guid
    ensures { result ≡ guid_in c }
{
    match c {
        Ok((_, g)) => g,
        Err(_) => Guid { low: 0, high: 0 },
    }
}

// The fields of a range, in the part that its data run is.
fn range_fields(d: &[u8], padding: bool) -> RangeFields
    ensures { result ≡ range_fields padding d.now }
{
    let g = FRONT.guid(d);
    let from = g.on().number(d, padding);
    let to = from.number(d, padding);
    let first = from.value();
    let second = to.value();
    RangeFields {
        range: range_of(guid_in(g), first, second),
        last: to.need(first <= second, Fault::FromAboveTo as u8, from.place()),
    }
}

// A range, if no fault stands behind it.
#[tactic(auto, unfolding(crate::specs::Knowledge::item_of))]
fn item_of(x: Range, c: Reading) -> Item
    ensures { result ≡ item_of x c }
{
    let (e, _) = c?;
    Ok((e, Some(x)))
}

// The start of a range. Most are of two bytes, and these are told by them alone, as one number: the first byte below, and above it
// twice the length, which is below 128 there.
fn range_start(s: &[u8], c: Reading, padding: bool) -> Reading
    ensures { result ≡ range_start padding s.now c }
{
    let (at, _) = c?;
    let w = short_number(s, at);
    let n = w / 512;
    if w % 512 == SHORT_RANGE as u64 {
        if n < 128 {
            return Ok((at + 2, n));
        }
    }
    c.start(s, CELL, RANGE, PLAIN, ROOM, padding)
}

// The range that begins here.
fn range_item(s: &[u8], c: Reading, padding: bool) -> Item
    ensures { result ≡ range_item padding s.now c }
{
    let o = range_start(s, c, padding);
    let f = range_fields(o.run(s), padding);
    item_of(f.range, closed(o, s, f.last))
}

// An entry, if no fault stands behind it: a null one adds nothing.
#[tactic(auto, unfolding(crate::specs::Knowledge::entry_of))]
fn entry_of(k: ReadingSerial, c: Reading) -> Item
    ensures { result ≡ entry_of k c }
{
    let (e, _) = c?;
    let (_, x) = k?;
    match x {
        None => Ok((e, None)),
        Some((g, n)) => Ok((e, Some(range_of(g, n, n)))),
    }
}

// The entry that begins here.
fn entry_item(s: &[u8], c: Reading, padding: bool) -> Item
    ensures { result ≡ entry_item padding s.now c }
{
    let o = c.start(s, CELL, ENTRY, PLAIN, ROOM, padding);
    let k = FRONT.serial(o.run(s));
    entry_of(k, closed(o, s, k.on()))
}

// Whether a range or an entry stands here.
#[tactic(auto, unfolding(crate::specs::Knowledge::item_next))]
pub(crate) fn item_next(s: &[u8], c: Reading) -> bool
    ensures { result ≡ item_next s.now c }
{
    c.next_is(s, RANGE) || c.next_is(s, ENTRY)
}

// Which of the two.
pub(crate) fn item_kind(s: &[u8], c: Reading) -> u64
    ensures { result ≡ item_kind s.now c }
{
    if c.next_is(s, RANGE) {
        return RANGE;
    }
    ENTRY
}

// The range or the entry that begins here.
pub(crate) fn read_item(s: &[u8], c: Reading, padding: bool) -> Item
    ensures { result ≡ item_at padding s.now c }
{
    if c.next_is(s, RANGE) {
        return range_item(s, c, padding);
    }
    entry_item(s, c, padding)
}
