// The working tables of a store: rows of six numbers (place, length, type, the serial's GUID as two little-endian numbers,
// the serial's number) and ids of three (the GUID as two numbers, the number). No other file knows their columns; `order` writes
// the rows of the lent table, which have a rank besides, and `pages` weighs rows by the column of lengths. They are tables of numbers, and
// not of structs: of those who read into them it is promised what each number is, behind the rows and on a refusal too (`WalkedTo`).
ghost use Rattle.std.specs.Prelude.{◌≡◌, ◌++◌, ◌+◌, ◌*◌, ◌≤◌, ◌<◌, length, take, drop, set};
ghost use Rattle.laws.specs.Once.{seen};
ghost use Rattle.store.specs.Element.{same_key};
ghost use Rattle.store.specs.Tables.{row_width, id_width, RowsStand, key_at, keys_at, row_of, id_of, id_in_row, element_in_row, mark_of, key_marks, Marked};

use crate::element::{Element, Key};

// At most so many elements; how many numbers a row and an id have; and the numbers of tables with room for all.
pub const MOST_ELEMENTS: usize = 256;

pub const ROW_WIDTH: usize = 6;

pub const ID_WIDTH: usize = 3;

// Where in a row the length stands, and the serial number.
pub const LENGTH_COLUMN: usize = 1;

pub(crate) const SERIAL_COLUMN: usize = 3;

pub const ROW_NUMBERS: usize = 1536;

pub const ID_NUMBERS: usize = 768;

// Among how many the keys of a store have their marks.
pub const KEY_MARKS: u64 = 4096;

// The key of three numbers at a place of a table.
#[tactic(auto, unfolding(crate::specs::Tables::key_at))]
pub(crate) fn key_at(t: &[u64], at: usize) -> Key
    requires { at + 3 ≤ length t.now }
    ensures { result ≡ key_at t.now at }
{
    Key {
        low: t[at],
        high: t[at + 1],
        number: t[at + 2],
    }
}

#[tactic(auto, unfolding(crate::specs::Element::same_key))]
pub fn same_key(a: Key, b: Key) -> bool
    ensures { result ≡ same_key a b }
{
    // Number by number: the derived `==` made reading 256 elements slower by a twentieth (`make speed`).
    a.low == b.low && a.high == b.high && a.number == b.number
}

// Where a key's mark stands, among so many: few enough that the sum fits.
pub fn mark_of(k: Key, width: u64) -> usize
    requires { (0 < width) × (width ≤ 65536) }
    ensures { (result ≡ mark_of width k) × (result < width) }
{
    ((k.number % width + k.low % width) % width) as usize
}

// The key's mark is set.
pub(crate) fn put_mark(marks: &mut [u8; KEY_MARKS as usize], k: Key)
    ensures { marks.new ≡ set marks.old (mark_of key_marks k) 1 }
{
    let at = mark_of(k, KEY_MARKS);
    marks[at] = 1;
}

// Whether a key is among those of n rows, each with a key at this offset. Only a key whose mark is set is searched for.
pub(crate) fn seen_key(
    t: &[u64],
    marks: &[u8],
    offset: usize,
    width: usize,
    n: usize,
    k: Key,
) -> bool
    requires { (offset + 3 ≤ width) × (n * width ≤ length t.now) × (key_marks ≤ length marks.now) × Marked marks.now (keys_at t.now offset width n) }
    ensures { result ≡ seen same_key k (keys_at t.now offset width n) }
{
    let at = mark_of(k, KEY_MARKS);
    if marks[at] == 0 {
        return false;
    }
    search_key(t, offset, width, n, k)
}

#[tactic(auto, using(crate::proofs::Rows::key_room))]
fn search_key(t: &[u64], offset: usize, width: usize, n: usize, k: Key) -> bool
    requires { (offset + 3 ≤ width) × (n * width ≤ length t.now) }
    ensures { result ≡ seen same_key k (keys_at t.now offset width n) }
{
    for i in 0..n {
        if same_key(k, key_at(t, i * width + offset)) {
            return true;
        }
    }
    false
}

// The row of an element behind n rows.
#[tactic(auto, using(crate::proofs::Stores::put_six))]
pub(crate) fn put_row(t: &mut [u64], n: usize, x: Element)
    requires { n * row_width + row_width ≤ length t.old }
    ensures { t.new ≡ take (n * row_width) t.old ++ (row_of x ++ drop (n * row_width + row_width) t.old) }
{
    let at = n * ROW_WIDTH;
    t[at] = x.place as u64;
    t[at + 1] = x.length as u64;
    t[at + 2] = x.kind;
    t[at + 3] = x.serial.low;
    t[at + 4] = x.serial.high;
    t[at + 5] = x.serial.number;
}

// An id behind n ids.
#[tactic(auto, using(crate::proofs::Stores::put_three))]
pub(crate) fn put_id(t: &mut [u64], n: usize, k: Key)
    requires { n * id_width + id_width ≤ length t.old }
    ensures { t.new ≡ take (n * id_width) t.old ++ (id_of k ++ drop (n * id_width + id_width) t.old) }
{
    let at = n * ID_WIDTH;
    t[at] = k.low;
    t[at + 1] = k.high;
    t[at + 2] = k.number;
}

// The id of row i. Ruled out (proofs/WrongAnswers): that of another row; its halves turned.
pub fn id_in_row(ids: &[u64], i: usize) -> Key
    requires { i * id_width + id_width ≤ length ids.now }
    ensures { result ≡ id_in_row ids.now i }
{
    key_at(ids, i * ID_WIDTH)
}

// The element of row i. Ruled out (proofs/WrongAnswers): its columns turned, the length for the place; the id of another row.
#[tactic(auto, unfolding(crate::specs::Tables::element_in_row))]
pub fn element_in_row(rows: &[u64], ids: &[u64], i: usize) -> Element
    requires { RowsStand rows.now ids.now (i + 1) }
    ensures { result ≡ element_in_row rows.now ids.now i }
{
    let at = i * ROW_WIDTH;
    Element {
        place: rows[at] as usize,
        length: rows[at + 1] as usize,
        kind: rows[at + 2],
        id: id_in_row(ids, i),
        serial: key_at(rows, at + SERIAL_COLUMN),
    }
}

// The elements of a store, as they stand in its working tables.
#[derive(Clone, Copy)]
pub struct Elements<'a> {
    pub rows: &'a [u64],
    pub ids: &'a [u64],
    pub count: usize,
    pub ghost stand: { RowsStand rows.now ids.now count },
}

impl Elements<'_> {
    // The element of row i.
    pub fn element(self, i: usize) -> Element
        requires { i < self.count }
        ensures { result ≡ element_in_row self.entry.rows.now self.entry.ids.now i }
    {
        element_in_row(self.rows, self.ids, i)
    }
}
