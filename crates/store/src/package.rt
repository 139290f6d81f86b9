// A package read whole, as strictly as what it stands in says: its start, its elements from left to right into the tables, its end.
// A store is one package with nothing after it, in which padding is taken. Elements are read alone, too, with no package around them.
ghost use Rattle.std.specs.Prelude.{◌≡◌, []};
ghost use Rattle.objects.specs.Steps.{Good};
ghost use Rattle.store.specs.Tables.{most_elements};
ghost use Rattle.store.specs.Store.{package_start, packaged_of, stored_of, nothing_of, beginning_of, elements_walk, package_walk, store_strictness, store_walk, PackageTo, WalkedTo};

use crate::element::{Before, ELEMENT, PACKAGE, Strictness, read_element};
use crate::table::{ID_NUMBERS, KEY_MARKS, MOST_ELEMENTS, ROW_NUMBERS, put_id, put_mark, put_row};
use numbers::compact::PADDING_TAKEN;
use numbers::refusal::{LONGEST_INPUT, Refusal, over_long};
use objects::layout::{COMPOUND, NO_ROOM, NOTHING, ROOM, ReadObjects};
use objects::reading::{FRONT, ReadFields, Reading};

// So many levels are left inside an element of a store, and of an answer.
pub const LEVELS_INSIDE: usize = 14;

// Padding is taken inside a store.
const STORE_PADDING: bool = PADDING_TAKEN;

// How strictly a store's elements are read.
fn store_strictness() -> Strictness
    ensures { result ≡ store_strictness }
{
    Strictness {
        padding: STORE_PADDING,
        levels: LEVELS_INSIDE,
        serials: true,
    }
}

// The place behind a package, and how many elements it holds.
pub type Packaged = Result<(usize, usize), Refusal>;

// How many elements a store holds.
pub type Stored = Result<usize, Refusal>;

// What stands behind the start of a store's package: an element; or none.
#[derive(Drop)]
pub enum Beginning {
    Elements,
    Nothing,
}

// The start of the package inside an open object of type `outer`, and its reserved byte.
pub fn package_start(s: &[u8], c: Reading, outer: u64, padding: bool) -> Reading
    ensures { result ≡ package_start padding outer s.now c }
{
    c.start_of_length(s, outer, PACKAGE, COMPOUND, ROOM, 1, padding)
        .skip(s, 1)
}

// n elements and the place behind them, if no fault stands.
#[tactic(auto, unfolding(crate::specs::Store::packaged_of))]
fn packaged_if_fine(n: usize, c: Reading) -> Packaged
    ensures { result ≡ packaged_of n c }
{
    let (e, _) = c?;
    Ok((e, n))
}

// n elements, if no fault stands.
#[tactic(auto, unfolding(crate::specs::Store::stored_of))]
fn count_if_fine(n: usize, c: Reading) -> Stored
    ensures { result ≡ stored_of n c }
{
    c?;
    Ok(n)
}

// Nothing, if no fault stands.
#[tactic(auto, unfolding(crate::specs::Store::nothing_of))]
fn nothing_if_fine(c: Reading) -> Result<Beginning, Refusal>
    ensures { result ≡ nothing_of c }
{
    c?;
    Ok(Beginning::Nothing)
}

// The elements from c on, into the tables.
fn walk(
    s: &[u8],
    c: Reading,
    rows: &mut [u64; ROW_NUMBERS],
    ids: &mut [u64; ID_NUMBERS],
    marks: &mut [u8; KEY_MARKS as usize],
    strict: Strictness,
) -> Packaged
    requires { Good s.now c }
    ensures { PackageTo (elements_walk strict most_elements s.now [] c) result rows.old rows.new ids.old ids.new }
{
    let mut at = c;
    let mut n = 0;
    // What stands next ends the loop, and not the count: a `for` would ask again behind the last element for what stands there.
    while at.next_is(s, ELEMENT) {
        if n == MOST_ELEMENTS {
            return packaged_if_fine(
                n,
                at.start(s, PACKAGE, ELEMENT, COMPOUND, NO_ROOM, strict.padding),
            );
        }
        let before = Before {
            ids,
            marks,
            count: n,
        };
        let x = read_element(s, at, before, strict)?;
        put_row(rows, n, x);
        put_id(ids, n, x.id);
        put_mark(marks, x.id);
        n += 1;
        at = Ok((x.place + x.length, 0));
    }
    packaged_if_fine(n, at)
}

// The elements that stand one behind the other from c on: the place behind the last one, and how many they are. Each table then holds
// what belongs to those that were read, and behind it what it held, on a refusal too. Ruled out (proofs/WrongAnswers), of no bytes: 2,
// for nothing is missing; a count of one.
pub fn read_elements(
    s: &[u8],
    c: Reading,
    rows: &mut [u64; ROW_NUMBERS],
    ids: &mut [u64; ID_NUMBERS],
    strict: Strictness,
) -> Packaged
    requires { Good s.now c }
    ensures { PackageTo (elements_walk strict most_elements s.now [] c) result rows.old rows.new ids.old ids.new }
{
    let mut marks = [0u8; KEY_MARKS as usize];
    walk(s, c, rows, ids, &mut marks, strict)
}

// The package that begins here, inside an open object of type `outer`: each table then holds what belongs to the elements that were
// read, and behind it what it held, on a refusal too. Ruled out (proofs/WrongAnswers), of the package without elements: a count of
// one; the place of its end for the place behind it.
pub fn read_package(
    s: &[u8],
    c: Reading,
    outer: u64,
    rows: &mut [u64; ROW_NUMBERS],
    ids: &mut [u64; ID_NUMBERS],
    strict: Strictness,
) -> Packaged
    requires { Good s.now c }
    ensures { PackageTo (package_walk strict outer s.now c) result rows.old rows.new ids.old ids.new }
{
    let first = package_start(s, c, outer, strict.padding);
    let (e, n) = read_elements(s, first, rows, ids, strict)?;
    let behind: Reading = Ok((e, 0));
    packaged_if_fine(n, behind.end(s, PACKAGE))
}

// A store, its rows and its ids: each table then holds those of the elements that were read, and behind them what it held,
// on a refusal too. Ruled out (proofs/WrongAnswers): a count of one for the store without elements; a row not written; 3 for
// a padded number; 11 for a serial number that stands twice.
pub fn read_store(s: &[u8], rows: &mut [u64; ROW_NUMBERS], ids: &mut [u64; ID_NUMBERS]) -> Stored
    ensures { WalkedTo (store_walk s.now) result rows.old rows.new ids.old ids.new }
{
    if LONGEST_INPUT < s.len() {
        return Err(over_long());
    }
    let (e, n) = read_package(s, FRONT, NOTHING, rows, ids, store_strictness())?;
    let behind: Reading = Ok((e, 0));
    count_if_fine(n, behind.finish(s))
}

// A store up to its first element, and one without elements whole: so much is read without tables, which cost their clearing. Ruled out
// (proofs/WrongAnswers): of no bytes, nothing; of the store without elements, an element.
pub fn begin_store(s: &[u8]) -> Result<Beginning, Refusal>
    ensures { result ≡ beginning_of s.now }
{
    if LONGEST_INPUT < s.len() {
        return Err(over_long());
    }
    let first = package_start(s, FRONT, NOTHING, STORE_PADDING);
    if first.next_is(s, ELEMENT) {
        return Ok(Beginning::Elements);
    }
    nothing_if_fine(first.end(s, PACKAGE).finish(s))
}
