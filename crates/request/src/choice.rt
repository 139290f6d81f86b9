// The filters of a request, put to the elements of a store: a flag for each element says whether they leave it in. A filter is
// read once, and put to every element as it is read, so that the bytes of a request are not read again for each.
ghost use Rattle.std.specs.Prelude.{◌≡◌, ◌+◌, ◌*◌, ◌≤◌, ◌<◌, ℕ, length, get_or, eqb};
ghost use Rattle.request.specs.Filter.{ids_field, kind_part, filter_at};
ghost use Rattle.request.specs.Meaning.{key_in, keys_in, filter_read};
ghost use Rattle.store.specs.Tables.{most_elements};
ghost use Rattle.store.specs.Elements.{elements_of};
ghost use Rattle.request.specs.Choice.{set_flags, set_by_filter, matched_by, with_ids, kind_matches, Chooses};
ghost use Rattle.request.specs.Index.{index_marks, Linked};
ghost use Rattle.request.specs.declared.choice.Matched.TheVariants.{WithId};

use crate::filter::{
    ALL, FILTER, FILTER_IDS, MOST_IDS, OF_TYPE, REQUEST_PADDING, WITH_IDS, one_number, open_filter,
    type_part,
};
use numbers::refusal::Fault;
use objects::layout::{PLAIN, ROOM, ReadObjects, closed};
use objects::reading::{GoesOn, ReadFields, Reading, ReadingId};
use store::element::{Element, Key, key_of};
use store::table::{Elements, MOST_ELEMENTS, id_in_row, mark_of, same_key};

// Among how many the ids have their marks in the index.
const INDEX_MARKS: u64 = 1024;

// What is matched at one go through the elements.
#[derive(Clone, Copy)]
pub enum Matched {
    All,
    OfType(u64),
    WithId(Key),
}

impl Matched {
    // Whether an element is matched.
    #[tactic(auto, unfolding(crate::specs::Choice::matched_by))]
    fn matches(self, x: Element) -> bool
        ensures { result ≡ matched_by self x }
    {
        match self {
            Matched::All => true,
            Matched::OfType(t) => x.kind == t,
            Matched::WithId(k) => same_key(x.id, k),
        }
    }
}

// One go through the elements: the flags of those that are matched are set.
#[tactic(auto, using(crate::proofs::Setting::setting_start))]
fn set_matched(m: Matched, all: Elements, flags: &mut [u8], to: u8)
    requires { all.count ≤ length flags.old }
    ensures { flags.new ≡ set_flags (matched_by m) to (elements_of all.entry) flags.old }
{
    for i in 0..all.count {
        if m.matches(all.element(i)) {
            flags[i] = to;
        }
    }
}

// The elements by the marks of their ids, so that an id of a filter is not put to each of them: `heads` has the last element of each
// mark, and `links` the one before each element that has the same mark, both counted from 1, and 0 where there is none. The two are
// lent, so that an index goes by value and no table with it.
#[derive(Clone, Copy)]
struct Index<'a> {
    all: Elements<'a>,
    heads: &'a [u16; INDEX_MARKS as usize],
    links: &'a [u16; MOST_ELEMENTS],
    ghost marks: { length heads.now ≡ index_marks },
    ghost room: { length links.now ≡ most_elements },
    ghost linked: { all.count ≤ most_elements → Linked heads.now links.now all.ids.now all.count },
}

// Both tables of the index, each of which was all 0. Where `links` has no room for all elements, nothing is written.
fn index_ids(
    all: Elements,
    heads: &mut [u16; INDEX_MARKS as usize],
    links: &mut [u16; MOST_ELEMENTS],
)
    requires { (length heads.old ≡ index_marks) × (length links.old ≡ most_elements) × ((mark : ℕ) → mark < index_marks → get_or heads.old mark 0 ≡ 0) }
    ensures { (length heads.new ≡ index_marks) × (length links.new ≡ most_elements) × (all.entry.count ≤ most_elements → Linked heads.new links.new all.entry.ids.now all.entry.count) }
{
    if MOST_ELEMENTS < all.count {
        return;
    }
    for i in 0..all.count {
        let mark = mark_of(id_in_row(all.ids, i), INDEX_MARKS);
        links[i] = heads[mark];
        heads[mark] = (i + 1) as u16;
    }
}

impl Index<'_> {
    // The flags of the elements with this id are set. Equal ids have equal marks, so only the elements with its mark are looked at,
    // from the last to the first; all are, where there are too many for the index.
    fn set_key(self, k: Key, flags: &mut [u8], to: u8)
        requires { self.all.count ≤ length flags.old }
        ensures { flags.new ≡ set_flags (matched_by (WithId k)) to (elements_of self.entry.all) flags.old }
    {
        let m = Matched::WithId(k);
        if self.all.count > MOST_ELEMENTS {
            set_matched(m, self.all, flags, to);
            return;
        }
        let mut left = self.heads[mark_of(k, INDEX_MARKS)] as usize;
        // A chain is followed, and nothing counted: each row names the one before it.
        while 0 < left {
            let i = left - 1;
            if m.matches(self.all.element(i)) {
                flags[i] = to;
            }
            left = self.links[i] as usize;
        }
    }

    // An id that was read: a null id, which no element has, sets nothing.
    fn set_id(self, c: ReadingId, flags: &mut [u8], to: u8)
        requires { self.all.count ≤ length flags.old }
        ensures { flags.new ≡ set_flags (with_ids (key_in c)) to (elements_of self.entry.all) flags.old }
    {
        match c {
            Err(_) => {}
            Ok((_, x)) => match x {
                None => {}
                Some((g, number)) => {
                    self.set_key(key_of(g, number as u64), flags, to);
                }
            },
        }
    }

    // The ids of a filter, in the part that their data run is: each is looked up as it is read. The answer is the reading behind them,
    // a refusal at the 65th.
    fn set_with_ids(self, d: &[u8], flags: &mut [u8], to: u8) -> Reading
        requires { self.all.count ≤ length flags.old }
        ensures { (result ≡ ids_field d.now) × (flags.new ≡ set_flags (with_ids (keys_in d.now)) to (elements_of self.entry.all) flags.old) }
    {
        let mut at = one_number(d);
        let count = at.value();
        for i in 0..count {
            let id = at.extended_guid(d);
            let next = id.on();
            if i == MOST_IDS {
                return next.need(false, Fault::TooMany as u8, at.place());
            }
            self.set_id(id, flags, to);
            at = next;
        }
        at
    }
}

// What a filter of this kind has inside, read from behind its two bytes; the flags of those it matches are set. The answer is the
// reading behind what is inside.
fn put_kind(s: &[u8], kind: u64, c: Reading, index: Index, flags: &mut [u8], to: u8) -> Reading
    requires { index.all.count ≤ length flags.old }
    ensures { (result ≡ kind_part s.now kind c) × (flags.new ≡ set_flags (kind_matches s.now kind c) to (elements_of index.entry.all) flags.old) }
{
    match kind {
        ALL => {
            set_matched(Matched::All, index.all, flags, to);
            c
        }
        OF_TYPE => {
            let t = type_part(s, c);
            set_matched(Matched::OfType(t.value()), index.all, flags, to);
            t
        }
        WITH_IDS => {
            let listed = c.start(s, FILTER, FILTER_IDS, PLAIN, ROOM, REQUEST_PADDING);
            let e = index.set_with_ids(listed.run(s), flags, to);
            closed(listed, s, e)
        }
        _ => c,
    }
}

// One filter, the whole list of elements, the flags: a later kind may look at other elements than the one it sets. The answer is the
// reading behind the filter.
fn put_filter(s: &[u8], c: Reading, index: Index, flags: &mut [u8]) -> Reading
    requires { index.all.count ≤ length flags.old }
    ensures { (result ≡ filter_at s.now c) × (flags.new ≡ set_by_filter (filter_read s.now c) (elements_of index.entry.all) flags.old) }
{
    let f = open_filter(s, c);
    // Operation 1 sets in, 0 sets out.
    let to = u8::from(f.operation == 1);
    put_kind(s, f.kind, f.last, index, flags, to).end(s, FILTER)
}

// So many filters from c on, put to the elements of a store: all elements start in, and each filter in turn sets those it
// matches. Ruled out (proofs/WrongChoices), of one element of type 5: out where there is no filter; in after a filter of all
// elements that sets out.
pub fn choose(s: &[u8], c: Reading, count: u64, all: Elements, flags: &mut [u8])
    requires { all.count ≤ length flags.old }
    ensures { Chooses s.now c count all.entry.rows.now all.entry.ids.now all.entry.count flags.old flags.new }
{
    set_matched(Matched::All, all, flags, 1);
    if count == 0 {
        return;
    }
    let mut heads = [0u16; INDEX_MARKS as usize];
    let mut links = [0u16; MOST_ELEMENTS];
    index_ids(all, &mut heads, &mut links);
    let index = Index {
        all,
        heads: &heads,
        links: &links,
    };
    let mut at = c;
    for _ in 0..count {
        at = put_filter(s, at, index, flags);
    }
}
