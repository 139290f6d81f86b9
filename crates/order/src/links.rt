// A link from each row, in row order, to the next of its group: the next row with the same serial number. They are made in one pass from
// the last row to the first, and nothing is searched for where no two serial numbers have the same mark.
ghost use Rattle.std.specs.Prelude.{◌≡◌, ℕ, ◌≤◌, ◌<◌, length, get_or};
ghost use Rattle.order.specs.Links.{RowsQueued, queued_from, first_sharing, Linked, from_head, head_count};

use crate::queue::row_at;
use store::element::Element;
use store::table::{Elements, mark_of, same_key};

// Among how many the serial numbers have their marks.
const HEADS: usize = 1024;

// The first position from here on whose row has the serial number of x; how many there are, if none has.
fn next_sharing(all: Elements, queue: &[u8], from: usize, x: Element) -> usize
    requires { RowsQueued all.rows.now all.ids.now queue.now all.count × (from ≤ all.count) }
    ensures { (result ≡ first_sharing x from (queued_from all.entry.rows.now all.entry.ids.now all.entry.count queue.now from)) × (result ≤ all.entry.count) }
{
    for k in from..all.count {
        let y = all.element(row_at(queue, k));
        if same_key(x.serial, y.serial) {
            return k;
        }
    }
    all.count
}

// Where the first row with a mark may stand: a head is one more than its position, and 0 where no row has the mark.
#[tactic(auto, unfolding(crate::specs::Links::from_head))]
fn from_head(head: u16, n: usize) -> usize
    ensures { result ≡ from_head head n }
{
    if head == 0 {
        return n;
    }
    head as usize - 1
}

// The links of the rows, which are all queued, from the last to the first. No serial number has a head yet.
fn link_queued(all: Elements, queue: &[u8], heads: &mut [u16], links: &mut [usize])
    requires { RowsQueued all.rows.now all.ids.now queue.now all.count × (length heads.old ≡ head_count) × ((h : ℕ) → h < head_count → get_or heads.old h 0 ≡ 0) × (all.count ≤ length links.old) }
    ensures { Linked all.entry.rows.now all.entry.ids.now all.entry.count queue.now links.new }
{
    for k in (0..all.count).rev() {
        let x = all.element(row_at(queue, k));
        let mark = mark_of(x.serial, HEADS as u64);
        links[k] = next_sharing(all, queue, from_head(heads[mark], all.count), x);
        heads[mark] = (k + 1) as u16;
    }
}

// The links of the rows, which are all queued.
pub(crate) fn link_rows(all: Elements, queue: &[u8], links: &mut [usize])
    requires { RowsQueued all.rows.now all.ids.now queue.now all.count × (all.count ≤ length links.old) }
    ensures { Linked all.entry.rows.now all.entry.ids.now all.entry.count queue.now links.new }
{
    let mut heads = [0u16; HEADS];
    link_queued(all, queue, &mut heads, links);
}
