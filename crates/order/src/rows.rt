// The rows of a store as the lent table holds them: in their order, each with its rank.
ghost use Rattle.std.specs.Prelude.{◌≡◌, ◌++◌, ◌+◌, ◌*◌, ◌≤◌, length, take, drop};
ghost use Rattle.store.specs.Tables.{most_elements};
ghost use Rattle.store.specs.Elements.{elements_of};
ghost use Rattle.order.specs.Order.{ordered, ranked_row, ranked_rows, ranked_width};
ghost use Rattle.order.specs.Queue.{queued_in};
ghost use Rattle.order.specs.Links.{RowsQueued};

use crate::queue::{queue_rows, rank_of, row_at};
use store::element::Element;
use store::table::{Elements, MOST_ELEMENTS};

// How many numbers a row has, and a table with room for all rows.
pub const RANKED_WIDTH: usize = 7;

pub const RANKED_NUMBERS: usize = MOST_ELEMENTS * RANKED_WIDTH;

// The row of an element behind k rows.
fn put_ranked(t: &mut [u64], k: usize, x: Element)
    requires { k * ranked_width + ranked_width ≤ length t.old }
    ensures { t.new ≡ take (k * ranked_width) t.old ++ (ranked_row x ++ drop (k * ranked_width + ranked_width) t.old) }
{
    let at = k * RANKED_WIDTH;
    let serial = x.serial;
    t[at] = x.place as u64;
    t[at + 1] = x.length as u64;
    t[at + 2] = x.kind;
    t[at + 3] = serial.low;
    t[at + 4] = serial.high;
    t[at + 5] = serial.number;
    t[at + 6] = rank_of(x);
}

// The rows of the elements, which are all queued.
fn put_queued(t: &mut [u64], all: Elements, queue: &[u8])
    requires { RowsQueued all.rows.now all.ids.now queue.now all.count × (all.count * ranked_width ≤ length t.old) }
    ensures { t.new ≡ ranked_rows (queued_in all.entry.rows.now all.entry.ids.now all.entry.count queue.now) ++ drop (all.entry.count * ranked_width) t.old }
{
    for k in 0..all.count {
        let i = row_at(queue, k);
        put_ranked(t, k, all.element(i));
    }
}

// The rows of the elements, in their order, at the front of a table. Ruled out (proofs/WrongAnswers): the rows in the store's order; a row
// without its rank.
pub fn put_rows(t: &mut [u64], all: Elements)
    requires { (all.count ≤ most_elements) × (all.count * ranked_width ≤ length t.old) }
    ensures { t.new ≡ ranked_rows (ordered (elements_of all.entry)) ++ drop (all.entry.count * ranked_width) t.old }
{
    let every = [1u8; MOST_ELEMENTS];
    let mut queue = [0u8; MOST_ELEMENTS];
    queue_rows(all, &every, &mut queue);
    put_queued(t, all, &queue);
}
