// The two tables that both calls are lent: how much of them a case lends, their rows, and that they hold what they held behind
// these.
ghost use Rattle.std.specs.Prelude.{◌≤◌, IfSome};
ghost use Rattle.order.specs.Order.{ranked_numbers};
ghost use Rattle.pages.specs.Answer.{knowledge_numbers};

use case_stores::stores;
use case_words::{say, words};
use numbers::refusal::Refusal;
use order::rows::RANKED_WIDTH;
use pages::deciding::MOST_CARRIED;
use ranges::RANGE_WIDTH;
use std::io;
use std::io::Write;
use store::table::MOST_ELEMENTS;

// How many numbers a table has that parts are lent of: more than the calls need.
pub const TABLE_NUMBERS: usize = 5120;

// Both tables, new for each case.
#[derive(Drop)]
pub struct Tables {
    pub rows: [u64; TABLE_NUMBERS],
    pub ranges: [u64; TABLE_NUMBERS],
}

// How many numbers of each table.
#[derive(Clone, Copy)]
pub struct Ends {
    pub rows: usize,
    pub ranges: usize,
}

// What a case lends: the last two words of the line.
pub fn lent(line: &[u8]) -> Option<Ends>
    ensures { IfSome result (λ e. (e.rows ≤ TABLE_NUMBERS) × (e.ranges ≤ TABLE_NUMBERS)) }
{
    let rows = words::at_most(words::word(line, 4), TABLE_NUMBERS)?;
    let ranges = words::at_most(words::word(line, 5), TABLE_NUMBERS)?;
    Some(Ends { rows, ranges })
}

// What so many rows take, if there can be so many.
pub fn filled(n: usize, count: usize) -> Option<Ends>
    ensures { IfSome result (λ e. (e.rows ≤ ranked_numbers) × (e.ranges ≤ knowledge_numbers)) }
{
    if MOST_ELEMENTS < n || MOST_CARRIED < count {
        return None;
    }
    Some(Ends {
        rows: n * RANKED_WIDTH,
        ranges: count * RANGE_WIDTH,
    })
}

impl Tables {
    pub(crate) fn new() -> Tables {
        Tables {
            rows: [stores::UNTOUCHED; TABLE_NUMBERS],
            ranges: [stores::UNTOUCHED; TABLE_NUMBERS],
        }
    }

    // Whether both tables, from a number of each on, hold what they held.
    fn kept(&self, from: Ends) -> bool
        requires { (from.rows ≤ TABLE_NUMBERS) × (from.ranges ≤ TABLE_NUMBERS) }
    {
        stores::untouched(&self.rows[from.rows..]) && stores::untouched(&self.ranges[from.ranges..])
    }

    // What `first` tells, and behind it the rows of both tables; or that something behind these was changed. More rows than there
    // can be count as that. The GUIDs of ranges are little-endian numbers, which are told as they stand.
    pub(crate) fn told<W: Write, F: FnOnce(&mut W) -> io::Result<()>>(
        &self,
        to: &mut W,
        n: usize,
        count: usize,
        first: F,
    ) -> io::Result<()>
        requires { F.IsAlwaysCallable first }
    {
        let Some(end) = filled(n, count) else {
            return say::touched(to);
        };
        if !self.kept(end) {
            return say::touched(to);
        }
        say::ok(to)?;
        first(to)?;
        say::table(to, &self.rows[..end.rows], RANKED_WIDTH, 0)?;
        say::table(to, &self.ranges[..end.ranges], RANGE_WIDTH, 0)
    }

    // A refusal; or that something in the tables was changed.
    pub(crate) fn refused<W: Write>(&self, to: &mut W, r: Refusal) -> io::Result<()> {
        if !self.kept(Ends { rows: 0, ranges: 0 }) {
            return say::touched(to);
        }
        say::refusal(to, r)
    }
}
