// A row weighed: its element, with the stored length that a table of lengths has for it. Deciding takes its lengths from there, so that a
// row may stand for a group, with the stored lengths of all its members, and the rows are not copied for that.
ghost use Rattle.std.specs.Prelude.{◌≡◌};
ghost use Rattle.pages.specs.Weighed.{length_column, sum_column, weighed, WeighsRow};

use store::element::Element;
use store::table::{Elements, LENGTH_COLUMN, ROW_WIDTH, element_in_row};

// Where in a table of lengths that of row i stands: at i * width + at.
#[derive(Clone, Copy)]
pub struct Column {
    pub width: usize,
    pub at: usize,
}

// Rows are a table of their own lengths.
pub(crate) fn length_column() -> Column
    ensures { result ≡ length_column }
{
    Column {
        width: ROW_WIDTH,
        at: LENGTH_COLUMN,
    }
}

// A table of sums has one number for each row.
pub(crate) fn sum_column() -> Column
    ensures { result ≡ sum_column }
{
    Column { width: 1, at: 0 }
}

// The rows of a store's elements, and the column of a table of lengths that they are weighed by.
#[derive(Clone, Copy)]
pub(crate) struct Weights<'a> {
    pub(crate) all: Elements<'a>,
    pub(crate) lengths: &'a [u64],
    pub(crate) column: Column,
}

impl Weights<'_> {
    // The element of row i, with the length that the column has for it. Ruled out (proofs/WrongAnswers): with the length that stands in
    // its row; with that of another row.
    #[tactic(auto, unfolding(crate::specs::Weighed::weighed))]
    pub(crate) fn row(self, i: usize) -> Element
        requires { WeighsRow self.all.rows.now self.all.ids.now self.lengths.now self.column i }
        ensures { result ≡ weighed self.entry.all.rows.now self.entry.all.ids.now self.entry.lengths.now self.entry.column i }
    {
        let x = element_in_row(self.all.rows, self.all.ids, i);
        let at = i * self.column.width + self.column.at;
        Element {
            length: self.lengths[at] as usize,
            ..x
        }
    }
}

// The rows that are wanted, in their order: so many positions at the front of a queue.
#[derive(Clone, Copy)]
pub(crate) struct Wanted<'a> {
    pub(crate) queue: &'a [u8],
    pub(crate) count: usize,
}
