// The groups of which one member is chosen, in their order: one row for each, with the sum of its members' lengths, and the members in a
// queue, whole. A group stands where its first row stands, and its members are found by links.
ghost use Rattle.std.specs.Prelude.{◌≡◌, ℕ, ◌^◌, ◌≤◌, ◌<◌, length};
ghost use Rattle.store.specs.Tables.{most_elements, element_in_row};
ghost use Rattle.store.specs.Elements.{elements_of};
ghost use Rattle.order.specs.Order.{ordered};
ghost use Rattle.order.specs.Links.{queued_from, ToLay, MembersLaid, ToGroup, GroupsTold, SomeTest};

use crate::links::link_rows;
use crate::queue::{queue_rows, row_at};
use store::table::{Elements, MOST_ELEMENTS};

// What the members of a group come to: where their queue ends, the sum of their stored lengths, whether one of them is chosen, and the row
// of the one that stands first in the store.
#[derive(Drop)]
pub struct Laid {
    pub end: usize,
    pub stored: usize,
    pub chosen: bool,
    pub earliest: usize,
}

// The members of the group that begins at position k, behind the first `at` of their queue. Their positions are passed.
fn lay_members(
    all: Elements,
    queue: &[u8],
    links: &[usize],
    flags: &[u8],
    k: usize,
    passed: &mut [u8],
    at: usize,
    laid: &mut [u8],
) -> Laid
    requires { ToLay all.rows.now all.ids.now all.count queue.now links.now flags.now k passed.old at laid.old }
    ensures { MembersLaid all.entry.rows.now all.entry.ids.now all.entry.count queue.now flags.now k passed.old passed.new at laid.old laid.new result }
{
    let mut end = at;
    let mut stored = 0;
    let mut chosen = false;
    let mut earliest = row_at(queue, k);
    let mut p = k;
    // From link to link: p does not count up by one.
    while p < all.count {
        let i = row_at(queue, p);
        let x = all.element(i);
        laid[end] = i as u8;
        end += 1;
        stored += x.length;
        chosen |= flags[i] != 0;
        passed[p] = 1;
        p = links[p];
        earliest = earliest.min(i);
    }
    Laid {
        end,
        stored,
        chosen,
        earliest,
    }
}

// The groups of which one member is chosen: the earliest row of each in a queue, the sum of its members' lengths at that row, its members in
// another queue, and behind how many of these each group ends. (Each table is lent by itself, as memory is fixed.)
fn lay_groups(
    all: Elements,
    queue: &[u8],
    links: &[usize],
    flags: &[u8],
    passed: &mut [u8],
    sums: &mut [u64],
    earliest: &mut [u8],
    laid: &mut [u8],
    ends: &mut [usize],
) -> usize
    requires { ToGroup all.rows.now all.ids.now all.count queue.now links.now flags.now passed.old sums.old earliest.old laid.old ends.old }
    ensures { GroupsTold all.entry.rows.now all.entry.ids.now all.entry.count flags.now (queued_from all.entry.rows.now all.entry.ids.now all.entry.count queue.now 0) sums.new earliest.new laid.new ends.new result }
{
    ends[0] = 0;
    let mut w = 0;
    let mut at = 0;
    for k in 0..all.count {
        if passed[k] != 0 {
            continue;
        }
        let g = lay_members(all, queue, links, flags, k, passed, at, laid);
        if !g.chosen {
            continue;
        }
        let i = g.earliest;
        sums[i] = g.stored as u64;
        earliest[w] = i as u8;
        w += 1;
        at = g.end;
        ends[w] = at;
    }
    w
}

// The groups of which one member is chosen by the flags, in the order of the rows: of each the row that stands first in the store, and at that
// row the sum of its members' lengths; and the members in a queue, whole; how many the first j groups have stands at j. (Which of its rows it
// is, the contract leaves open: only time hangs on it.) Ruled out (proofs/WrongAnswers): a group without the member that no flag chooses; a
// group at the place of its first member that a flag chooses; the length of the first member for the sum.
pub fn group_rows(
    all: Elements,
    flags: &[u8],
    sums: &mut [u64],
    earliest: &mut [u8],
    laid: &mut [u8],
    ends: &mut [usize],
) -> usize
    requires { (all.count ≤ most_elements) × ((i : ℕ) → i < all.count → (element_in_row all.rows.now all.ids.now i).length ≤ 2 ^ 24) × (all.count ≤ length flags.now) × (all.count ≤ length sums.old) × (all.count ≤ length earliest.old) × (all.count ≤ length laid.old) × (all.count < length ends.old) × SomeTest all.rows.now all.ids.now all.count flags.now }
    ensures { GroupsTold all.entry.rows.now all.entry.ids.now all.entry.count flags.now (ordered (elements_of all.entry)) sums.new earliest.new laid.new ends.new result }
{
    let every = [1u8; MOST_ELEMENTS];
    let mut queue = [0u8; MOST_ELEMENTS];
    let mut links = [0usize; MOST_ELEMENTS];
    let mut passed = [0u8; MOST_ELEMENTS];
    queue_rows(all, &every, &mut queue);
    link_rows(all, &queue, &mut links);
    lay_groups(
        all,
        &queue,
        &links,
        flags,
        &mut passed,
        sums,
        earliest,
        laid,
        ends,
    )
}
