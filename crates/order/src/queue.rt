// The rows that flags choose, by rank: one pass puts the position of each into the part of its rank, and the parts are joined. And of any
// queue of positions: whether they rise, and the rows marked that stand in it.
ghost use Rattle.std.specs.Prelude.{◌≡◌, ℕ, ◌+◌, ◌*◌, ◌≤◌, ◌<◌, length, take, get_or, set};
ghost use Rattle.talk.specs.Each.{Each};
ghost use Rattle.laws.specs.Placed.{Lays};
ghost use Rattle.store.specs.Tables.{most_elements};
ghost use Rattle.store.specs.Elements.{elements_of};
ghost use Rattle.order.specs.Order.{rank_of};
ghost use Rattle.order.specs.Queue.{ranks, part_length, PartsStand, Parted, joined_parts, queue_of, rising_from, marking};

use objects::layout::part;
use store::element::Element;
use store::lay::lay_part;
use store::table::{Elements, MOST_ELEMENTS};

// The rank of all types but 1 to 4, which is the last.
const LAST_RANK: u64 = 5;

const RANKS: usize = 5;

// A part has room for all rows.
const PART_LENGTH: usize = MOST_ELEMENTS;

const PARTS: usize = RANKS * PART_LENGTH;

// The position that stands at k in a queue. Ruled out (proofs/WrongAnswers): the next one; k itself.
pub fn row_at(queue: &[u8], k: usize) -> usize
    requires { k < length queue.now }
    ensures { result ≡ get_or queue.now k 0 }
{
    queue[k] as usize
}

// "type 1, then 2, 3, 4, then all others". Ruled out (proofs/WrongAnswers), of type 0: 0; of type 6: 6.
#[tactic(auto, unfolding(crate::specs::Order::rank_of))]
pub(crate) fn rank_of(x: Element) -> u64
    ensures { (result ≡ rank_of x) × (1 ≤ result) × (result ≤ ranks) }
{
    match x.kind {
        1..=4 => x.kind,
        _ => LAST_RANK,
    }
}

// A row's position behind those of its rank, whose part is r.
fn put_place(parts: &mut [u8], counts: &mut [usize], r: usize, i: usize)
    requires { PartsStand parts.old counts.old × (r < ranks) × (i < most_elements) × (get_or counts.old r 0 < part_length) }
    ensures { (parts.new ≡ set parts.old (r * part_length + get_or counts.old r 0) i) × (counts.new ≡ set counts.old r (get_or counts.old r 0 + 1)) }
{
    let n = counts[r];
    parts[r * PART_LENGTH + n] = i as u8;
    counts[r] = n + 1;
}

// Each row whose flag is not 0, into the part of its rank.
fn part_rows(all: Elements, flags: &[u8], parts: &mut [u8], counts: &mut [usize])
    requires { (all.count ≤ most_elements) × (all.count ≤ length flags.now) × PartsStand parts.old counts.old × ((r : ℕ) → r < ranks → get_or counts.old r 0 ≡ 0) }
    ensures { Parted (elements_of all.entry) flags.now parts.new counts.new }
{
    for i in 0..all.count {
        if flags[i] == 0 {
            continue;
        }
        let x = all.element(i);
        let r = rank_of(x) - 1;
        put_place(parts, counts, r as usize, i);
    }
}

// The parts, one behind the other.
fn join_parts(queue: &mut [u8], parts: &[u8], counts: &[usize]) -> usize
    requires { (ranks ≤ length counts.now) × (length (joined_parts ranks 0 parts.now counts.now) ≤ length queue.old) }
    ensures { Lays 0 (joined_parts ranks 0 parts.now counts.now) queue.old result queue.new }
{
    let mut at = 0;
    for r in 0..RANKS {
        at = lay_part(queue, at, part(parts, r * PART_LENGTH, counts[r] as u64));
    }
    at
}

// The positions of the rows whose flag is not 0, in their order, at the front of the queue; and how many they are. Ruled out
// (proofs/WrongAnswers): a row of rank 2 before one of rank 1; the second of two rows of one rank before the first.
pub fn queue_rows(all: Elements, flags: &[u8], queue: &mut [u8]) -> usize
    requires { (all.count ≤ most_elements) × (all.count ≤ length flags.now) × (all.count ≤ length queue.old) }
    ensures { Lays 0 (queue_of (elements_of all.entry) flags.now) queue.old result queue.new }
{
    let mut parts = [0u8; PARTS];
    let mut counts = [0usize; RANKS];
    part_rows(all, flags, &mut parts, &mut counts);
    join_parts(queue, &parts, &counts)
}

// Whether the first n positions of a queue rise, as those of rows in the store's order do. Ruled out (proofs/WrongAnswers): yes, where the
// last one falls; no, where it falls behind these.
pub fn rises(queue: &[u8], n: usize) -> bool
    requires { n ≤ length queue.now }
    ensures { result ≡ rising_from 0 (take n queue.now) }
{
    queue[..n].is_sorted()
}

// The flags of the rows at the first n positions of a queue set, and the others as they were. Ruled out (proofs/WrongAnswers): those of n rows
// from the first on; one more than n.
pub fn mark_rows(queue: &[u8], n: usize, flags: &mut [u8])
    requires { (n ≤ length queue.now) × Each (λ (i : ℕ). i < length flags.old) (take n queue.now) }
    ensures { flags.new ≡ marking (take n queue.now) flags.old }
{
    for i in &queue[..n] {
        flags[*i as usize] = 1;
    }
}
