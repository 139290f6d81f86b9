// Which elements there are then, in which order, decided by the ids alone: a number for each, i for the element of row i that is there, and
// 256 + j for the element of row j that comes.
ghost use Rattle.std.specs.Prelude.{◌≡◌, ◌++◌, ◌+◌, ◌*◌, ◌≤◌, length, drop};
ghost use Rattle.store.specs.Tables.{id_width, most_elements, id_keys};
ghost use Rattle.laws.specs.Placed.{laid};
ghost use Rattle.enter.specs.Plan.{place_of, kept_source, kept_sources, new_sources, sources};

use store::element::Key;
use store::table::{MOST_ELEMENTS, id_in_row, same_key};

// Room for the elements that are there and for all that come.
pub const PLANNED: usize = 512;

// Where an id stands first among n, if it does.
fn find_id(ids: &[u64], n: usize, k: Key) -> Option<usize>
    requires { n * id_width ≤ length ids.now }
    ensures { result ≡ place_of k (id_keys ids.now n) }
{
    for i in 0..n {
        if same_key(k, id_in_row(ids, i)) {
            return Some(i);
        }
    }
    None
}

// The number for the element i that is there, whose id is k: that of the one that comes with the same id, if there is one.
fn kept_source(handed: &[u64], m: usize, i: usize, k: Key) -> u16
    requires { (m * id_width ≤ length handed.now) × (m ≤ most_elements) × (i ≤ most_elements) }
    ensures { result ≡ kept_source (id_keys handed.now m) i k }
{
    match find_id(handed, m, k) {
        Some(j) => (MOST_ELEMENTS + j) as u16,
        None => i as u16,
    }
}

// The numbers for the n elements that are there, at the front of the plan.
fn plan_kept(ids: &[u64], n: usize, handed: &[u64], m: usize, plan: &mut [u16])
    requires { (n * id_width ≤ length ids.now) × (m * id_width ≤ length handed.now) × (n ≤ most_elements) × (m ≤ most_elements) × (n + m ≤ length plan.old) }
    ensures { plan.new ≡ kept_sources (id_keys handed.now m) 0 (id_keys ids.now n) ++ drop n plan.old }
{
    for i in 0..n {
        plan[i] = kept_source(handed, m, i, id_in_row(ids, i));
    }
}

// Behind them, the numbers for those of the m that come that are new; how many there are then.
fn plan_new(ids: &[u64], n: usize, handed: &[u64], m: usize, plan: &mut [u16]) -> usize
    requires { (n * id_width ≤ length ids.now) × (m * id_width ≤ length handed.now) × (n ≤ most_elements) × (m ≤ most_elements) × (n + m ≤ length plan.old) }
    ensures { (result ≡ n + length (new_sources (id_keys ids.now n) 0 (id_keys handed.now m))) × (plan.new ≡ laid n (new_sources (id_keys ids.now n) 0 (id_keys handed.now m)) plan.old) }
{
    let mut count = n;
    for j in 0..m {
        if find_id(ids, n, id_in_row(handed, j)).is_none() {
            plan[count] = (MOST_ELEMENTS + j) as u16;
            count += 1;
        }
    }
    count
}

// All of them, at the front of the plan; how many they are.
pub fn plan_elements(ids: &[u64], n: usize, handed: &[u64], m: usize, plan: &mut [u16]) -> usize
    requires { (n * id_width ≤ length ids.now) × (m * id_width ≤ length handed.now) × (n ≤ most_elements) × (m ≤ most_elements) × (n + m ≤ length plan.old) }
    ensures { (result ≡ length (sources (id_keys ids.now n) (id_keys handed.now m))) × (plan.new ≡ sources (id_keys ids.now n) (id_keys handed.now m) ++ drop result plan.old) }
{
    plan_kept(ids, n, handed, m, plan);
    plan_new(ids, n, handed, m, plan)
}
