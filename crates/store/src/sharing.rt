// Whether elements share a serial number: "Elements with an equal serial become a group" (document 02, Q-3). Where none do, each element is
// a group of its own.
ghost use Rattle.std.specs.Prelude.{◌≡◌, ◌*◌, ◌≤◌, length};
ghost use Rattle.laws.specs.Once.{once};
ghost use Rattle.store.specs.Element.{same_key};
ghost use Rattle.store.specs.Tables.{row_width, serial_keys};

use crate::table::{KEY_MARKS, ROW_WIDTH, SERIAL_COLUMN, key_at, put_mark, seen_key};

// The rows are gone through once, and only a serial number whose mark is set is searched for among those before it.
fn none_twice(rows: &[u64], n: usize) -> bool
    requires { n * row_width ≤ length rows.now }
    ensures { result ≡ once same_key (serial_keys rows.now n) }
{
    let mut marks = [0u8; KEY_MARKS as usize];
    for i in 0..n {
        let k = key_at(rows, i * ROW_WIDTH + SERIAL_COLUMN);
        if seen_key(rows, &marks, SERIAL_COLUMN, ROW_WIDTH, i, k) {
            return false;
        }
        put_mark(&mut marks, k);
    }
    true
}

// Whether no serial number stands twice among n rows. Of one row none does, and no marks are cleared for it. Ruled out
// (proofs/WrongAnswers): yes, of two rows with one serial number; no, of two with other numbers under one GUID.
pub fn serials_once(rows: &[u64], n: usize) -> bool
    requires { n * row_width ≤ length rows.now }
    ensures { result ≡ once same_key (serial_keys rows.now n) }
{
    if n < 2 {
        return true;
    }
    none_twice(rows, n)
}
