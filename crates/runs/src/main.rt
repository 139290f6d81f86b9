// Runs what no single item shows: two million objects in one run, which must not grow the stack, and objects nested as
// deep as is allowed and one deeper, in a store or request (16) and in an answer (17).
#![tactic(auto)]

ghost use Rattle.std.specs.Prelude.{◌≡◌, ◌+◌, ◌*◌, ◌≤◌, length, vec_len, IfOk};

use numbers::compact::PADDING_REFUSED;
use objects::nesting::Passed;
use std::alloc::{AllocError, Global};
use std::io;
use std::io::Write;

const OBJECTS: usize = 2000000;

fn space(alloc: Global) -> Result<Vec<u8>, AllocError>
    ensures { IfOk result (λ v. vec_len v ≡ 4194304) }
{
    vec![in alloc; 0; 4194304]
}

// The end of type 1.
const END: u8 = 5;

// A two-byte header, as often as it fits into s.
fn put_headers(s: &mut [u8], first: u8) {
    let (headers, _) = s.as_chunks_mut::<2>();
    headers.fill([first, 0]);
}

fn show<W: Write>(to: &mut W, r: Passed) -> io::Result<()> {
    match r {
        Ok(e) => writeln!(to, "past {e}"),
        Err(r) => writeln!(to, "refused {} at {}", r.number, r.place),
    }
}

// A compound object that holds n plain ones.
fn flat<W: Write>(to: &mut W, s: &mut [u8], n: usize) -> io::Result<()>
    requires { (n ≤ 2000000) × (n * 2 + 3 ≤ length s.old) }
{
    put_headers(&mut s[..2], 0x0C);
    put_headers(&mut s[2..n * 2 + 2], 0x08);
    s[n * 2 + 2] = END;
    show(
        to,
        objects::nesting::pass_object(&s[..n * 2 + 3], 0, 16, PADDING_REFUSED),
    )
}

// n compound objects, each in the one before, read with so many levels.
fn nested<W: Write>(to: &mut W, s: &mut [u8], n: usize, depth: usize) -> io::Result<()>
    requires { (n ≤ 100) × (n * 3 ≤ length s.old) }
{
    put_headers(&mut s[..n * 2], 0x0C);
    s[n * 2..n * 3].fill(END);
    show(
        to,
        objects::nesting::pass_object(&s[..n * 3], 0, depth, PADDING_REFUSED),
    )
}

fn all<W: Write>(to: &mut W, s: &mut [u8]) -> io::Result<()>
    requires { 4194304 ≤ length s.old }
{
    flat(to, s, OBJECTS)?;
    nested(to, s, 16, 16)?;
    nested(to, s, 17, 16)?;
    nested(to, s, 17, 17)?;
    nested(to, s, 18, 17)
}

fn main(rt: HostRuntime) -> io::Result<()> {
    let mut s = space(rt.alloc())?;
    all(&mut io::writer(&rt), s.as_mut_slice())
}
