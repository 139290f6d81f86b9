// Little-endian numbers of any width up to eight bytes.
ghost use Rattle.std.specs.Prelude.{◌≡◌, ◌++◌, ◌≤◌, length, take, drop};
ghost use Rattle.laws.specs.Bytes.{le, bytes};

// The number that the first n bytes make, the lowest first.
pub fn read_le(s: &[u8], n: usize) -> u64
    requires { (n ≤ 8) × (n ≤ length s.now) }
    ensures { result ≡ le (take n s.now) }
{
    let mut x: u64 = 0;
    for i in (0..n).rev() {
        x = x * 256 + s[i] as u64;
    }
    x
}

// The n lowest bytes of x, the lowest first, at the front of out.
pub fn put_le(out: &mut [u8], n: usize, x: u64)
    requires { n ≤ length out.old }
    ensures { out.new ≡ bytes n x ++ drop n out.old }
{
    let mut rest = x;
    for byte in &mut out[..n] {
        *byte = (rest % 256) as u8;
        rest /= 256;
    }
}
