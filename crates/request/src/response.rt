// The frame of a response, written: each function lays a part at a place, and answers the place behind it. The whole length was
// judged before.
ghost use Rattle.std.specs.Prelude.{◌+◌, ◌≤◌, length};
ghost use Rattle.laws.specs.Placed.{Lays};
ghost use Rattle.request.specs.Response.{version_bytes, answer_front, sub_response_bytes, ends_bytes};

use numbers::compact::compact_length;
use objects::layout::COMPOUND;
use store::element::PACKAGE;
use store::lay::{lay_byte, lay_end, lay_le, lay_number, lay_start};

// The types of the objects.
pub const RESPONSE: u64 = 0x62;

pub const SUB_RESPONSE: u64 = 0x41;

// The signature of an answer.
pub const SIGNATURE: u64 = 0x9B069439F329CF9D;

// The versions, and this signature.
pub fn lay_versions(out: &mut [u8], at: usize, signature: u64) -> usize
    requires { at + length (version_bytes signature) ≤ length out.old }
    ensures { Lays at (version_bytes signature) out.old result out.new }
{
    let behind_version = lay_le(out, at, 2, 12);
    let behind_minimum = lay_le(out, behind_version, 2, 11);
    lay_le(out, behind_minimum, 8, signature)
}

// Up to the first element.
pub fn lay_front(out: &mut [u8], at: usize) -> usize
    requires { at + length answer_front ≤ length out.old }
    ensures { Lays at answer_front out.old result out.new }
{
    let behind_versions = lay_versions(out, at, SIGNATURE);
    let behind_start = lay_start(out, behind_versions, RESPONSE, COMPOUND, 1);
    let behind_response = lay_byte(out, behind_start, 0);
    let behind_package = lay_start(out, behind_response, PACKAGE, COMPOUND, 1);
    lay_byte(out, behind_package, 0)
}

// The id, this type and a zero byte.
pub fn lay_sub_response(out: &mut [u8], at: usize, id: u64, kind: u64) -> usize
    requires { at + length (sub_response_bytes kind id) ≤ length out.old }
    ensures { Lays at (sub_response_bytes kind id) out.old result out.new }
{
    let n = compact_length(id) + compact_length(kind) + 1;
    let behind_start = lay_start(out, at, SUB_RESPONSE, COMPOUND, n as u64);
    let behind_id = lay_number(out, behind_start, id);
    let behind_type = lay_number(out, behind_id, kind);
    lay_byte(out, behind_type, 0)
}

// The ends.
pub fn lay_back(out: &mut [u8], at: usize) -> usize
    requires { at + length ends_bytes ≤ length out.old }
    ensures { Lays at ends_bytes out.old result out.new }
{
    let behind_sub_response = lay_end(out, at, SUB_RESPONSE);
    lay_end(out, behind_sub_response, RESPONSE)
}
