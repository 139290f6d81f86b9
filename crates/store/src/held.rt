// Elements of a store as they stand in the working tables: the storage index among them, and a serial number as a range.
ghost use Rattle.std.specs.Prelude.{◌≡◌, ℕ, ◌^◌, ◌<◌};
ghost use Rattle.numbers.specs.Results.ExtendedGuid.{Named};
ghost use Rattle.store.specs.Tables.{element_in_row};
ghost use Rattle.store.specs.Elements.{elements_of};
ghost use Rattle.store.specs.Written.{key_guid};
ghost use Rattle.store.specs.Held.{storage_index, key_range, serial_range};

use crate::element::{Element, Key};
use crate::table::Elements;
use numbers::extended_guid::ExtendedGuid;
use numbers::guid::Guid;
use ranges::range_of;
use talk::range::Range;

// The type of a storage index.
pub const STORAGE_INDEX: u64 = 1;

// Bytes that were read, and their elements.
#[derive(Clone, Copy)]
pub struct Held<'a, 'b> {
    pub bytes: &'a [u8],
    pub elements: Elements<'b>,
}

impl From<Key> for Guid {
    ghost from_gives = { λ k g. g ≡ key_guid k };

    fn from(k: Key) -> Guid {
        Guid {
            low: k.low,
            high: k.high,
        }
    }
}

// An id as an extended GUID.
pub fn named(k: Key) -> ExtendedGuid
    requires { k.number < 2 ^ 32 }
    ensures { result ≡ Named (key_guid k) k.number }
{
    Some((Guid::from(k), k.number as u32))
}

// The id of the first element that is a storage index; null if none is. Ruled out (proofs/HeldWrongAnswers): null though there is
// one; the id of the first element, of whatever type.
pub fn storage_index(all: Elements) -> ExtendedGuid
    requires { (i : ℕ) → i < all.count → (element_in_row all.rows.now all.ids.now i).id.number < 2 ^ 32 }
    ensures { result ≡ storage_index (elements_of all.entry) }
{
    for i in 0..all.count {
        let x = all.element(i);
        if x.kind == STORAGE_INDEX {
            return named(x.id);
        }
    }
    None
}

// A serial number as a range.
impl From<Key> for Range {
    ghost from_gives = { λ k x. x ≡ key_range k };

    #[tactic(auto, unfolding(crate::specs::Held::key_range))]
    fn from(k: Key) -> Range {
        range_of(Guid::from(k), k.number, k.number)
    }
}

// An element's serial number as a range. Ruled out (proofs/HeldWrongAnswers): all numbers up to it; the number 0.
#[tactic(auto, unfolding(crate::specs::Held::serial_range))]
pub fn serial_range(x: Element) -> Range
    ensures { result ≡ serial_range x }
{
    Range::from(x.serial)
}
