// A link where it lies in bytes that the caller lends, and its swap there.
//
// 02, R-3: "Compare in the image itself; no answer or byte differs." It is the swap of the crate `link`, held to the same definition, but
// nothing is copied out first: pointer, mark and count are compared where they lie. So neither the crate `link` nor the machine above it knows a
// byte.
#![tactic(auto)]

ghost use Rattle.std.specs.Prelude.{◌≡◌, true, length};
ghost use Rattle.link.specs.Count.{next, size};
ghost use Rattle.link.specs.Operations.{same};
ghost use Rattle.inplace.specs.InPlace as InPlace;
ghost use Rattle.inplace.specs.InPlace.{link_at, link_put, swapped_in};

use link::Link;

// Where a link lies in bytes: its pointer, with its mark behind it, and its count, the greater of two bytes first.
#[derive(Clone, Copy, Debug, PartialEq, Eq)]
pub struct Place {
    pub pointer: usize,
    pub count: usize,
}

// Whether a link at this place lies within so many bytes.
#[tactic(auto, unfolding(crate::specs::InPlace::lies))]
fn lies(l: Place, length: usize) -> bool
    ensures { result ≡ InPlace.lies l length }
{
    2 <= length && l.pointer <= length - 2 && l.count <= length - 2
}

// The count of the link at a place.
#[tactic(auto, unfolding(crate::specs::InPlace::lies, crate::specs::InPlace::link_at))]
fn count_at(bytes: &[u8], l: Place) -> u16
    requires { InPlace.lies l (length bytes.now) ≡ true }
    ensures { result ≡ (link_at bytes.now l).count }
{
    u16::from_be_bytes([bytes[l.count], bytes[l.count + 1]])
}

// Whether the links at two places are equal in all three parts.
#[tactic(auto, unfolding(link::specs::Operations::same, crate::specs::InPlace::lies, crate::specs::InPlace::link_at))]
fn same_in_place(bytes: &[u8], l: Place, expected: Place) -> bool
    requires { (InPlace.lies l (length bytes.now) ≡ true) × (InPlace.lies expected (length bytes.now) ≡ true) }
    ensures { result ≡ same (link_at bytes.now l) (link_at bytes.now expected) }
{
    bytes[l.pointer] == bytes[expected.pointer]
        && bytes[l.pointer + 1] == bytes[expected.pointer + 1]
        && count_at(bytes, l) == count_at(bytes, expected)
}

// The link at a place.
#[tactic(auto, unfolding(crate::specs::InPlace::lies, crate::specs::InPlace::link_at))]
fn read(bytes: &[u8], l: Place) -> Link
    requires { InPlace.lies l (length bytes.now) ≡ true }
    ensures { result ≡ link_at bytes.now l }
{
    Link {
        pointer: bytes[l.pointer],
        mark: bytes[l.pointer + 1],
        count: count_at(bytes, l),
    }
}

// Writes a link to a place.
#[tactic(auto, unfolding(crate::specs::InPlace::lies, crate::specs::InPlace::link_put))]
fn put(bytes: &mut [u8], l: Place, link: Link)
    requires { InPlace.lies l (length bytes.old) ≡ true }
    ensures { bytes.new ≡ link_put bytes.old l link }
{
    let [high, low] = link.count.to_be_bytes();
    bytes[l.pointer] = link.pointer;
    bytes[l.pointer + 1] = link.mark;
    bytes[l.count] = high;
    bytes[l.count + 1] = low;
}

impl Place {
    // The swap of the link here, expecting the one that lies at another place; whether it was done. Where not, the link found is handed
    // back to that other place. If one of the two does not lie within the bytes, nothing happens.
    #[tactic(auto, unfolding(crate::specs::InPlace::swapped_in, crate::specs::InPlace::left, link::specs::Operations::swapped, link::specs::Operations::changed))]
    pub fn swap(self, bytes: &mut [u8], expected: Place, to: u8) -> bool
        ensures { (result ≡ (swapped_in (next size) bytes.old self expected to).0) × (bytes.new ≡ (swapped_in (next size) bytes.old self expected to).1) }
    {
        let length = bytes.len();
        if !lies(self, length) || !lies(expected, length) {
            return false;
        }
        if !same_in_place(bytes, self, expected) {
            let found = read(bytes, self);
            put(bytes, expected, found);
            return false;
        }
        let now = Link {
            pointer: to,
            mark: link::OPEN,
            count: count_at(bytes, self).wrapping_add(1),
        };
        put(bytes, self, now);
        true
    }
}
