// A link: what one record says of the record behind it, and the four operations by which anybody may change one.
//
// 01, "What the desk does": a pointer (0 is nil), a mark and a change count of 16 bits. Everything above this crate reads a
// link's parts and changes them by `point`, `open`, `close` and `swap` alone. Each answers the link as it is afterwards.
#![tactic(auto)]

ghost use Rattle.std.specs.Prelude.{◌≡◌};
ghost use Rattle.link.specs.Count.{next, size};
ghost use Rattle.link.specs.Operations as Operations;
ghost use Rattle.link.specs.Operations.{pointed, opened, closed, swapped};

// The two marks, as the image has them. A mark is a number, since the four operations and what a link is compared with hold of any byte, and R-4
// makes it the number of a lock.
pub const OPEN: u8 = 0;

pub const CLOSED: u8 = 1;

#[derive(Clone, Copy, Debug, PartialEq, Eq)]
pub struct Link {
    pub pointer: u8,
    pub mark: u8,
    pub count: u16,
}

impl Link {
    // Nil, closed, count 0.
    pub const FRESH: Link = Link {
        pointer: 0,
        mark: CLOSED,
        count: 0,
    };

    // The link with another pointer and mark, and its count one further: after 65,535 comes 0.
    #[tactic(auto, unfolding(crate::specs::Operations::changed))]
    fn changed(self, to: u8, mark: u8) -> Link
        ensures { result ≡ Operations.changed (next size) self to mark }
    {
        Link {
            pointer: to,
            mark,
            count: self.count.wrapping_add(1),
        }
    }

    // The pointer becomes `to`; the mark stays.
    pub fn point(self, to: u8) -> Link
        ensures { result ≡ pointed (next size) self to }
    {
        self.changed(to, self.mark)
    }

    // The mark becomes open; the pointer stays.
    pub fn open(self) -> Link
        ensures { result ≡ opened (next size) self }
    {
        self.changed(self.pointer, OPEN)
    }

    // The mark becomes closed; the pointer stays.
    pub fn close(self) -> Link
        ensures { result ≡ closed (next size) self }
    {
        self.changed(self.pointer, CLOSED)
    }

    // Where all three parts are those of `expected`, the pointer becomes `to` and the mark open: the link as it is now. Otherwise nothing
    // changes: the link found.
    #[tactic(auto, unfolding(crate::specs::Operations::same, crate::specs::Operations::swapped))]
    pub fn swap(self, expected: Link, to: u8) -> Result<Link, Link>
        ensures { result ≡ swapped (next size) self expected to }
    {
        if self != expected {
            return Err(self);
        }
        Ok(self.changed(to, OPEN))
    }
}
