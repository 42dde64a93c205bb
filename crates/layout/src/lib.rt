// Where the parts of a record lie in an image of edition 1.
#![tactic(auto)]

ghost use Rattle.std.specs.Prelude.{◌≡◌};
ghost use Rattle.layout.specs.Layout.{private_at, shared_at};

use link::Link;
use stage::{Private, Shared};

// The private part of a record, from its bytes.
#[tactic(auto, unfolding(crate::specs::Layout::private_at, crate::specs::Layout::two))]
pub fn private_of(bytes: &[u8; 16]) -> Private
    ensures { result ≡ private_at bytes.now 0 }
{
    let [stage, own, prev, pointer, mark, _, high, low, .., s, _] = *bytes;
    Private {
        stage,
        own,
        prev,
        w: Link {
            pointer,
            mark,
            count: u16::from_be_bytes([high, low]),
        },
        s,
    }
}

// The shared part of a record, from its bytes.
#[tactic(auto, unfolding(crate::specs::Layout::shared_at, crate::specs::Layout::two))]
pub fn shared_of(bytes: &[u8; 16]) -> Shared
    ensures { result ≡ shared_at bytes.now 0 }
{
    let [.., pointer, mark, high, low, priority, locked, _, _] = *bytes;
    Shared {
        link: Link {
            pointer,
            mark,
            count: u16::from_be_bytes([high, low]),
        },
        priority,
        locked,
    }
}
