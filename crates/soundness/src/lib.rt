// Whether an image of edition 1 is sound: whether the bytes of a buffer are such that the other calls may work on them.
//
// An image is n records of 16 bytes, a log of 256 bytes and a trailer of 12, at the end of a buffer (01, "The image"). Which images are
// sound is `SoundImage.sound`, 01's rules one by one, and `sound` answers exactly that, for any buffer whatever. Every call asks it
// first, so it is written to be fast: one pass over the bytes and, compiled, no branch on what the log holds nor, in a table of 4 modules
// or more, on what the records hold.
//
// In a smaller table the records are looked at rule by rule (`sound_few`). In a larger one (`sound_many`) a record is looked at in 16
// lanes, a byte in each. A byte's place and the record's stage give it a least and a greatest, which two tables of rows have. `off` keeps,
// for each place, how far any byte there lay outside of its two, and is asked once, at the end. The compiler holds 16 lanes in one
// register only if it can do the same in all of them, and if nothing else looks at a record's bytes: so the rules are rows of numbers,
// looked up by the stage, and are not written out byte by byte. That these rows are the rules is shown in proofs/Tables.antt.
#![tactic(auto)]

ghost use Rattle.std.specs.Prelude.{ℕ, ◌≡◌, ◌&&◌, ◌<◌, ◌≤◌, leb, get_or};
ghost use Rattle.std.specs.List.{list_all};
ghost use Rattle.stage.specs.Calls.{within};
ghost use Rattle.stage.specs.Sound.{at, sound_link, sound_own, sound_stage, sound_private, sound_shared};
ghost use Rattle.soundness.specs.SoundImage as SoundImage;
ghost use Rattle.soundness.specs.Parts.{trailer_right, log_right, record_right, content_right, greatest_row, greatest_rows, lanes_right};

use link::Link;
use stage::{Private, Shared};

// Whether every byte lies between the two. It looks at all of them, whatever it has found, so that there is no branch for each.
fn all_within(low: u8, high: u8, part: &[u8]) -> bool
    ensures { result ≡ list_all (within low high) part.now }
{
    let mut ok = true;
    for &x in part {
        ok &= (low..=high).contains(&x);
    }
    ok
}

// Whether a trailer has the right edition, zeros and distance, at least one module, and a lock word from 0 to n.
#[tactic(auto, unfolding(crate::specs::Parts::trailer_right, layout::specs::Layout::two, layout::specs::Layout::four))]
fn sound_trailer(trailer: &[u8; 12], n: u16) -> bool
    ensures { result ≡ trailer_right trailer.now n }
{
    let [lock, edition, _, _, _, _, zero1, zero0, d3, d2, d1, d0] = *trailer;
    (edition == 1)
        & (u16::from_be_bytes([zero1, zero0]) == 0)
        & (u32::from_be_bytes([d3, d2, d1, d0]) == 16 * u32::from(n) + 256)
        & (1 <= n)
        & (u16::from(lock) <= n)
}

// Whether the log's held entries are 1 to n and the rest are 0.
#[tactic(auto, unfolding(crate::specs::Parts::log_right))]
fn sound_log(log: &[u8; 256], n: u8, held: usize) -> bool
    requires { held ≤ 256 }
    ensures { result ≡ log_right log.now n held }
{
    let (entries, rest) = log.split_at(held);
    all_within(1, n, entries) & all_within(0, 0, rest)
}

// The least that each byte of a record may be, in five rows of which a stage has one.
static LEAST: [[u8; 16]; 5] = [
    // Each may be 0.
    [0, 0, 0, 0, 0, 0, 0, 0, 0, 0, 0, 0, 0, 0, 0, 0],
    // Own priority isn't 0.
    [0, 1, 0, 0, 0, 0, 0, 0, 0, 0, 0, 0, 0, 0, 0, 0],
    // Nor is prev.
    [0, 1, 1, 0, 0, 0, 0, 0, 0, 0, 0, 0, 0, 0, 0, 0],
    // Nor is w's pointer.
    [0, 1, 1, 1, 0, 0, 0, 0, 0, 0, 0, 0, 0, 0, 0, 0],
    // Own priority and s aren't 0.
    [0, 1, 0, 0, 0, 0, 0, 0, 0, 0, 0, 0, 0, 0, 1, 0],
];

// Which row each stage has. There are 32 places so that any number's remainder by 32 has one.
static ROWS: [u8; 32] = [
    0, 1, 1, 1, 2, 2, 2, 3, 2, 2, 2, 1, 1, 1, 1, 1, 1, 4, 4, 1, 1, 1, 1, 1, 1, 1, 1, 1, 1, 1, 1, 1,
];

// A row of the greatest that each byte of a record may be, where own priority's is given.
fn greatest_row(own: u8, n: u8) -> [u8; 16]
    ensures { result ≡ greatest_row own n }
{
    [
        stage::LAST,
        own,
        n, // prev
        n, // w's pointer
        1, // w's mark
        0,
        255, // w's count
        255,
        n, // the link's pointer
        1, // the link's mark
        255, // the link's count
        255,
        255, // priority
        1, // Locked
        n, // s
        0,
    ]
}

// The greatest that each byte of a record may be, in rows as `LEAST` has them: own priority is 0 at stage 0, and at most 254 at the others.
fn greatest(n: u8) -> [[u8; 16]; 5]
    ensures { result ≡ greatest_rows n }
{
    let busy = greatest_row(254, n);
    [greatest_row(0, n), busy, busy, busy, busy]
}

// How far off the bytes of all records are, with one more record. Nowhere, if so before and each of its bytes lies between its two. (By `zip`
// the four would go side by side; the borrow checker does not cover that yet.)
#[tactic(auto, unfolding(crate::specs::Parts::below))]
fn farther(mut off: [u8; 16], bytes: &[u8; 16], least: &[u8; 16], greatest: &[u8; 16]) -> [u8; 16]
    ensures lanes { list_all (within 0 0) result ≡ (list_all (within 0 0) off && lanes_right bytes.now least.now greatest.now) }
    ensures fit { (k : ℕ) → get_or bytes.now k 0 < 256 }
{
    for (k, &x) in bytes.iter().enumerate() {
        off[k] = off[k]
            .max(least[k].saturating_sub(x))
            .max(x.saturating_sub(greatest[k]));
    }
    off
}

// Whether all records are sound, in 16 lanes.
#[tactic(auto, using(crate::proofs::Tables::records_more))]
fn sound_many(records: &[[u8; 16]], n: u8) -> bool
    ensures { result ≡ list_all (record_right n) records.now }
{
    let greatest = greatest(n);
    let mut off = [0; 16];
    for record in records {
        // A number that is no stage fails in its own lane, whatever the row.
        let row = usize::from(ROWS[usize::from(record[0] % 32)]);
        off = farther(off, record, &LEAST[row], &greatest[row]);
    }
    all_within(0, 0, &off)
}

// Whether a link is sound in a table of n modules.
#[tactic(auto, using(laws::proofs::Said::said), unfolding(stage::specs::Sound::sound_link))]
fn sound_link(n: u8, l: Link) -> bool
    ensures { result ≡ sound_link n l }
{
    l.pointer <= n && l.mark <= 1
}

// Whether own priority is 0 at stage 0 and 1 to 254 elsewhere.
#[tactic(auto, using(laws::proofs::Said::said), unfolding(stage::specs::Sound::sound_own))]
fn sound_own(stage: u8, own: u8) -> bool
    ensures { result ≡ sound_own stage own }
{
    match stage {
        0 => own == 0,
        _ => (1..=254).contains(&own),
    }
}

// Whether x isn't 0 at the stages from one to another.
fn set_at(low: u8, high: u8, stage: u8, x: u8) -> bool
    ensures { result ≡ at (within low high stage) (leb 1 x) }
{
    !(low..=high).contains(&stage) || 1 <= x
}

// Whether a module's stage allows its own priority, prev, w's pointer and s.
#[tactic(auto, using(laws::proofs::Said::said), unfolding(stage::specs::Sound::sound_stage))]
fn sound_stage(stage: u8, own: u8, prev: u8, pointer: u8, s: u8) -> bool
    ensures { result ≡ sound_stage stage own prev pointer s }
{
    stage <= stage::LAST
        && sound_own(stage, own)
        && set_at(4, 10, stage, prev)
        && set_at(7, 7, stage, pointer)
        && set_at(17, 18, stage, s)
}

// Whether a module's private part is sound in a table of n modules.
#[tactic(auto, using(laws::proofs::Said::said), unfolding(stage::specs::Sound::sound_private))]
fn sound_private(n: u8, me: Private) -> bool
    ensures { result ≡ sound_private n me }
{
    sound_link(n, me.w)
        && me.prev <= n
        && me.s <= n
        && sound_stage(me.stage, me.own, me.prev, me.w.pointer, me.s)
}

// Whether a module's shared part is sound in a table of n modules.
#[tactic(auto, using(laws::proofs::Said::said), unfolding(stage::specs::Sound::sound_shared))]
fn sound_shared(n: u8, its: Shared) -> bool
    ensures { result ≡ sound_shared n its }
{
    sound_link(n, its.link) && its.locked <= 1
}

// Whether a record is sound, rule by rule. No rule asks the counts, so compiled they are not read.
#[tactic(auto, unfolding(crate::specs::Parts::record_right, crate::specs::SoundImage::sound_zeros))]
fn sound_record(bytes: &[u8; 16], n: u8) -> bool
    ensures { result ≡ record_right n bytes.now }
{
    let me = layout::private_of(bytes);
    let its = layout::shared_of(bytes);
    (bytes[5] == 0) & (bytes[15] == 0) & sound_private(n, me) & sound_shared(n, its)
}

// Whether all records are sound, one after the other. For one module that takes less time than the lanes do.
fn sound_few(records: &[[u8; 16]], n: u8) -> bool
    ensures { result ≡ list_all (record_right n) records.now }
{
    records.iter().all(|record| sound_record(record, n))
}

// Whether log and records are sound, in an image of n modules that holds so many log entries: n is at most 64, the entries are at most 256, the
// records have room above the log, where they end, and the log and each record are right.
#[tactic(auto, using(laws::proofs::Said::said), unfolding(crate::specs::Parts::content_right))]
fn sound_content(above: &[u8], log: &[u8; 256], n: u16, held: usize) -> bool
    ensures { result ≡ content_right above.now log.now n held }
{
    let Some(first) = above.len().checked_sub(16 * usize::from(n)) else {
        return false;
    };
    if 64 < n || 256 < held {
        return false;
    }
    let (records, _) = above[first..].as_chunks::<16>();
    let n = n as u8;
    let log = sound_log(log, n, held);
    if n < 4 {
        log & sound_few(records, n)
    } else {
        log & sound_many(records, n)
    }
}

// Whether the image is sound.
#[tactic(auto, using(crate::proofs::Whole::too_short))]
pub fn sound(image: &[u8]) -> bool
    ensures { result ≡ SoundImage.sound image.now }
{
    let Some((above, trailer)) = image.split_last_chunk::<12>() else {
        return false;
    };
    let Some((above, log)) = above.split_last_chunk::<256>() else {
        return false;
    };
    let n = u16::from_be_bytes([trailer[2], trailer[3]]);
    let held = u16::from_be_bytes([trailer[4], trailer[5]]);
    sound_trailer(trailer, n) && sound_content(above, log, n, usize::from(held))
}
