// The two calls that write the log whole: set-up, and taking the log.
//
// 01, "What a call says" and "What each place should look like": the log is held as [0; 256] where an image is taken apart and written fresh.
// The other calls are in `image`, whose definition of a call the contracts here cite.
#![tactic(auto)]

ghost use Rattle.std.specs.Prelude.{◌≡◌, true, ◌++◌, ◌+◌, ◌*◌, ◌≤◌, length, take, drop};
ghost use Rattle.std.proofs.Math.Seq.{paste};
ghost use Rattle.stage.specs.Calls.{set_up, take_log, capacity};
ghost use Rattle.stage.specs.Table.{idle, untouched, fresh_table, log_taken};
ghost use Rattle.layout.specs.Layout as Layout;
ghost use Rattle.layout.specs.Layout.{length_for, read, record_of, records_of, trailer_of, put};
ghost use Rattle.soundness.specs.SoundImage.{sound};
ghost use Rattle.image.specs.Call.{Does, buffer};

use link::Link;
use stage::{Answer, Refusal, Reply};

// How many entries the log of an image holds.
#[tactic(auto, using(crate::proofs::Taken::long), unfolding(layout::specs::Layout::held, layout::specs::Layout::two))]
fn held_of(image: &[u8]) -> u16
    requires { sound image.now ≡ true }
    ensures { result ≡ Layout.held image.now }
{
    let trailer = image.len() - 12;
    u16::from_be_bytes([image[trailer + 4], image[trailer + 5]])
}

// The log bytes of an image.
#[tactic(auto, using(crate::proofs::Taken::long))]
fn log_bytes(image: &[u8]) -> [u8; 256]
    requires { sound image.now ≡ true }
    ensures { result ≡ take capacity (drop (Layout.log_at image.now) image.now) }
{
    let log = image.len() - 268;
    let trailer = image.len() - 12;
    let mut entries = [0; 256];
    entries.copy_from_slice(&image[log..trailer]);
    entries
}

// Hands the entries of an image's log, so many, over to the buffer that is lent for them.
fn hand_over(image: &[u8], held: u16, log: &mut [u8])
    requires { (sound image.now ≡ true) × (held ≡ Layout.held image.now) × (held ≤ length log.old) }
    ensures { log.new ≡ (read image.now).log ++ drop (length (read image.now).log) log.old }
{
    let entries = log_bytes(image);
    let held = usize::from(held);
    log[..held].copy_from_slice(&entries[..held]);
}

// Makes the log of an image empty and zero.
#[tactic(auto, using(crate::proofs::Taken::long))]
fn clear_log(image: &mut [u8])
    requires { sound image.old ≡ true }
    ensures { image.new ≡ put (log_taken (read image.old)) image.old }
{
    let log = image.len() - 268;
    let trailer = image.len() - 12;
    image[log..trailer].fill(0);
    image[trailer + 4..trailer + 6].fill(0);
}

// The bytes of a fresh record: zero but for the fresh link.
#[tactic(auto, unfolding(layout::specs::Layout::record_of, stage::specs::Table::idle, stage::specs::Table::untouched, link::specs::Operations::fresh))]
fn fresh_record() -> [u8; 16]
    ensures { result ≡ record_of idle untouched }
{
    let l = Link::FRESH;
    let [high, low] = l.count.to_be_bytes();
    let mut record = [0; 16];
    record[8..12].copy_from_slice(&[l.pointer, l.mark, high, low]);
    record
}

// The bytes of the trailer of a fresh image: zero but for edition, n and distance.
fn fresh_trailer(n: u16) -> [u8; 12]
    requires { n ≤ 64 }
    ensures { result ≡ trailer_of (fresh_table n) }
{
    let distance = 16 * u32::from(n) + 256;
    let mut trailer = [0; 12];
    trailer[1] = 1;
    trailer[2..4].copy_from_slice(&n.to_be_bytes());
    trailer[8..].copy_from_slice(&distance.to_be_bytes());
    trailer
}

// Writes n fresh records from a place on. After a loop over `chunks_exact_mut` nothing would be known of the bytes, so the records are counted.
fn put_records(image: &mut [u8], first: usize, n: usize)
    requires { first + 16 * n ≤ length image.old }
    ensures { image.new ≡ paste image.old first (records_of n (fresh_table n)) (16 * n) }
{
    let fresh = fresh_record();
    for k in 0..n {
        let at = first + 16 * k;
        image[at..at + 16].copy_from_slice(&fresh);
    }
}

// Writes a fresh image of n modules at the end of a buffer.
fn put_fresh(image: &mut [u8], n: u16)
    requires { (n ≤ 64) × (length_for n ≤ length image.old) }
    ensures { image.new ≡ put (fresh_table n) image.old }
{
    let count = usize::from(n);
    let end = image.len();
    let log = end - 268;
    let trailer = end - 12;
    put_records(image, end - (16 * count + 268), count);
    image[log..trailer].copy_from_slice(&[0; 256]);
    image[trailer..end].copy_from_slice(&fresh_trailer(n));
}

// Sets up a fresh table of n modules.
pub fn set_up(image: &mut [u8], n: u32) -> Reply
    ensures { Does (set_up n) image.old result image.new }
{
    if !(1..=64).contains(&n) {
        return Err(Refusal::WrongNumberOfModules);
    }
    if image.len() < 16 * (n as usize) + 268 {
        return Err(Refusal::ShortBuffer);
    }
    put_fresh(image, n as u16);
    Ok(Answer::DONE)
}

// Takes the log: its entries go to the buffer that is lent for them.
pub fn take_log(image: &mut [u8], log: &mut [u8]) -> Reply
    ensures does { Does (take_log (length log.old)) image.old result image.new }
    ensures log_after { log.new ≡ buffer image.old log.old }
{
    if !soundness::sound(image) {
        return Err(Refusal::Unsound);
    }
    let held = held_of(image);
    if log.len() < usize::from(held) {
        return Err(Refusal::ShortLogBuffer);
    }
    hand_over(image, held, log);
    clear_log(image);
    Ok(Answer::taken(held))
}
