// The calls on an image of edition 1 that name a module, the turn, and its lock word. The other two calls are in `whole`.
//
// 01, "What a call says", and 02, R-2 and R-3. A call checks the image, refuses by the lowest number that applies (a turn by 1, 10, then 5),
// reads the parts that it needs, and stores the bytes of the parts that it changes. A step at stage 9 swaps the links where they lie.
#![tactic(auto)]

ghost use Rattle.std.specs.Prelude.{◌≡◌, true, false, Ok, ◌&&◌, ◌||◌, ◌+◌, ◌-◌, ◌*◌, ◌/◌, ◌%◌, ◌^◌, ◌≤◌, ◌<◌, eqb, leb, length, set};
ghost use Rattle.link.specs.Count.{next, size};
ghost use Rattle.stage.specs.Calls as Calls;
ghost use Rattle.stage.specs.Calls.{begin_acquisition, begin_release, admits, capacity};
ghost use Rattle.stage.specs.Table.{after_step};
ghost use Rattle.stage.specs.Turns.{next_after};
ghost use Rattle.inplace.specs.InPlace.{lies, link_put};
ghost use Rattle.layout.specs.Layout.{byte, two, record_at, private_at, shared_at, read, put};
ghost use Rattle.layout.proofs.CutOut.{cut_out};
ghost use Rattle.layout.proofs.Stores.{puts};
ghost use Rattle.layout.proofs.Changes.{private_bytes, shared_bytes, length_bytes, link_in};
ghost use Rattle.soundness.specs.SoundImage.{sound};
ghost use Rattle.image.specs.Call.{Does, lock_word};
ghost use Rattle.image.specs.Inside.{Framed, IsNumber, IsModule, Finds, first_able, Looks, numbered, parts_put, Says};
ghost use Rattle.image.specs.Turn.{GivesTurn};

use inplace::Place;
use link::Link;
use stage::{Answer, Event, Private, Refusal, Reply, Shared, Stepped};

// Where the parts of a sound image lie: its n, the places of record 1, of the log and of the trailer, and how many entries are held.
#[derive(Clone, Copy)]
struct Frame {
    n: u16,
    first: usize,
    log: usize,
    trailer: usize,
    held: u16,
}

// A module of a sound image: the place of its record, and its private part.
#[derive(Clone, Copy)]
struct Module {
    frame: Frame,
    number: u8,
    at: usize,
    me: Private,
}

// A step, before it is stored: the place of the record that it looks at, and what it leaves.
#[derive(Clone, Copy)]
struct Looked {
    at: usize,
    stepped: Stepped,
}

// The greatest priority that an acquisition may begin with, and the stage of a module that is inside. Goals are named after
// the text of a test: with a name here they stay the same in a wrong program that has another number (docs/DECISIONS.md, section 8).
const GREATEST: u32 = 254;

const INSIDE: u8 = 13;

// Where w and the link lie in every record.
const W: Place = Place {
    pointer: 3,
    count: 6,
};

const LINK: Place = Place {
    pointer: 8,
    count: 10,
};

// The number of two bytes at a place.
#[tactic(auto, unfolding(layout::specs::Layout::two))]
fn two_at(image: &[u8], at: usize) -> u16
    requires { at + 2 ≤ length image.now }
    ensures { result ≡ two image.now at }
{
    u16::from_be_bytes([image[at], image[at + 1]])
}

// Where the parts of this image lie.
fn frame_of(image: &[u8]) -> Frame
    requires { sound image.now ≡ true }
    ensures { Framed image.now result }
{
    let trailer = image.len() - 12;
    let n = two_at(image, trailer + 2);
    Frame {
        n,
        first: image.len() - (16 * usize::from(n) + 268),
        log: image.len() - 268,
        trailer,
        held: two_at(image, trailer + 4),
    }
}

// Where a link of the record at a place lies, by where it lies in every record.
fn link_in(at: usize, part: Place) -> Place
    requires { (at + part.pointer < 2 ^ 64) × (at + part.count < 2 ^ 64) }
    ensures { result ≡ link_in part.pointer part.count at }
{
    Place {
        pointer: at + part.pointer,
        count: at + part.count,
    }
}

// The 16 bytes of the record at a place. The slice ends where they do, so that compiled its length is not looked at.
fn bytes_at(image: &[u8], at: usize) -> &[u8; 16]
    requires { at + 16 ≤ length image.now }
    ensures { result.now ≡ cut_out image.now at }
{
    image[at..at + 16].first_chunk().unwrap()
}

// The private part of the record at a place.
#[tactic(auto, using(layout::proofs::CutOut::private_there))]
fn private_at(image: &[u8], at: usize) -> Private
    requires { at + 16 ≤ length image.now }
    ensures { result ≡ private_at image.now at }
{
    layout::private_of(bytes_at(image, at))
}

// The shared part of the record at a place.
#[tactic(auto, using(layout::proofs::CutOut::shared_there))]
fn shared_at(image: &[u8], at: usize) -> Shared
    requires { at + 16 ≤ length image.now }
    ensures { result ≡ shared_at image.now at }
{
    layout::shared_of(bytes_at(image, at))
}

// Stores a number in two bytes from a place on.
fn put_two(image: &mut [u8], at: usize, k: u16)
    requires { at + 2 ≤ length image.old }
    ensures { image.new ≡ set (set image.old at (k / 256)) (at + 1) (k % 256) }
{
    let [high, low] = k.to_be_bytes();
    image[at] = high;
    image[at + 1] = low;
}

// Stores a link at a place.
#[tactic(auto, unfolding(inplace::specs::InPlace::lies, inplace::specs::InPlace::link_put))]
fn put_link(image: &mut [u8], at: Place, l: Link)
    requires { lies at (length image.old) ≡ true }
    ensures { image.new ≡ link_put image.old at l }
{
    image[at.pointer] = l.pointer;
    image[at.pointer + 1] = l.mark;
    put_two(image, at.count, l.count);
}

// Stores a private part in the record at a place.
#[tactic(auto, unfolding(inplace::specs::InPlace::lies, inplace::specs::InPlace::link_put))]
fn put_private(image: &mut [u8], at: usize, me: Private)
    requires { at + 16 ≤ length image.old }
    ensures { image.new ≡ puts image.old at (private_bytes me) }
{
    image[at] = me.stage;
    image[at + 1] = me.own;
    image[at + 2] = me.prev;
    put_link(image, link_in(at, W), me.w);
    image[at + 14] = me.s;
}

// Stores a shared part in the record at a place.
#[tactic(auto, unfolding(inplace::specs::InPlace::lies, inplace::specs::InPlace::link_put))]
fn put_shared(image: &mut [u8], at: usize, its: Shared)
    requires { at + 16 ≤ length image.old }
    ensures { image.new ≡ puts image.old at (shared_bytes its) }
{
    put_link(image, link_in(at, LINK), its.link);
    image[at + 12] = its.priority;
    image[at + 13] = its.locked;
}

// Stores the log length in the trailer at a place.
fn put_length(image: &mut [u8], at: usize, k: u16)
    requires { at + 12 ≤ length image.old }
    ensures { image.new ≡ puts image.old at (length_bytes k) }
{
    put_two(image, at + 4, k);
}

// The place of module p's record.
fn place(first: usize, p: u8) -> usize
    requires { (1 ≤ p) × (first + 16 * p < 2 ^ 64) }
    ensures { result ≡ first + 16 * (p - 1) }
{
    first + 16 * (usize::from(p) - 1)
}

// The module that is named, or the refusal of an unsound image, or `unknown` for a number that is no module's.
#[tactic(auto, using(crate::proofs::Refusals::unsound, laws::proofs::Said::said))]
fn find(image: &[u8], p: u32, unknown: Refusal) -> Result<u8, Refusal>
    ensures { Finds image.now p unknown result }
{
    if !soundness::sound(image) {
        return Err(Refusal::Unsound);
    }
    let n = frame_of(image).n;
    if !(1..=u32::from(n)).contains(&p) {
        return Err(unknown);
    }
    Ok(p as u8)
}

// Whether a module at a stage has no step to take: it is idle or inside.
fn rests(stage: u8) -> bool
    ensures { result ≡ (eqb stage 0 || eqb stage 13) }
{
    stage == 0 || stage == INSIDE
}

// The module of a number.
fn module_of(image: &[u8], number: u8) -> Module
    requires { IsNumber image.now number }
    ensures { IsModule image.now result × (result.number ≡ number) }
{
    let frame = frame_of(image);
    let at = place(frame.first, number);
    Module {
        frame,
        number,
        at,
        me: private_at(image, at),
    }
}

// A module's step, by value: its row on the one shared part that the row looks at.
fn look(image: &[u8], m: Module) -> Looked
    requires { IsModule image.now m }
    ensures { Looks image.now m result }
{
    let at = place(m.frame.first, row::looks_at(m.me, m.number));
    let trailer = m.frame.trailer;
    Looked {
        at,
        stepped: row::step(m.number, m.me, shared_at(image, at), image[trailer]),
    }
}

// Whether the step would admit and the log holds 256.
fn overfills(event: Event, held: u16) -> bool
    ensures { result ≡ (admits event && leb capacity held) }
{
    event.admission().is_some() && 256 <= held
}

// Logs the admission of module p.
fn admit(image: &mut [u8], frame: Frame, p: u8)
    requires { (frame.log + frame.held < length image.old) × (frame.trailer + 12 ≤ length image.old) × (frame.held < capacity) }
    ensures { image.new ≡ puts (set image.old (frame.log + frame.held) p) frame.trailer (length_bytes (frame.held + 1)) }
{
    let at = frame.log + usize::from(frame.held);
    image[at] = p;
    put_length(image, frame.trailer, frame.held + 1);
}

// Stores the parts that a module's step leaves: its private part, the shared part that it looked at, and the lock word.
#[tactic(auto, unfolding(crate::specs::Inside::parts_put))]
fn put_parts(image: &mut [u8], m: Module, l: Looked)
    requires { Looks image.old m l }
    ensures { image.new ≡ parts_put image.old m l }
{
    let s = l.stepped;
    put_private(image, m.at, s.me);
    put_shared(image, l.at, s.its);
    let trailer = m.frame.trailer;
    image[trailer] = s.lock;
}

// Stores all that a module's step leaves, its admission too.
fn store(image: &mut [u8], m: Module, l: Looked)
    requires looks { Looks image.old m l }
    requires room { (admits l.stepped.answer.event && leb capacity m.frame.held) ≡ false }
    ensures { image.new ≡ put (after_step (next size) (read image.old) m.number) image.old }
{
    put_parts(image, m, l);
    if let Some(p) = l.stepped.answer.event.admission() {
        admit(image, m.frame, p);
    }
}

// Begins an acquisition by a module that was found.
fn begin_acquisition_of(image: &mut [u8], m: Module, priority: u32) -> Reply
    requires { IsModule image.old m }
    ensures { Does (begin_acquisition m.number priority) image.old result image.new }
{
    if !(1..=GREATEST).contains(&priority) {
        return Err(Refusal::WrongPriority);
    }
    let stage = m.me.stage;
    if stage != 0 {
        return Err(Refusal::WrongStage);
    }
    let own = priority as u8;
    let its = shared_at(image, m.at);
    put_private(image, m.at, stage::begun_acquisition(m.me, own));
    put_shared(image, m.at, stage::with_priority(its, own));
    Ok(Answer::DONE)
}

// Begins a release by a module that was found.
fn begin_release_of(image: &mut [u8], m: Module) -> Reply
    requires { IsModule image.old m }
    ensures { Does (begin_release m.number) image.old result image.new }
{
    let stage = m.me.stage;
    if stage != INSIDE {
        return Err(Refusal::WrongStage);
    }
    put_private(image, m.at, stage::begun_release(m.me));
    Ok(Answer::DONE)
}

// A step at stage 9, with no part copied out: a swap of prev's link and w where they lie, and then the stage.
fn swap_of(image: &mut [u8], number: u8) -> u8
    requires { IsNumber image.old number × (byte image.old (record_at image.old number) ≡ 9) }
    ensures { Says number image.old (Ok result) image.new }
{
    let first = frame_of(image).first;
    let at = place(first, number);
    let its = link_in(place(first, image[at + 2]), LINK);
    let done = its.swap(image, link_in(at, W), number);
    let after = row::after_swap(done.then_some(()).ok_or(image[at + 4]));
    image[at] = after.stage;
    after.answer.number
}

// A step at any other stage: its row by value.
fn row_of(image: &mut [u8], number: u8) -> Result<u8, Refusal>
    requires { IsNumber image.old number × (Calls.rests (read image.old) number ≡ false) }
    ensures { Says number image.old result image.new }
{
    let m = module_of(image, number);
    let l = look(image, m);
    let answer = l.stepped.answer;
    if overfills(answer.event, m.frame.held) {
        return Err(Refusal::LogFull);
    }
    store(image, m, l);
    Ok(answer.number)
}

// One step of a module that was found: the number of its answer, or its refusal. Two functions call it, so the compiler keeps it apart, and its
// frame stands beside that of the check. The number and the refusal come back in registers; a whole reply would go through memory.
fn step_of(image: &mut [u8], number: u8) -> Result<u8, Refusal>
    requires { IsNumber image.old number }
    ensures { Says number image.old result image.new }
{
    let at = place(frame_of(image).first, number);
    let stage = image[at];
    if rests(stage) {
        return Err(Refusal::WrongStage);
    }
    if stage == row::SWAP {
        return Ok(swap_of(image, number));
    }
    row_of(image, number)
}

// The answer of module p's step, by its number.
#[tactic(auto, unfolding(crate::specs::Inside::numbered))]
fn numbered(p: u8, number: u8) -> Answer
    ensures { result ≡ numbered p number }
{
    match number {
        0 => Answer::DONE,
        1 => Answer::WAITING,
        2 => Answer::admitted(p),
        3 => Answer::JOINED,
        4 => Answer::LEFT,
        _ => Answer::FINISHED,
    }
}

// The first of the modules from p to the one before `end` that can step.
fn first_able(image: &[u8], frame: Frame, p: u8, end: u8) -> Option<u8>
    requires framed { Framed image.now frame }
    requires ordered { (1 ≤ p) × (p ≤ end) × (end ≤ frame.n + 1) }
    ensures { result ≡ first_able image.now p (end - p) }
{
    for q in p..end {
        let at = place(frame.first, q);
        if !rests(image[at]) {
            return Some(q);
        }
    }
    None
}

// The module whose turn is next after the last one.
#[tactic(auto, using(crate::proofs::Turns::is_after, crate::proofs::Turns::is_before))]
fn next_after(image: &[u8], last: u8) -> Option<u8>
    requires { IsNumber image.now last }
    ensures { result ≡ next_after (read image.now) last }
{
    let frame = frame_of(image);
    match first_able(image, frame, last + 1, frame.n as u8 + 1) {
        Some(p) => Some(p),
        None => first_able(image, frame, 1, last + 1),
    }
}

// The lock word of an image, or 0 where it is unsound. It is no call, and changes nothing.
#[tactic(auto, using(laws::proofs::Said::said), unfolding(crate::specs::Call::lock_word, layout::specs::Layout::read))]
pub fn lock_word(image: &[u8]) -> u8
    ensures { result ≡ lock_word image.now }
{
    if !soundness::sound(image) {
        return 0;
    }
    let trailer = frame_of(image).trailer;
    image[trailer]
}

// Begins an acquisition by the module p, with a priority.
pub fn begin_acquisition(image: &mut [u8], p: u32, priority: u32) -> Reply
    ensures { Does (begin_acquisition p priority) image.old result image.new }
{
    let number = find(image, p, Refusal::NoSuchModule)?;
    let m = module_of(image, number);
    begin_acquisition_of(image, m, priority)
}

// Begins a release by the module p.
pub fn begin_release(image: &mut [u8], p: u32) -> Reply
    ensures { Does (begin_release p) image.old result image.new }
{
    let number = find(image, p, Refusal::NoSuchModule)?;
    let m = module_of(image, number);
    begin_release_of(image, m)
}

// One step of the module p.
pub fn step(image: &mut [u8], p: u32) -> Reply
    ensures { Does (Calls.step p) image.old result image.new }
{
    let number = find(image, p, Refusal::NoSuchModule)?;
    Ok(numbered(number, step_of(image, number)?))
}

// Hands out a turn: the module after the last one served takes a step, and the marker, which is lent, moves on to it.
pub fn turn(image: &mut [u8], marker: &mut u32) -> Reply
    ensures { GivesTurn image.old marker.old result image.new marker.new }
{
    let last = find(image, *marker, Refusal::WrongMarker)?;
    let Some(p) = next_after(image, last) else {
        return Ok(Answer::NOBODY);
    };
    let number = step_of(image, p)?;
    *marker = u32::from(p);
    Ok(numbered(p, number))
}
