// The five calls and the turn, for programs in other languages: `c/mokroshel.h` declares them.
//
// 01, "What a call says", and 02, R-2. An exported function returns a number, so each packs what its call says into one of 32 bits.
#![tactic(auto)]

ghost use Rattle.std.specs.Prelude.{◌≡◌, length};
ghost use Rattle.stage.specs.Calls.{set_up, begin_acquisition, begin_release, step, take_log};
ghost use Rattle.image.specs.Call.{buffer};
ghost use Rattle.desk.specs.Packed as Packed;
ghost use Rattle.desk.specs.Packed.{Exports, ExportsTurn};

use stage::Reply;

// The turn marker: the number of the module that was served last.
#[repr(C)]
#[derive(Clone, Copy)]
pub struct Marker {
    pub last: u32,
}

// What a call says, as one number. (`From` cannot be had: neither `Result` nor `u32` is this crate's.)
#[tactic(auto, unfolding(crate::specs::Packed::packed))]
fn packed(reply: Reply) -> u32
    ensures { result ≡ Packed.packed reply }
{
    match reply {
        Err(refusal) => 2147483648 + u32::from(refusal.number()),
        Ok(answer) => {
            let event = answer.event;
            u32::from(answer.number)
                + 256 * u32::from(event.admission().unwrap_or(0))
                + 65536 * u32::from(event.log_length().unwrap_or(0))
        }
    }
}

// Sets up a fresh table of n modules.
#[unsafe(no_mangle)]
pub extern "C" fn mokroshel_set_up(image: &mut [u8], n: u32) -> u32
    ensures { Exports (set_up n) image.old result image.new }
{
    packed(whole::set_up(image, n))
}

// Begins an acquisition by the module p, with a priority.
#[unsafe(no_mangle)]
pub extern "C" fn mokroshel_begin_acquisition(image: &mut [u8], p: u32, priority: u32) -> u32
    ensures { Exports (begin_acquisition p priority) image.old result image.new }
{
    packed(image::begin_acquisition(image, p, priority))
}

// Begins a release by the module p.
#[unsafe(no_mangle)]
pub extern "C" fn mokroshel_begin_release(image: &mut [u8], p: u32) -> u32
    ensures { Exports (begin_release p) image.old result image.new }
{
    packed(image::begin_release(image, p))
}

// One step of the module p.
#[unsafe(no_mangle)]
pub extern "C" fn mokroshel_step(image: &mut [u8], p: u32) -> u32
    ensures { Exports (step p) image.old result image.new }
{
    packed(image::step(image, p))
}

// Takes the log: its entries go to the buffer that is lent for them.
#[unsafe(no_mangle)]
pub extern "C" fn mokroshel_take_log(image: &mut [u8], log: &mut [u8]) -> u32
    ensures exports { Exports (take_log (length log.old)) image.old result image.new }
    ensures log_after { log.new ≡ buffer image.old log.old }
{
    packed(whole::take_log(image, log))
}

// Hands out a turn, and moves the marker on in place.
#[unsafe(no_mangle)]
pub extern "C" fn mokroshel_turn(image: &mut [u8], marker: &mut Marker) -> u32
    ensures { ExportsTurn image.old marker.old.last result image.new marker.new.last }
{
    packed(image::turn(image, &mut marker.last))
}
