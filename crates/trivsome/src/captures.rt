// Calls for C and Rust: the capture, lent as its 65,536 bytes.
ghost use Rattle.std.specs.Prelude.{◌≡◌};
ghost use Rattle.capture.specs.Calls.{cleared_of, cleared_bytes, held_of, part_of};
ghost use Rattle.capture_append.specs.Stores.{stores};
ghost use Rattle.capture_append.specs.Appending.{taken_of, taken_bytes};
ghost use Rattle.c_capture.specs.Outcomes.{cleared_outcome, taken_outcome, held_outcome, part_outcome};

// Makes a fresh capture: 0 or 34.
#[unsafe(no_mangle)]
pub extern "C" fn trivsome_capture_clear(capture: &mut [u8]) -> u64
    ensures value { result ≡ cleared_outcome (cleared_of capture.old) }
    ensures capture_after { capture.new ≡ cleared_bytes capture.old }
{
    c_capture::trivsome_capture_clear(capture)
}

// Appends a payload to the first unfinished place: 0 with the place, 34, 31, 33 with the first bad block's place, or 32.
#[unsafe(no_mangle)]
pub extern "C" fn trivsome_capture_append(capture: &mut [u8], payload: &[u8]) -> u64
    ensures value { result ≡ taken_outcome (taken_of capture.old payload.now) }
    ensures capture_after { capture.new ≡ taken_bytes capture.old payload.now stores }
{
    c_capture::trivsome_capture_append(capture, payload)
}

// The same append, and the same answer, with the power cut after so many of its stores, or after all if it takes no more.
#[unsafe(no_mangle)]
pub extern "C" fn trivsome_capture_append_cut(
    capture: &mut [u8],
    payload: &[u8],
    stores: usize,
) -> u64
    ensures value { result ≡ taken_outcome (taken_of capture.old payload.now) }
    ensures capture_after { capture.new ≡ taken_bytes capture.old payload.now stores }
{
    c_capture::trivsome_capture_append_cut(capture, payload, stores)
}

// How many blocks are finished: 0 with their number, 34, or 33 with the first bad block's place.
#[unsafe(no_mangle)]
pub extern "C" fn trivsome_capture_finished(capture: &[u8]) -> u64
    ensures { result ≡ held_outcome (held_of capture.now) }
{
    c_capture::trivsome_capture_finished(capture)
}

// The payload at a place, the first at 1: 0 with its length and where in the capture it begins, 34, or 33 with the first bad block's
// place.
#[unsafe(no_mangle)]
pub extern "C" fn trivsome_capture_payload(capture: &[u8], place: usize) -> u64
    ensures { result ≡ part_outcome (part_of capture.now place) }
{
    c_capture::trivsome_capture_payload(capture, place)
}
