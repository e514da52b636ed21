// Slots written into a body.
ghost use Rattle.std.specs.Prelude.{◌+◌, ◌≤◌, ◌≡◌, true, length};
ghost use Rattle.std.proofs.lemmas.List.Edits.{sets};
ghost use Rattle.layout.specs.Cells.{fits, encode};
ghost use Rattle.stock_prices.specs.Prices.{slot_cells, slots_cells, slot_values, slots_values};

use digits::fields::write;
use layout::put_bytes;
use stock_prices::{SLOT, Slot};

// Writes the six bytes of a code.
fn put_code(code: [u8; 6], buf: &mut [u8], at: usize)
    requires { at + 6 ≤ length buf.old }
    ensures { buf.new ≡ sets buf.old at code }
{
    put_bytes(&code, buf, at);
}

// Writes a slot.
fn put_slot(s: Slot, buf: &mut [u8], at: usize)
    requires { (at + 36 ≤ length buf.old) × (fits slot_cells (slot_values s) ≡ true) }
    ensures { buf.new ≡ sets buf.old at (encode slot_cells (slot_values s)) }
{
    let code = s.code;
    put_code(code, buf, at);
    write(s.opening.0 as u64, 5, buf, at + 6).unwrap();
    write(s.highest.0 as u64, 5, buf, at + 11).unwrap();
    write(s.lowest.0 as u64, 5, buf, at + 16).unwrap();
    write(s.last.0 as u64, 5, buf, at + 21).unwrap();
    write(s.total.0 as u64, 4, buf, at + 26).unwrap();
    write(s.time, 6, buf, at + 30).unwrap();
}

// Writes all slots behind the count.
pub(crate) fn put_slots(slots: [Slot; 10], buf: &mut [u8])
    requires { (371 ≤ length buf.old) × (fits (slots_cells 10) (slots_values slots) ≡ true) }
    ensures { buf.new ≡ sets buf.old 11 (encode (slots_cells 10) (slots_values slots)) }
{
    for i in 0..10 {
        put_slot(slots[i], buf, 11 + SLOT * i);
    }
}
