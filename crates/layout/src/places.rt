// The first bad digit of bytes by their layout.
ghost use Rattle.std.specs.Prelude.{◌≡◌, ◌≤◌};
ghost use Rattle.digits.specs.Halves.{looked};
ghost use Rattle.layout.specs.Cells.{cell_size};
ghost use Rattle.layout.specs.Places.{first_bad, cell_of, cells_of};

use digits::halves::bad_half;

// The bytes of a cell.
fn cell_size(n: u8) -> usize
    ensures { (result ≡ cell_size (cell_of n)) × (result ≤ 128) }
{
    if n == 0 { 1 } else { n.div_ceil(2) as usize }
}

// The first bad half of bytes, counted from their first one, by their cells: 0 is a byte handed on as it is, n a packed field
// 9(n). Cells that run past the end of the bytes have what bytes there are; so many bytes are looked at as `bad_half` looks at.
pub fn first_bad(cells: &[u8], s: &[u8]) -> Option<u32>
    ensures { result ≡ first_bad (cells_of cells.now) 0 (looked s.now) }
{
    let mut at = 0;
    for &n in cells {
        if s.len() <= at {
            return None;
        }
        if let Some(p) = bad_half(s, at, n) {
            return Some(p);
        }
        at += cell_size(n);
    }
    None
}

// The same where some halves stand before the bytes.
pub fn first_bad_from(cells: &[u8], s: &[u8], before: u16) -> Option<u32>
    ensures { result ≡ first_bad (cells_of cells.now) before (looked s.now) }
{
    let p = first_bad(cells, s)?;
    Some(before as u32 + p)
}
