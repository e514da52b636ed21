// Where a header's first bad digit is, in halves from the frame's first byte. Looked for only where a digit is known to be bad.
ghost use Rattle.std.specs.Prelude.{◌≡◌, ◌+◌, ◌≤◌, length, drop};
ghost use Rattle.layout.specs.Places.{first_bad};
ghost use Rattle.frame.specs.Header.{length_bytes, length_cells, head_bad};
ghost use Rattle.derivatives_frame.specs.Outline.{header};

use layout::places::first_bad_from;

// Of the length of the frame at a place of a line; none where its digits are good.
pub(crate) fn length_place(line: &[u8], at: usize) -> Option<u32>
    requires { at + 14 ≤ length line.now }
    ensures { result ≡ first_bad length_cells 24 (length_bytes header (drop at line.now)) }
{
    let cells = [4u8];
    let first = at + 12;
    let end = at + 14;
    first_bad_from(&cells, &line[first..end], 24)
}

// Of the time, the number and the version of a frame's own bytes.
pub(crate) fn head_place(f: &[u8]) -> Option<u32>
    requires { (17 ≤ length f.now) × (length f.now ≤ 1024) }
    ensures { result ≡ head_bad header f.now }
{
    let cells = [0u8, 0, 8, 8, 2];
    first_bad_from(&cells, &f[1..], 2)
}
