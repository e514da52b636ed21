// Bytes put into a lent buffer as they are, and the first bad digit of bytes by their layout.
#![tactic(auto)]

ghost use Rattle.std.specs.Prelude.{◌≡◌};
ghost use Rattle.layout.specs.Bytes.{bytes_over};

pub mod places;

// Puts bytes into the buffer from a place on; where they do not fit, the buffer stays as it is.
pub fn put_bytes(s: &[u8], buf: &mut [u8], at: usize)
    ensures { buf.new ≡ bytes_over s.now buf.old at }
{
    if buf.len() < s.len() || buf.len() - s.len() < at {
        return;
    }
    // by items: with `copy_from_slice` the archive for C needs `memmove` from outside
    for i in 0..s.len() {
        buf[at + i] = s[i];
    }
}
