// What a walk meets at a place of a line.
ghost use Rattle.std.specs.Prelude.{◌≡◌, drop};
ghost use Rattle.walk.specs.Noise.{noise_length};

use answers::Answer;

// What a walk meets at a place: an answer, and the bytes that it moves past, 0 where the walk stops. No `Option`: that is how far it moves there.
#[derive(Clone, Copy)]
pub struct Stretch {
    pub answer: Answer,
    pub bytes: usize,
}

// How many bytes stand before the next 27, or the end.
pub fn noise(line: &[u8], at: usize) -> usize
    ensures { result ≡ noise_length (drop at line.now) }
{
    if line.len() <= at {
        return 0;
    }
    for (i, &b) in line[at..].iter().enumerate() {
        if b == 27 {
            return i;
        }
    }
    line.len() - at
}
