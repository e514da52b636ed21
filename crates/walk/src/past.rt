// How far an answer moves a walk.
ghost use Rattle.std.specs.Prelude.{◌≡◌};
ghost use Rattle.walk.specs.Answers.{past_of};

use answers::Answer;

// The bytes that an answer moves past where bytes are left, or 0 where the walk stops. No `Option`: that is how far it moves there.
pub fn past(answer: Answer, closed: bool) -> usize
    ensures { result ≡ past_of closed answer }
{
    match answer.number() {
        2 if closed => 1,
        2 => 0,
        0 | 6.. => answer.length(),
        _ => 1,
    }
}
