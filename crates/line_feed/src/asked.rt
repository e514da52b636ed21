// What the arguments of a program ask for.
use lines::exchanges::Exchange;
use std::env::{Env, FillError};

// Whether there is an argument of this number, the program's own name being 0.
pub fn is_given<E: Env>(env: &E, i: usize) -> bool {
    !matches!(env.arg(i, &mut []), Err(FillError::NotPresent))
}

// Whether the only argument is this word: false where there is no argument, none where there is another one, or more than one. A
// longer word is another one.
pub fn is_asked<E: Env, const N: usize>(env: &E, word: &[u8; N]) -> Option<bool> {
    if is_given(env, 2) {
        return None;
    }
    let mut given = [0u8; N];
    match env.arg(1, &mut given) {
        Ok(n) if &given[..n] == word.as_slice() => Some(true),
        Err(FillError::NotPresent) => Some(false),
        _ => None,
    }
}

// What a program is asked for that reads a line of either exchange: with no argument a line of the stock exchange, with
// derivatives-2015 one of the derivatives exchange; none with another argument, or more than one.
pub fn asked_for<E: Env>(env: &E) -> Option<Exchange> {
    if is_asked(env, b"derivatives-2015")? {
        Some(Exchange::Derivatives)
    } else {
        Some(Exchange::Stock)
    }
}

#[cfg(test)]
mod tests {
    use super::*;

    // What a program was started with, its own name first.
    #[derive(Drop)]
    struct Given<'a> {
        words: &'a [&'a [u8]],
    }

    impl Env for Given<'_> {
        fn arg(&self, i: usize, buf: &mut [u8]) -> Result<usize, FillError> {
            let Some(word) = self.words.get(i) else {
                return Err(FillError::NotPresent);
            };
            let Some(room) = buf.get_mut(..word.len()) else {
                return Err(FillError::TooLong);
            };
            room.copy_from_slice(word);
            Ok(word.len())
        }

        fn var(&self, _name: &str, buf: &mut [u8]) -> Result<usize, FillError> {
            self.var_at(0, buf)
        }

        fn var_at(&self, _i: usize, _buf: &mut [u8]) -> Result<usize, FillError> {
            Err(FillError::NotPresent)
        }
    }

    #[test]
    fn a_word_is_asked_for(rt: HostRuntime) {
        let cases: [(&[&[u8]], Option<bool>); 9] = [
            (&[], Some(false)),
            (&[b"gaps"], Some(false)),
            (&[b"gaps", b"give-up"], Some(true)),
            (&[b"gaps", b"give-us"], None),
            (&[b"gaps", b"give-u"], None),
            (&[b"gaps", b"give-ups"], None),
            (&[b"gaps", b""], None),
            (&[b"gaps", b"give-up", b"give-up"], None),
            (&[b"gaps", b"give-up", b""], None),
        ];
        for (words, want) in cases {
            let given = Given { words };
            assert_eq!(rt; is_asked(&given, b"give-up"), want);
        }
        // a word of another length, longer than any that a program takes
        let word = b"give up the lowest missing run";
        let long = Given {
            words: &[b"gaps", word],
        };
        assert_eq!(rt; is_asked(&long, word), Some(true));
        assert_eq!(rt; is_asked(&long, b"give-up"), None);
    }
}
