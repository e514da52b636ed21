// What the arguments ask for. `is_asked` of line_feed does the same for any word; no contract of either can speak of arguments.
use line_feed::asked::is_given;
use std::env::{Env, FillError};

// Whether the only argument is give-up: false where there is no argument, none where there is another one, or more than one. A
// longer word is another one.
pub(crate) fn gives_up<E: Env>(env: &E) -> Option<bool> {
    if is_given(env, 2) {
        return None;
    }
    let mut given = [0u8; 7];
    match env.arg(1, &mut given) {
        Ok(n) if &given[..n] == b"give-up".as_slice() => Some(true),
        Err(FillError::NotPresent) => Some(false),
        _ => None,
    }
}
