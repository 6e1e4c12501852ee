//! What comes of a call that is made, and made again where it is refused.

/// What a call does not hold of its promise.
#[derive(Clone, Copy, Debug)]
pub(crate) struct Wrong(pub &'static str);

/// Whether a call that was done in the end was refused first.
pub(crate) type Done = Result<bool, Wrong>;

/// Tells of a call, and of the code with which it was refused first, if it was.
pub(crate) fn tell(rt: &HostRuntime, name: &str, code: &str, done: Done) -> Result<(), Wrong> {
    let refusal = if done? { code } else { "no refusal" };
    match println!(rt; "{name}: {refusal}, done") {
        Ok(()) => Ok(()),
        Err(_) => Err(Wrong("the output failed")),
    }
}

/// Makes a call, and again where it is refused with this fault; where its value is as it is to be, tells of the call and answers the value.
macro_rules! made {
    ($rt:expr; $name:expr, $fault:pat => $code:expr, $is_good:expr; $call:expr) => {{
        let mut is_refused = false;
        let answered = match $call {
            Err($fault) => {
                is_refused = true;
                $call
            }
            answered => answered,
        };
        match answered {
            Ok(value) if $is_good(&value) => match tell($rt, $name, $code, Ok(is_refused)) {
                Ok(()) => Ok(value),
                Err(wrong) => Err(wrong),
            },
            Ok(_) => Err(Wrong("a call gives something else")),
            Err(_) => Err(Wrong("a call is refused twice, or with another fault")),
        }
    }};
}

pub(crate) use made;
