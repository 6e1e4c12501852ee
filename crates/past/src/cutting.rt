//! The first events of commands, and those after them.
ghost use Rattle.std.specs.Prelude.{◌≡◌, ◌+◌, ◌<◌, ◌≤◌, ◌++◌, [], ◌∷◌, IfSome, IfNone, length, option_to_list, take};
ghost use Rattle.past.specs.Given.{but_last, count_of, count_of_one, cut, first_of};
ghost use Rattle.past.specs.Giving.{after_first, rest_of};

use crate::given::{Given, count_of_one};

/// The first `n` events of a command, fewer than it gave.
fn cut(n: u64, given: Given) -> Option<Given>
    ensures { option_to_list result ≡ cut n given }
{
    match given {
        Given::Steps(_) => Some(Given::Steps(n)),
        Given::Ticks(_) => Some(Given::Ticks(n)),
        Given::Byte(_) => None,
    }
}

/// Which commands gave the first events: so many as a whole, and a part of the one after them.
struct Kept {
    whole: usize,
    part: Option<Given>,
}

/// Of which commands the first `n` events are.
fn cut_at(all: &[Given], n: u64) -> Kept
    ensures first { first_of n all.now ≡ take result.whole all.now ++ option_to_list result.part }
    ensures some { result.whole ≤ length all.now }
    ensures more { IfSome result.part (λ part. result.whole < length all.now) }
{
    let mut left = n;
    let mut whole = 0;
    for given in all {
        let count = count_of_one(*given);
        if left < count {
            let part = cut(left, *given);
            return Kept { whole, part };
        }
        left -= count;
        whole += 1;
    }
    Kept { whole, part: None }
}

/// Keeps the first `n` events of commands.
pub(crate) fn keep_first(all: &mut Vec<Given>, n: u64)
    ensures { all.new.items ≡ first_of n all.old.items }
{
    let Kept { whole, part } = cut_at(all, n);
    match part {
        Some(part) => {
            all[whole] = part;
            all.truncate(whole + 1);
        }
        None => all.truncate(whole),
    }
}

/// What is left of a command after its first `n` events, fewer than it gave.
fn rest_of(n: u64, given: Given) -> Given
    requires { n ≤ count_of_one given }
    ensures { result ≡ rest_of n given }
{
    match given {
        Given::Steps(m) => Given::Steps(m - n),
        Given::Ticks(m) => Given::Ticks(m - n),
        Given::Byte(byte) => Given::Byte(byte),
    }
}

/// What is left of commands after their first events: of one command, and the commands after it.
#[derive(Drop)]
pub(crate) struct Rest<'a> {
    pub(crate) given: Given,
    pub(crate) later: &'a [Given],
}

/// What is left of commands after their first `n` events.
pub(crate) fn after_first<'a>(all: &'a [Given], n: u64) -> Option<Rest<'a>>
    ensures some { IfSome result (λ rest. after_first n all.now ≡ rest.given ∷ rest.later.now) }
    ensures none { IfNone result (after_first n all.now ≡ []) }
{
    let mut left = n;
    let mut rest = all;
    while let [given, later @ ..] = rest {
        let count = count_of_one(*given);
        if left < count {
            let given = rest_of(left, *given);
            return Some(Rest { given, later });
        }
        left -= count;
        rest = later;
    }
    None
}

/// Puts a command in place of the last, and answers that one.
pub(crate) fn set_last(all: &mut Vec<Given>, given: Given) -> Given
    requires { 1 ≤ length all.old.items }
    ensures items { all.new.items ≡ but_last all.old.items ++ given ∷ [] }
    ensures count { count_of all.old.items ≡ count_of (but_last all.old.items) + count_of_one result }
{
    let at = all.len() - 1;
    let before = all[at];
    all[at] = given;
    before
}
