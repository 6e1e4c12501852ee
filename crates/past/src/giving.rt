//! Events of commands, given to a machine.
ghost use Rattle.std.specs.Prelude.{◌≡◌, option_copied, replicate, take};
ghost use Rattle.steps.specs.declared.event.Event.TheVariants.{Step};
ghost use Rattle.machine.specs.Run.{run_after};
ghost use Rattle.past.specs.Given.{events_of, first_of, position_of};
ghost use Rattle.past.specs.Giving.{HasSameSize, after_first, next_of, place_after, place_of, some_of};
ghost use Rattle.past.specs.Position.{MayGive, beginning};

use crate::cutting::after_first;
use crate::given::{Given, count_of_one};
use crate::player::Player;
use crate::replay::Replay;
use cap_bounds::CapRep;
use machine::{Event, Machine};

/// The next event of a command.
pub(crate) fn next_of(player: &mut Player, given: Given) -> Event
    requires { MayGive 1 player.old }
    ensures event { result ≡ next_of given player.old }
    ensures position { player.new ≡ place_of given player.old }
{
    match given {
        Given::Steps(_) => player.next_event(),
        Given::Ticks(_) => Event::Tick,
        Given::Byte(byte) => Event::Byte(byte),
    }
}

/// Gives so many steps.
fn give_steps<C: CapRep>(machine: &mut Machine<C>, n: u64)
    ensures state { machine.new ≡ run_after (replicate n Step) machine.old }
    ensures size { HasSameSize machine.old machine.new }
{
    machine.hart();
    let mut left = n;
    while left > 0 {
        left -= machine.advance(left).steps;
    }
}

/// Gives so many events of a command, one by one.
fn give_each<C: CapRep>(machine: &mut Machine<C>, player: &mut Player, given: Given, n: u64)
    requires { MayGive n player.old }
    ensures state { machine.new ≡ run_after (some_of n given player.old) machine.old }
    ensures position { player.new ≡ place_after n given player.old }
    ensures size { HasSameSize machine.old machine.new }
{
    let mut left = n;
    while left > 0 {
        machine.hart();
        machine.event(next_of(player, given));
        left -= 1;
    }
}

/// The same, where steps have no schedule in as few calls as there can be.
pub(crate) fn give<C: CapRep>(machine: &mut Machine<C>, player: &mut Player, given: Given, n: u64)
    requires { MayGive n player.old }
    ensures state { machine.new ≡ run_after (some_of n given player.old) machine.old }
    ensures position { player.new ≡ place_after n given player.old }
    ensures size { HasSameSize machine.old machine.new }
{
    match given {
        Given::Steps(_) if player.is_alone() => give_steps(machine, n),
        _ => give_each(machine, player, given, n),
    }
}

/// Gives the first events of commands, so many of them.
fn give_first<C: CapRep>(machine: &mut Machine<C>, player: &mut Player, all: &[Given], n: u64)
    requires { MayGive n player.old }
    ensures state { machine.new ≡ run_after (take n (events_of all.now player.old)) machine.old }
    ensures position { player.new ≡ position_of (first_of n all.now) player.old }
    ensures size { HasSameSize machine.old machine.new }
{
    let mut left = n;
    for given in all {
        let some = count_of_one(*given).min(left);
        give(machine, player, *given, some);
        left -= some;
    }
}

/// Gives `n` events more to a machine that was given the first of commands, `from` of them.
pub(crate) fn give_after<C: CapRep>(
    machine: &mut Machine<C>,
    player: &mut Player,
    all: &[Given],
    from: u64,
    n: u64,
)
    requires { MayGive n player.old }
    ensures state { machine.new ≡ run_after (take n (events_of (after_first from all.now) player.old)) machine.old }
    ensures position { player.new ≡ position_of (first_of n (after_first from all.now)) player.old }
    ensures size { HasSameSize machine.old machine.new }
{
    if let Some(rest) = after_first(all, from) {
        let some = count_of_one(rest.given).min(n);
        give(machine, player, rest.given, some);
        give_first(machine, player, rest.later, n - some);
    }
}

/// The same as `give_first` from the beginning of a session's steps. Answers where they stand after it.
pub(crate) fn give_from_beginning<'a, C: CapRep>(
    machine: &mut Machine<C>,
    replay: Option<&'a Replay>,
    all: &[Given],
    n: u64,
) -> Player<'a>
    ensures state { machine.new ≡ run_after (take n (events_of all.now (beginning (option_copied replay.entry)))) machine.old }
    ensures position { result ≡ position_of (first_of n all.now) (beginning (option_copied replay.entry)) }
    ensures size { HasSameSize machine.old machine.new }
{
    let mut player = Player::at_beginning(replay);
    give_first(machine, &mut player, all, n);
    player
}
