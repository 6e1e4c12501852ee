//! The last event of commands that does what is sought.
ghost use Rattle.std.specs.Prelude.{◌≡◌, ◌+◌, ◌<◌, ◌++◌, ◌^◌, List, option_copied, take};
ghost use Rattle.steps.specs.declared.event.Event.{Event};
ghost use Rattle.machine.specs.Run.{run_after};
ghost use Rattle.origins.specs.Places.{IsThere};
ghost use Rattle.origins.specs.Search.{last};
ghost use Rattle.past.specs.Given.{events_of};
ghost use Rattle.past.specs.Giving.{place_after, some_of};
ghost use Rattle.past.specs.Position.{MayGive, beginning};
ghost use Rattle.past.specs.Seeking.{found_by};

use crate::given::{Given, count_of_one};
use crate::giving::next_of;
use crate::player::Player;
use crate::replay::Replay;
use cap_bounds::CapRep;
use machine::Machine;
use origins::{Found, Place, Search, Sought};
use schedules::{Count, Progress};

/// Meets so many events of a command.
fn meet_some<C: CapRep, P: Progress>(
    search: &mut Search,
    machine: &mut Machine<C>,
    player: &mut Player,
    given: Given,
    n: u64,
    counted: &mut Count<'_, P>,
)
    requires may { MayGive n player.old }
    requires there { IsThere search.old.place machine.old }
    requires few { search.old.before + n < 2 ^ 64 }
    ensures position { player.new ≡ place_after n given player.old }
    ensures there { IsThere search.new.place machine.new }
    ensures before { search.new.before ≡ search.old.before + n }
    ensures state { machine.new ≡ run_after (some_of n given player.old) machine.old }
    ensures found { (later : List Event) → found_by search.new later machine.new
        ≡ found_by search.old (some_of n given player.old ++ later) machine.old }
{
    let mut left = n;
    while left > 0 {
        search.meet(machine, next_of(player, given));
        counted.pass(1);
        left -= 1;
    }
}

/// Meets the first events of commands, so many of them.
fn meet_first<C: CapRep, P: Progress>(
    search: &mut Search,
    machine: &mut Machine<C>,
    player: &mut Player,
    all: &[Given],
    n: u64,
    counted: &mut Count<'_, P>,
)
    requires may { MayGive n player.old }
    requires there { IsThere search.old.place machine.old }
    requires few { search.old.before + n < 2 ^ 64 }
    ensures state { machine.new ≡ run_after (take n (events_of all.now player.old)) machine.old }
    ensures found { search.new.found ≡ found_by search.old (take n (events_of all.now player.old)) machine.old }
{
    let mut left = n;
    for given in all {
        let some = count_of_one(*given).min(left);
        meet_some(search, machine, player, *given, some, counted);
        left -= some;
    }
}

/// The last of the first events of commands that does what is sought at a place, from the beginning of a session's steps. Counts the
/// events.
pub(crate) fn last_of<C: CapRep, P: Progress>(
    machine: &mut Machine<C>,
    replay: Option<&Replay>,
    sought: Sought,
    place: Place,
    all: &[Given],
    n: u64,
    counted: &mut Count<'_, P>,
) -> Option<Found>
    requires { IsThere place machine.old }
    ensures state { machine.new ≡ run_after (take n (events_of all.now (beginning (option_copied replay.entry)))) machine.old }
    ensures found { result ≡ last sought place (take n (events_of all.now (beginning (option_copied replay.entry)))) machine.old }
{
    let mut player = Player::at_beginning(replay);
    let mut search = Search::new(sought, place);
    meet_first(&mut search, machine, &mut player, all, n, counted);
    search.found
}
