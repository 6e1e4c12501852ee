//! What the code that runs from here on can reach, as replies.
ghost use Rattle.std.specs.Prelude.{◌≡◌, ◌++◌, OnOk, string_bytes};
ghost use Rattle.debugger.specs.Reaching.{graph_reply, may_reply, members_reply, objects_reply, reach_reply};

use cap_bounds::CapRep;
use doors::closure_through_doors;
use hart::Hart;
use reach::{Horizon, May, Reach};
use reach_texts::{first_that, put_answer, put_graph, put_members, put_objects, put_summary};
use std::alloc::{AllocError, Global};
use symbols::Symbols;

/// Appends what can be reached, in sum: up to the next trap, unsealing or sealed jump, or through doors.
pub(crate) fn append_reach<C: CapRep>(
    text: &mut String,
    alloc: Global,
    symbols: &Symbols,
    hart: &Hart<C>,
    horizon: Horizon,
) -> Result<(), AllocError>
    ensures { OnOk result (string_bytes text.new ≡ string_bytes text.old ++ reach_reply horizon symbols.now hart.now) }
{
    match horizon {
        Horizon::Stretch => {
            let reach = Reach::of(alloc, hart)?;
            put_summary(text, alloc, symbols, reach.members(), Horizon::Stretch)
        }
        Horizon::Turn => {
            let through = closure_through_doors(alloc, hart)?;
            let members = through.members.as_slice();
            put_summary(text, alloc, symbols, members, Horizon::Turn)
        }
    }
}

/// Appends each capability that can be reached, a line each.
pub(crate) fn append_members<C: CapRep>(
    text: &mut String,
    alloc: Global,
    symbols: &Symbols,
    hart: &Hart<C>,
) -> Result<(), AllocError>
    ensures { OnOk result (string_bytes text.new ≡ string_bytes text.old ++ members_reply symbols.now hart.now) }
{
    let reach = Reach::of(alloc, hart)?;
    put_members(text, symbols, reach.members())
}

/// Appends the same as a graph.
pub(crate) fn append_graph<C: CapRep>(
    text: &mut String,
    alloc: Global,
    symbols: &Symbols,
    hart: &Hart<C>,
) -> Result<(), AllocError>
    ensures { OnOk result (string_bytes text.new ≡ string_bytes text.old ++ graph_reply symbols.now hart.now) }
{
    let reach = Reach::of(alloc, hart)?;
    put_graph(text, symbols, reach.members())
}

/// Appends the same as objects of JSON, one a line.
pub(crate) fn append_objects<C: CapRep>(
    text: &mut String,
    alloc: Global,
    symbols: &Symbols,
    hart: &Hart<C>,
) -> Result<(), AllocError>
    ensures { OnOk result (string_bytes text.new ≡ string_bytes text.old ++ objects_reply symbols.now hart.now) }
{
    let reach = Reach::of(alloc, hart)?;
    put_objects(text, alloc, symbols, reach.members())
}

/// Appends whether the code may do something up to the next trap, unsealing or sealed jump, or through doors, and by which chain.
pub(crate) fn append_may<C: CapRep>(
    text: &mut String,
    alloc: Global,
    symbols: &Symbols,
    hart: &Hart<C>,
    may: May,
    horizon: Horizon,
) -> Result<(), AllocError>
    ensures { OnOk result (string_bytes text.new ≡ string_bytes text.old ++ may_reply horizon symbols.now may hart.now) }
{
    match horizon {
        Horizon::Stretch => {
            let reach = Reach::of(alloc, hart)?;
            let members = reach.members();
            let answer = first_that(members, may);
            put_answer(text, alloc, Horizon::Stretch, symbols, &[], members, answer)
        }
        Horizon::Turn => {
            let through = closure_through_doors(alloc, hart)?;
            let (doors, members) = (through.doors.as_slice(), through.members.as_slice());
            let answer = first_that(members, may);
            put_answer(text, alloc, Horizon::Turn, symbols, doors, members, answer)
        }
    }
}
