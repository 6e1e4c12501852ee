//! A reach as a graph, in the language of Graphviz.
ghost use Rattle.std.specs.Prelude.{◌≡◌, ◌++◌, OnOk, string_bytes};
ghost use Rattle.reached.specs.Order.{seen_member, seen_members};
ghost use Rattle.reach_texts.specs.Text.{begin_text, graph_text, link_lines, node_end};

use crate::members::{Said, append_each};
use crate::places::place_name;
use arrayvec::ArrayString;
use bounds_text::permission_letters;
use cap_bounds::CapRep;
use cap_rights::is_sealed;
use reached::{Member, Place};
use std::alloc::AllocError;
use symbols::Symbols;
use texts::Piece::{Address, Decimal, Hexadecimal, Text};
use texts::{append, text};

const HEAD: &str =
    "digraph reach {\n  rankdir=LR;\n  node [shape=box, fontname=monospace];\n  registers [shape=plaintext];\n";

/// The end of a node's line: what is sealed is dashed.
fn node_end(sealed: bool) -> ArrayString<18>
    ensures { result.bytes ≡ node_end sealed }
{
    text(&[Text(if sealed {
        "\", style=dashed];\n"
    } else {
        "\"];\n"
    })])
}

/// Where the link to a member begins: at the registers, or at the member that opens it.
fn begin_text(place: Place, from: usize) -> ArrayString<21>
    ensures { result.bytes ≡ begin_text place from }
{
    match place {
        Place::Root(_) => text(&[Text("registers")]),
        _ => text(&[Text("n"), Decimal(from as u64)]),
    }
}

/// Appends a member's node, its permissions in letters and its bounds, and the link to it, with the place where it was found.
#[tactic(auto, unfolding(crate::specs::Text::link_lines))]
pub(crate) fn append_links<C: CapRep>(
    text: &mut String,
    symbols: &Symbols,
    number: usize,
    member: &Member<C>,
) -> Result<(), AllocError>
    ensures { OnOk result (string_bytes text.new
        ≡ string_bytes text.old ++ link_lines symbols.now number (seen_member C.value member.now)) }
{
    let letters = permission_letters(member.cap.perms());
    let end = node_end(is_sealed(member.cap));
    append(
        text,
        &[
            Text("  n"),
            Decimal(number as u64),
            Text(" [label=\""),
            Text(letters.as_str()),
            Text("\\n"),
            Address(member.cap.base()),
            Text(" to "),
            Hexadecimal(17, member.cap.top()),
            Text(end.as_str()),
        ],
    )?;
    let begin = begin_text(member.place, member.from);
    append(
        text,
        &[
            Text("  "),
            Text(begin.as_str()),
            Text(" -> n"),
            Decimal(number as u64),
            Text(" [label=\""),
            Text(place_name(symbols, member.place).as_str()),
            Text("\"];\n"),
        ],
    )
}

/// Appends a reach as a graph: a node a member, an edge a link with its place; what is sealed is dashed.
pub fn put_graph<C: CapRep>(
    text: &mut String,
    symbols: &Symbols,
    members: &[Member<C>],
) -> Result<(), AllocError>
    ensures { OnOk result (string_bytes text.new ≡ string_bytes text.old ++ graph_text symbols.now (seen_members C.value members.now)) }
{
    append(text, &[Text(HEAD)])?;
    append_each(text, Said::Links, symbols, members)?;
    append(text, &[Text("}\n")])
}
