//! What breaks a rule, as fields of an object.
ghost use Rattle.std.specs.Prelude.{◌≡◌, ◌<◌, ◌++◌, length, OnOk};
ghost use Rattle.reached.specs.Chain.{AreInOrder};
ghost use Rattle.reached.specs.Order.{seen_members};
ghost use Rattle.breach_texts.specs.Object.{breach_fields, broken_fields, held_field, rule_field, words_field};

use crate::breach::{RuleLine, ban_word};
use cap_bounds::CapRep;
use objects::{Item, Writer, put};
use policy::Ban;
use reach_texts::{put_held, put_member};
use reached::Member;
use std::alloc::{AllocError, Global};
use symbols::Symbols;

/// Says a rule: the number of its line, and its text.
#[tactic(auto, unfolding(crate::specs::Object::rule_field))]
fn put_rule(object: &mut Writer, rule: RuleLine<'_>) -> Result<(), AllocError>
    ensures tokens { OnOk result (object.new.tokens ≡ object.old.tokens ++ rule_field rule.entry.number rule.entry.text.now) }
    ensures alone { object.new.before ≡ object.old.before }
{
    put(
        object,
        &[
            Item::Begin("rule"),
            Item::Number("line", rule.number),
            Item::Text("text", rule.text),
            Item::End,
        ],
    )
}

/// Says the member of a number, with the fields of its line in a reach.
fn put_holder<C: CapRep>(
    object: &mut Writer,
    symbols: &Symbols,
    members: &[Member<C>],
    number: usize,
) -> Result<(), AllocError>
    requires { number < length members.now }
    ensures tokens { OnOk result (object.new.tokens
        ≡ object.old.tokens ++ held_field symbols.now (seen_members C.value members.now) number) }
    ensures alone { object.new.before ≡ object.old.before }
{
    put(object, &[Item::Begin("held")])?;
    put_member(object, symbols, number as u64, &members[number])?;
    put(object, &[Item::End])
}

/// Says the places that lead to the member of a number, and its capability, as the text tells them.
fn put_words<C: CapRep>(
    object: &mut Writer,
    alloc: Global,
    symbols: &Symbols,
    members: &[Member<C>],
    number: usize,
) -> Result<(), AllocError>
    requires inside { number < length members.now }
    requires order { AreInOrder members.now }
    ensures tokens { OnOk result (object.new.tokens
        ≡ object.old.tokens ++ words_field symbols.now (seen_members C.value members.now) number) }
    ensures alone { object.new.before ≡ object.old.before }
{
    let mut words = String::new(alloc);
    put_held(&mut words, alloc, symbols, &[], members, number)?;
    put(object, &[Item::Text("words", words.as_str())])
}

/// Says the part of a rule that is broken, and the member of a number, which breaks it: its fields, and in words with the places that lead
/// to it.
///
/// # Errors
///
/// Out of memory.
#[tactic(auto, unfolding(crate::specs::Object::broken_fields), using(objects::specs::ItemLaws::said_three))]
pub fn put_broken_fields<C: CapRep>(
    object: &mut Writer,
    alloc: Global,
    symbols: &Symbols,
    members: &[Member<C>],
    ban: Ban,
    member: usize,
) -> Result<(), AllocError>
    requires inside { member < length members.now }
    requires order { AreInOrder members.now }
    ensures tokens { OnOk result (object.new.tokens
        ≡ object.old.tokens ++ broken_fields symbols.now (seen_members C.value members.now) ban member) }
    ensures alone { object.new.before ≡ object.old.before }
{
    put(object, &[Item::Text("part", ban_word(ban))])?;
    put_holder(object, symbols, members, member)?;
    put_words(object, alloc, symbols, members, member)
}

/// Says what breaks a rule: the rule with the number of its line, the part that is broken, and the member of a number, which breaks it.
///
/// # Errors
///
/// Out of memory.
#[tactic(auto, unfolding(crate::specs::Object::breach_fields), using(objects::specs::ItemLaws::said_two))]
pub fn put_breach_fields<C: CapRep>(
    object: &mut Writer,
    alloc: Global,
    symbols: &Symbols,
    members: &[Member<C>],
    rule: RuleLine<'_>,
    ban: Ban,
    member: usize,
) -> Result<(), AllocError>
    requires inside { member < length members.now }
    requires order { AreInOrder members.now }
    ensures tokens { OnOk result (object.new.tokens ≡ object.old.tokens
        ++ breach_fields symbols.now (seen_members C.value members.now) rule.entry.number rule.entry.text.now ban member) }
    ensures alone { object.new.before ≡ object.old.before }
{
    put_rule(object, rule)?;
    put_broken_fields(object, alloc, symbols, members, ban, member)
}
