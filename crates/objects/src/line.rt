//! Objects, written item by item.

ghost use Rattle.std.specs.Prelude.{◌≡◌, ◌≤◌, ◌++◌, [], ◌∷◌, length, IfOk, OnOk, string_bytes};
ghost use Rattle.json.specs.Token.{begin_object};
ghost use Rattle.objects.specs.Items.{digits_field, item_tokens, line_of, object_line as line_of_items, tokens_of};

use crate::item::Item;
use arrayvec::ArrayString;
use json::Writer;
use std::alloc::{AllocError, Global};
use texts::{pieces, text};

/// An object that says nothing yet.
pub fn begin(alloc: Global) -> Result<Writer, AllocError>
    ensures alone { IfOk result (λ object. object.before ≡ []) }
    ensures tokens { IfOk result (λ object. object.tokens ≡ begin_object ∷ []) }
{
    let mut object = Writer::new(Vec::new(alloc));
    object.begin_object()?;
    Ok(object)
}

/// Says a number as a string: `0x` and its lowest digits.
fn put_digits(object: &mut Writer, name: &str, width: usize, n: u128) -> Result<(), AllocError>
    requires { width ≤ 17 }
    ensures tokens { OnOk result (object.new.tokens ≡ object.old.tokens ++ digits_field width name.now n) }
    ensures alone { object.new.before ≡ object.old.before }
{
    let digits: ArrayString<19> = text(&pieces!["0x" Hexadecimal(width, n)]);
    object.key(name)?;
    object.string(digits.as_str())
}

/// Says an item.
fn put_item(object: &mut Writer, item: Item<'_>) -> Result<(), AllocError>
    ensures tokens { OnOk result (object.new.tokens ≡ object.old.tokens ++ item_tokens item.entry) }
    ensures alone { object.new.before ≡ object.old.before }
{
    match item {
        Item::Null(name) => {
            object.key(name)?;
            object.null()
        }
        Item::Truth(name, truth) => {
            object.key(name)?;
            object.boolean(truth)
        }
        Item::Number(name, n) => {
            object.key(name)?;
            object.u64(n)
        }
        Item::Address(name, n) => put_digits(object, name, 16, u128::from(n)),
        Item::Half(name, n) => put_digits(object, name, 16, n),
        Item::Wide(name, n) => put_digits(object, name, 17, n),
        Item::Text(name, text) => {
            object.key(name)?;
            object.string(text)
        }
        Item::Begin(name) => {
            object.key(name)?;
            object.begin_object()
        }
        Item::End => object.end_object(),
    }
}

/// Says items, one after the other.
///
/// # Errors
///
/// Out of memory.
pub fn put(object: &mut Writer, items: &[Item<'_>]) -> Result<(), AllocError>
    ensures tokens { OnOk result (object.new.tokens ≡ object.old.tokens ++ tokens_of items.now) }
    ensures alone { object.new.before ≡ object.old.before }
{
    match items {
        [] => Ok(()),
        [first, rest @ ..] => {
            put_item(object, *first)?;
            put(object, rest)
        }
    }
}

/// The line of an object that says all.
///
/// # Errors
///
/// Out of memory.
pub fn finish(object: Writer) -> Result<String, AllocError>
    requires { object.before ≡ [] }
    ensures { IfOk result (λ line. string_bytes line ≡ line_of object.tokens) }
{
    let mut object = object;
    object.end_object()?;
    match String::from_utf8(object.into_inner()) {
        Ok(mut line) => {
            line.push_str("\n")?;
            Ok(line)
        }
        Err(_) => unreachable!(),
    }
}

/// The line of an object that says these items.
///
/// # Errors
///
/// Out of memory.
pub fn object_line(alloc: Global, items: &[Item<'_>]) -> Result<String, AllocError>
    ensures { IfOk result (λ line. string_bytes line ≡ line_of_items (tokens_of items.now)) }
{
    let mut object = begin(alloc)?;
    put(&mut object, items)?;
    finish(object)
}
