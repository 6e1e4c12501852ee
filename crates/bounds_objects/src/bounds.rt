//! The object of a request: what CSetBounds makes of root.

ghost use Rattle.std.specs.Prelude.{◌≡◌, ◌++◌, true, IfOk, OnOk, string_bytes};
ghost use Rattle.bounds_objects.specs.Bounds.{rounding_fields, stored_field, window_fields};
ghost use Rattle.bounds_objects.specs.Bounds.{address_fields, asked_field, bounds_object as object_of, given_fields, request_fields};

use crate::pair::put_pair;
use bounds_text::Request;
use cap_bounds::{CapRep, is_exact};
use cap_format::CapWord;
use cap_insns::{alignment_mask, representable_length};
use objects::{Item, Writer, begin, finish, put};
use std::alloc::{AllocError, Global};

/// Says what is asked.
#[tactic(auto, unfolding(crate::specs::Bounds::asked_field))]
fn put_asked(object: &mut Writer, request: Request) -> Result<(), AllocError>
    ensures tokens { OnOk result (object.new.tokens ≡ object.old.tokens ++ asked_field request.base request.length) }
    ensures alone { object.new.before ≡ object.old.before }
{
    put(
        object,
        &[
            Item::Begin("request"),
            Item::Address("base", request.base),
            Item::Wide("top", request.end()),
            Item::Address("length", request.length),
            Item::End,
        ],
    )
}

/// Says what is given: whether that is a capability, whether its bounds are exact, and these.
#[tactic(auto, unfolding(crate::specs::Bounds::given_fields))]
fn put_given(object: &mut Writer, request: Request) -> Result<(), AllocError>
    ensures tokens { OnOk result (object.new.tokens ≡ object.old.tokens ++ given_fields request.base request.length) }
    ensures alone { object.new.before ≡ object.old.before }
{
    put(
        object,
        &[
            Item::Truth("tag", request.tag),
            Item::Truth("exact", is_exact(request.base, request.length)),
            Item::Address("base", request.window.base),
            Item::Wide("top", request.top),
        ],
    )
}

/// Says what rounding does.
#[tactic(auto, unfolding(crate::specs::Bounds::rounding_fields), using(bounds_text::proofs::SetBounds::base_low))]
fn put_rounding(object: &mut Writer, request: Request) -> Result<(), AllocError>
    ensures tokens { OnOk result (object.new.tokens ≡ object.old.tokens ++ rounding_fields request.base request.length) }
    ensures alone { object.new.before ≡ object.old.before }
{
    put(
        object,
        &[
            Item::Address("below", request.base - request.window.base),
            Item::Address("above", request.added_above()),
            Item::Address("granule", request.granule()),
            Item::Address("crrl", representable_length(request.length)),
            Item::Address("cram", alignment_mask(request.length)),
        ],
    )
}

/// Says the halves of the result's word in memory.
#[tactic(auto, unfolding(crate::specs::Bounds::stored_field))]
fn put_stored(object: &mut Writer, request: Request) -> Result<(), AllocError>
    ensures tokens { OnOk result (object.new.tokens ≡ object.old.tokens ++ stored_field request.base request.length) }
    ensures alone { object.new.before ≡ object.old.before }
{
    let stored = request.logical ^ CapWord::NULL.logical();
    put_pair(object, "memory", "low", stored, "high", stored >> 64)
}

/// Says what is asked, and what is given.
#[tactic(auto, using(objects::specs::ItemLaws::said_two))]
fn put_bounds(object: &mut Writer, request: Request) -> Result<(), AllocError>
    ensures tokens { OnOk result (object.new.tokens ≡ object.old.tokens
        ++ (asked_field request.base request.length ++ given_fields request.base request.length)) }
    ensures alone { object.new.before ≡ object.old.before }
{
    put_asked(object, request)?;
    put_given(object, request)
}

/// Says what rounding does, and the halves of the result's word in memory.
#[tactic(auto, using(objects::specs::ItemLaws::said_two))]
fn put_effect(object: &mut Writer, request: Request) -> Result<(), AllocError>
    ensures tokens { OnOk result (object.new.tokens ≡ object.old.tokens
        ++ (rounding_fields request.base request.length ++ stored_field request.base request.length)) }
    ensures alone { object.new.before ≡ object.old.before }
{
    put_rounding(object, request)?;
    put_stored(object, request)
}

/// Says what every request gives.
#[tactic(auto, unfolding(crate::specs::Bounds::request_fields), using(objects::specs::ItemLaws::said_two))]
fn put_request(object: &mut Writer, request: Request) -> Result<(), AllocError>
    ensures tokens { OnOk result (object.new.tokens ≡ object.old.tokens ++ request_fields request.base request.length) }
    ensures alone { object.new.before ≡ object.old.before }
{
    put_bounds(object, request)?;
    put_effect(object, request)
}

/// Says where an address lies, if one is asked for.
#[tactic(auto, unfolding(crate::specs::Bounds::address_fields))]
fn put_address(
    object: &mut Writer,
    request: Request,
    address: Option<u64>,
) -> Result<(), AllocError>
    requires { request.tag ≡ true }
    ensures tokens { OnOk result (object.new.tokens ≡ object.old.tokens ++ address_fields request.base request.length address) }
    ensures alone { object.new.before ≡ object.old.before }
{
    match address {
        Some(address) => put(
            object,
            &[
                Item::Address("address", address),
                Item::Text("lies", request.standing(address)),
            ],
        ),
        None => put(object, &[Item::Null("address"), Item::Null("lies")]),
    }
}

/// Says what a capability's window is, and where an address lies.
#[tactic(auto, unfolding(crate::specs::Bounds::window_fields), using(objects::specs::ItemLaws::said_two))]
fn put_window(object: &mut Writer, request: Request, address: Option<u64>) -> Result<(), AllocError>
    requires { request.tag ≡ true }
    ensures tokens { OnOk result (object.new.tokens ≡ object.old.tokens ++ window_fields request.base request.length address) }
    ensures alone { object.new.before ≡ object.old.before }
{
    let first = u128::from(request.window.first());
    let last = u128::from(request.window.last());
    put_pair(object, "window", "first", first, "last", last)?;
    put_address(object, request, address)
}

/// What setting these bounds gives, as the line of an object: of the same values as `bounds_text`, without the picture. Where the request
/// gives no capability, there is neither `window` nor `address`.
///
/// # Errors
///
/// Out of memory.
#[tactic(auto, unfolding(crate::specs::Bounds::bounds_object), using(objects::specs::ItemLaws::said_two))]
pub fn bounds_object<C: CapRep>(
    alloc: Global,
    base: u64,
    length: u64,
    address: Option<u64>,
) -> Result<String, AllocError>
    ensures { IfOk result (λ line. string_bytes line ≡ object_of base length address) }
{
    let request = Request::of::<C>(base, length);
    let mut object = begin(alloc)?;
    put_request(&mut object, request)?;
    if request.tag {
        put_window(&mut object, request, address)?;
    }
    finish(object)
}
