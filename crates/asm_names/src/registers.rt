ghost use Rattle.std.specs.Prelude.{◌≡◌, ◌<◌, length, map, nat_eq, position, slice_get, Some, IfSome};
ghost use Rattle.std.specs.Cmp.Lexicographic.{pointwise};
ghost use Rattle.asm_names.specs.Registers.{register_named as number_of, register_name as name_of};

/// The names by use, by number.
const INTEGER_NAMES: [&str; 32] = [
    "zero", "ra", "sp", "gp", "tp", "t0", "t1", "t2", "s0", "s1", "a0", "a1", "a2", "a3", "a4",
    "a5", "a6", "a7", "s2", "s3", "s4", "s5", "s6", "s7", "s8", "s9", "s10", "s11", "t3", "t4",
    "t5", "t6",
];

/// The names by use as capability registers, by number.
const CAPABILITY_NAMES: [&str; 32] = [
    "cnull", "cra", "csp", "cgp", "ctp", "ct0", "ct1", "ct2", "cs0", "cs1", "ca0", "ca1", "ca2",
    "ca3", "ca4", "ca5", "ca6", "ca7", "cs2", "cs3", "cs4", "cs5", "cs6", "cs7", "cs8", "cs9",
    "cs10", "cs11", "ct3", "ct4", "ct5", "ct6",
];

/// The names by number.
const INTEGER_NUMBERS: [&str; 32] = [
    "x0", "x1", "x2", "x3", "x4", "x5", "x6", "x7", "x8", "x9", "x10", "x11", "x12", "x13", "x14",
    "x15", "x16", "x17", "x18", "x19", "x20", "x21", "x22", "x23", "x24", "x25", "x26", "x27",
    "x28", "x29", "x30", "x31",
];

/// The names by number as capability registers.
const CAPABILITY_NUMBERS: [&str; 32] = [
    "c0", "c1", "c2", "c3", "c4", "c5", "c6", "c7", "c8", "c9", "c10", "c11", "c12", "c13", "c14",
    "c15", "c16", "c17", "c18", "c19", "c20", "c21", "c22", "c23", "c24", "c25", "c26", "c27",
    "c28", "c29", "c30", "c31",
];

/// The number of the register that a text names, below 32, or none: `x10`, `a0`, `c10`, `ca0`, `fp`.
#[tactic(auto, unfolding(crate::specs::Registers::register_named))]
pub fn register_named(text: &[u8]) -> Option<u8>
    ensures value { result ≡ number_of text.now }
    ensures below { IfSome result (λ n. n < 32) }
{
    if let Some(n) = place(text, &INTEGER_NAMES) {
        Some(n)
    } else if let Some(n) = place(text, &CAPABILITY_NAMES) {
        Some(n)
    } else if let Some(n) = place(text, &INTEGER_NUMBERS) {
        Some(n)
    } else if let Some(n) = place(text, &CAPABILITY_NUMBERS) {
        Some(n)
    } else if text == "fp".as_bytes() || text == "cfp".as_bytes() {
        Some(8)
    } else {
        None
    }
}

/// The name by use that register `n`, below 32, is shown by: as a capability register, `ca0`, or not, `a0`.
pub fn register_name(n: u8, capability: bool) -> &'static str
    requires { n < 32 }
    ensures { name_of capability n ≡ Some result.now }
{
    if capability {
        name_at(&CAPABILITY_NAMES, n)
    } else {
        name_at(&INTEGER_NAMES, n)
    }
}

fn name_at(names: &[&'static str], n: u8) -> &'static str
    requires { n < length names.now }
    ensures { slice_get (map (λ name. name.now) names.now) n ≡ Some result.now }
{
    names[n as usize]
}

/// The place of a name among 32.
fn place(text: &[u8], names: &[&str; 32]) -> Option<u8>
    ensures value { result ≡ position (λ name. pointwise nat_eq text.now name.now) names.now }
    ensures below { IfSome result (λ n. n < 32) }
{
    match place_in(text, names) {
        Some(n) => Some(n as u8),
        None => None,
    }
}

fn place_in(text: &[u8], names: &[&str]) -> Option<usize>
    ensures value { result ≡ position (λ name. pointwise nat_eq text.now name.now) names.now }
    ensures below { IfSome result (λ n. n < length names.now) }
{
    names.iter().position(|name| text == name.as_bytes())
}
