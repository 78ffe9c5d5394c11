// The order of terms in bytes: whether what stands so far comes after the bytes given, and the bytes of a node put behind it.
#![tactic(auto)]

ghost use Rattle.std.specs.Prelude.{◌≡◌, [], ◌∷◌, ◌+◌, ◌<◌, ◌≤◌};
ghost use Rattle.calculus.specs.Limits.{max_term_length};
ghost use Rattle.list_spec.specs.Order.{passed};
ghost use Rattle.list_place.specs.Candidates.{codes};
ghost use Rattle.list_order.specs.Standing.{code_bytes, code_length, low_of, says, Stand, Written};

use numbers::{Byte, Term};
use term::Node;

// One byte more, where `at` bytes stand.
fn pass_byte(after: &[u8], at: usize, free: bool, byte: u8) -> Option<bool>
    requires { at < max_term_length }
    ensures { passed (low_of free at after.now) (byte ∷ []) ≡ says (at + 1) after.now result }
{
    if free {
        return Some(true);
    }
    if after.len() <= at {
        return Some(true);
    }
    let given = after[at];
    if byte < given {
        return None;
    }
    Some(given < byte)
}

// How many bytes the node of a code has.
pub fn length_of(code: usize) -> usize
    requires { code < codes }
    ensures { result ≡ code_length code }
{
    let form = term::form_of((code / Byte::VALUES) as u8);
    1 + form.operand as usize
}

// The bytes of the node of a code more, where `at` bytes stand.
pub fn pass_node(after: &[u8], at: usize, free: bool, code: usize) -> Option<bool>
    requires { (code < codes) × (at + 3 ≤ max_term_length) }
    ensures { passed (low_of free at after.now) (code_bytes code) ≡ says (at + code_length code) after.now result }
{
    let length = length_of(code);
    let first = pass_byte(after, at, free, (code / Byte::VALUES) as u8)?;
    if length == 1 {
        return Some(first);
    }
    let second = pass_byte(after, at + 1, first, (code % Byte::VALUES) as u8)?;
    if length == 2 {
        return Some(second);
    }
    pass_byte(after, at + 2, second, 0)
}

// Puts the bytes of the node of a code behind what stands.
pub fn write_node(out: [u8; Term::MAX_LENGTH], len: usize, code: usize) -> [u8; Term::MAX_LENGTH]
    requires { (code < codes) × ((len + 3 ≤ max_term_length) × Stand out len) }
    ensures { Written out len code result }
{
    let length = length_of(code);
    let mut wider = out;
    wider[len] = (code / Byte::VALUES) as u8;
    if length == 1 {
        return wider;
    }
    wider[len + 1] = (code % Byte::VALUES) as u8;
    wider
}
