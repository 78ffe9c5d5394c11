// From one node that is tried to the next, past those that cannot stand.
#![tactic(auto)]

ghost use Rattle.std.specs.Prelude.{◌≡◌, ◌<◌, ◌≤◌};
ghost use Rattle.calculus.specs.Limits.{byte_values};
ghost use Rattle.recipe_table.specs.Entries.{table_of};
ghost use Rattle.term.specs.Forms.{application_tag, cell_tag, handle_tag, lambda_tag};
ghost use Rattle.list_index.specs.Index.{Chains};
ghost use Rattle.list_place.specs.Candidates.{codes, tag_in};
ghost use Rattle.list_skip.specs.Jumps.{applications_end, first_constant, found_in, GoalAsked, Jump, JumpAt, NumberAsked, NumberJump, SmallJump, variables_end};

use list_index::{BAND_CODES, CHAIN_CODES};
use list_place::Place;
use numbers::Byte;
use term::Node;

// Behind the last code, name's.
pub const CODES: usize = (Node::NAME as usize + 1) * Byte::VALUES;

// The first codes of lambdas and of units.
const LAMBDAS: usize = Node::LAMBDA as usize * Byte::VALUES;

const UNITS: usize = Node::UNIT as usize * Byte::VALUES;

// The first tag of a constant with a type.
const CONSTANTS: usize = Node::CELL as usize;

// What a chain says: 0 is none, and then all of the band is passed.
fn found_in(number: u8) -> usize
    ensures { (result ≡ found_in number) × (result ≤ byte_values) }
{
    if number == 0 {
        return Byte::VALUES;
    }
    number as usize
}

// The next number of a band, where one or two applications stand open above it.
fn next_in_chain(
    table: &[u8],
    chains: &[u8; CHAIN_CODES],
    spine: usize,
    want: u16,
    band: usize,
    number: usize,
) -> usize
    requires { NumberAsked (table_of table.now) chains.now band number × ((1 ≤ spine) × ((spine ≤ 2) × (want < byte_values))) }
    ensures { NumberJump (table_of table.now) spine want band number result }
{
    let start = (spine - 1) * (2 * BAND_CODES);
    if number == 0 {
        let first = start + (band * Byte::VALUES + want as usize);
        return found_in(chains[first]);
    }
    if !list_place::is_met(table, spine, want, number as u8) {
        return number + 1;
    }
    let next = start + (BAND_CODES + (band * Byte::VALUES + number));
    found_in(chains[next])
}

// The next number of a band that may come to what is wanted.
fn next_number(
    table: &[u8],
    chains: &[u8; CHAIN_CODES],
    spine: usize,
    want: u16,
    band: usize,
    number: usize,
) -> usize
    requires { NumberAsked (table_of table.now) chains.now band number }
    ensures { NumberJump (table_of table.now) spine want band number result }
{
    if Place::ANY <= want {
        return number + 1;
    }
    if 2 < spine {
        return number + 1;
    }
    if 0 < spine {
        return next_in_chain(table, chains, spine, want, band, number);
    }
    if number < want as usize {
        return want as usize;
    }
    Byte::VALUES
}

// From the code of a lambda to the next one that is tried.
fn after_lambda(
    table: &[u8],
    chains: &[u8; CHAIN_CODES],
    spine: usize,
    want: u16,
    code: usize,
) -> usize
    requires { Chains (table_of table.now) chains.now × (tag_in code ≡ lambda_tag) }
    ensures { JumpAt (table_of table.now) spine want code result }
{
    LAMBDAS + next_number(table, chains, spine, want, 0, code % Byte::VALUES)
}

// From the code of a constant.
fn after_constant(
    table: &[u8],
    chains: &[u8; CHAIN_CODES],
    spine: usize,
    want: u16,
    code: usize,
) -> usize
    requires { Chains (table_of table.now) chains.now × ((cell_tag ≤ tag_in code) × (tag_in code ≤ handle_tag)) }
    ensures { JumpAt (table_of table.now) spine want code result }
{
    let tag = code / Byte::VALUES;
    let band = tag - CONSTANTS + 1;
    tag * Byte::VALUES + next_number(table, chains, spine, want, band, code % Byte::VALUES)
}

// From the last variable: where each term to come must be a node with no subterm, lambdas and applications are passed over.
fn after_variables(pending: usize, left: usize) -> usize
    ensures { result ≡ variables_end pending left }
{
    if left <= pending {
        return UNITS;
    }
    LAMBDAS
}

// From the code of an application: where no node without subterms may stand, everything is passed over.
fn after_application(pending: usize, left: usize) -> usize
    requires { (0 < pending) × (pending ≤ left) }
    ensures { result ≡ applications_end pending left }
{
    if !list_place::has_leaf_room(pending, left) {
        return CODES;
    }
    UNITS
}

// From the code of a variable, of unit or of a num.
fn after_small(depth: usize, pending: usize, left: usize, code: usize) -> usize
    requires { (code < first_constant) × ((tag_in code ≡ lambda_tag → ⊥) × (tag_in code ≡ application_tag → ⊥)) }
    ensures { SmallJump depth pending left code result }
{
    let tag = (code / Byte::VALUES) as u8;
    let arg = code % Byte::VALUES;
    if arg + 1 < list_place::bound_of(tag, depth) {
        return code + 1;
    }
    if tag == Node::VARIABLE {
        return after_variables(pending, left);
    }
    (code / Byte::VALUES + 1) * Byte::VALUES
}

// The next code that is tried at a goal.
pub fn next_code(
    table: &[u8],
    chains: &[u8; CHAIN_CODES],
    depth: usize,
    spine: usize,
    want: u16,
    pending: usize,
    left: usize,
    code: usize,
) -> usize
    requires { Chains (table_of table.now) chains.now × (GoalAsked (table_of table.now) depth pending left × (code < codes)) }
    ensures { Jump (table_of table.now) depth spine want pending left code result }
{
    let tag = (code / Byte::VALUES) as u8;
    if tag == Node::LAMBDA {
        return after_lambda(table, chains, spine, want, code);
    }
    if tag == Node::APPLICATION {
        return after_application(pending, left);
    }
    if Node::HANDLE < tag {
        return CODES;
    }
    if Node::CELL <= tag {
        return after_constant(table, chains, spine, want, code);
    }
    after_small(depth, pending, left, code)
}
