// Where a search for a term stands: the terms that are still to come, in arrays by value; which nodes may stand next, and what is to come behind one.
#![tactic(auto)]

ghost use Rattle.std.specs.Prelude.{◌≡◌, ◌+◌, ◌-◌, ◌<◌, ◌≤◌, length};
ghost use Rattle.calculus.specs.Limits.{byte_values, max_term_nodes};
ghost use Rattle.recipe_table.specs.Entries.{table_of};
ghost use Rattle.list_spec.specs.Goals.{may_use, meets};
ghost use Rattle.list_index.specs.Index.{constant_codes};
ghost use Rattle.list_place.specs.Places.{want_of, Pushed};
ghost use Rattle.list_place.specs.Candidates.{Annotated, Asked, lambda_stands, leaf_bound, leaf_room, LeafAsked, LeafStands, MayStand};

use list_index::CONSTANT_CODES;
use numbers::{Byte, Term};
use recipe_table::Entry;
use term::Node;

// The terms still to come, the next one last: the number of the type that each must have, and how many variables are in scope there. The types of these stand
// in `env`, outermost first. `spine` applications stand open above the next term.
#[derive(Clone, Copy)]
pub struct Place {
    pub wants: [u16; Term::MAX_NODES],
    pub depths: [u8; Term::MAX_NODES],
    pub env: [u8; Term::MAX_NODES],
    pub goals: usize,
    pub spine: usize,
}

impl Place {
    // In place of a type's number: any type of multiplicity many, at the root.
    pub const ANY: u16 = Byte::VALUES as u16;
}

// A type, applied to as many arguments as applications stand open, is what is wanted.
pub fn is_met(table: &[u8], spine: usize, want: u16, number: u8) -> bool
    ensures { result ≡ meets (table_of table.now) spine (want_of want) number }
{
    let mut t = number;
    for _k in 0..spine {
        let entry = check_types::entry_at(table, t as usize);
        if !check_types::is_function(entry.kind) {
            return false;
        }
        t = entry.q;
    }
    if want == Place::ANY {
        return check_types::many_at(table, t as usize);
    }
    t as u16 == want
}

// Puts the arguments of a function of type t, as many as applications stood open, behind the first `goals` terms to come, the first argument last; answers how many terms there are then.
pub fn push_arguments(
    table: &[u8],
    wants: &mut [u16; Term::MAX_NODES],
    depths: &mut [u8; Term::MAX_NODES],
    goals: usize,
    spine: usize,
    t: u8,
    depth: u8,
) -> usize
    requires { (goals + spine ≤ max_term_nodes) × ((length wants.old ≡ max_term_nodes) × (length depths.old ≡ max_term_nodes)) }
    ensures { Pushed (table_of table.now) wants.old depths.old goals spine t depth wants.new depths.new result }
{
    if spine == 0 {
        return goals;
    }
    let entry = check_types::entry_at(table, t as usize);
    let top = push_arguments(table, wants, depths, goals, spine - 1, entry.q, depth);
    wants[top] = entry.p as u16;
    depths[top] = depth;
    top + 1
}

// The nums that are tried.
const SMALL_NUMS: usize = 2;

// How many numbers are tried after the tag of a node with no subterm; of a constant, all that a byte says.
#[tactic(auto, unfolding(crate::specs::Candidates::leaf_bound))]
pub fn bound_of(tag: u8, depth: usize) -> usize
    ensures { result ≡ leaf_bound tag depth }
{
    match tag {
        Node::VARIABLE => depth,
        Node::NUM => SMALL_NUMS,
        Node::UNIT | Node::NAME => 1,
        _ => Byte::VALUES,
    }
}

// A constant's type is an instance of Fig. 8; other nodes with no subterm have no type of their own.
#[tactic(auto, using(crate::proofs::Asking::annotated_low, crate::proofs::Asking::annotated_high, crate::proofs::Asking::annotated_constant))]
fn is_annotated(constants: &[bool; CONSTANT_CODES], tag: u8, arg: usize) -> bool
    requires { (arg < byte_values) × (length constants.now ≡ constant_codes) }
    ensures { Annotated constants.now tag arg result }
{
    match tag {
        Node::CELL..=Node::HANDLE => { constants[(tag - Node::CELL) as usize * Byte::VALUES + arg] }
        _ => true,
    }
}

// A node with no subterm may stand at a goal, where there is room for it.
fn leaf_stands(
    table: &[u8],
    constants: &[bool; CONSTANT_CODES],
    env: &[u8; Term::MAX_NODES],
    depth: usize,
    spine: usize,
    want: u16,
    code: usize,
) -> bool
    requires { LeafAsked (table_of table.now) constants.now depth code }
    ensures { LeafStands (table_of table.now) env.now depth spine want code result }
{
    let tag = (code / Byte::VALUES) as u8;
    let arg = code % Byte::VALUES;
    if bound_of(tag, depth) <= arg {
        return false;
    }
    if !is_annotated(constants, tag, arg) {
        return false;
    }
    is_met(
        table,
        spine,
        want,
        check_types::leaf_type(tag, arg, env, depth),
    )
}

// A once parameter of type p can be used in a body of type q that has at most so many nodes.
#[tactic(auto, using(crate::proofs::Asking::uses))]
fn may_use(table: &[u8], p: u8, q: u8, nodes: usize) -> bool
    ensures { result ≡ may_use (table_of table.now) p q nodes }
{
    if 2 < nodes || p == q || check_types::many_at(table, p as usize) {
        return true;
    }
    if nodes < 2 {
        return false;
    }
    let body = check_types::entry_at(table, q as usize);
    check_types::is_function(body.kind) && body.q == p
}

// A lambda whose type has this number may stand at a goal, where its body has at most so many nodes.
#[tactic(auto, unfolding(crate::specs::Candidates::lambda_stands))]
fn lambda_stands(table: &[u8], spine: usize, want: u16, number: u8, nodes: usize) -> bool
    ensures { result ≡ lambda_stands (table_of table.now) spine want number nodes }
{
    let entry = check_types::entry_at(table, number as usize);
    check_types::is_function(entry.kind)
        && is_met(table, spine, want, number)
        && may_use(table, entry.p, entry.q, nodes)
}

// There is room for a node with no subterm, where `pending` terms are to come: it is not the last of them, or the last node.
#[tactic(auto, using(crate::proofs::Asking::room_some, crate::proofs::Asking::room_last))]
pub fn has_leaf_room(pending: usize, left: usize) -> bool
    requires { (0 < pending) × (pending ≤ left) }
    ensures { result ≡ leaf_room (left - 1) (pending - 1) }
{
    1 < pending || left == 1
}

// The node of a code may stand at a goal, with `pending` terms to come and `left` nodes left.
pub fn may_stand(
    table: &[u8],
    constants: &[bool; CONSTANT_CODES],
    env: &[u8; Term::MAX_NODES],
    depth: usize,
    spine: usize,
    want: u16,
    pending: usize,
    left: usize,
    code: usize,
) -> bool
    requires { Asked (table_of table.now) constants.now depth pending left code }
    ensures { MayStand (table_of table.now) env.now depth spine want pending left code result }
{
    let tag = (code / Byte::VALUES) as u8;
    let arg = code % Byte::VALUES;
    match tag {
        Node::LAMBDA => {
            pending < left && lambda_stands(table, spine, want, arg as u8, left - pending)
        }
        Node::APPLICATION => arg == 0 && pending + 2 <= left,
        _ => {
            has_leaf_room(pending, left)
                && leaf_stands(table, constants, env, depth, spine, want, code)
        }
    }
}
