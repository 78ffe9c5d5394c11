// Document 01, cause 8, and T-03: the types that lambdas, constants, pairs and list fronts are annotated with.
#![tactic(auto)]

ghost use Rattle.std.specs.Prelude.{◌≡◌, false, true, ◌<◌, ◌≤◌};
ghost use Rattle.calculus.specs.Limits.{byte_values};
ghost use Rattle.calculus.specs.Syntax.{at};
ghost use Rattle.calculus.specs.Verdict.{annotated, cell_parts, exch_parts, handle_parts, thread_parts, with_components};
ghost use Rattle.term.specs.Forms.{cell_tag, handle_tag};
ghost use Rattle.term.specs.Expressions.{leaf_exp};
ghost use Rattle.recipe_table.specs.Entries.{table_of};
ghost use Rattle.check_types.specs.Two.{shape_of};
ghost use Rattle.check_annotations.specs.Nodes.{handle_of, maps};

use numbers::Type;
use recipe_table::Entry;
use term::Node;

// An entry is a function from p to q.
#[tactic(auto, unfolding(crate::specs::Nodes::maps))]
fn is_from_to(entry: Entry, p: u8, q: u8) -> bool
    ensures { result ≡ maps entry p q }
{
    check_types::is_function(entry.kind) && entry.p == p && entry.q == q
}

// An entry is a function from a to unit, usable once.
#[tactic(auto, unfolding(crate::specs::Nodes::handle_of))]
fn is_handle_of(entry: Entry, a: u8) -> bool
    ensures { result ≡ handle_of entry a }
{
    entry.kind == Type::ONCE && entry.p == a && entry.q == Type::UNIT_ENTRY
}

// Fig. 8: a to a ref. The type of the constant is a function with this entry, here and below.
fn is_cell_type(table: &[u8], whole: Entry) -> bool
    ensures { result ≡ cell_parts (table_of table.now) whole.p whole.q }
{
    let result = check_types::entry_at(table, whole.q as usize);
    result.kind == Type::CELL && result.p == whole.p
}

// Fig. 8: a ref to (a to a).
fn is_exch_type(table: &[u8], whole: Entry) -> bool
    ensures { result ≡ exch_parts (table_of table.now) whole.p whole.q }
{
    let parameter = check_types::entry_at(table, whole.p as usize);
    let result = check_types::entry_at(table, whole.q as usize);
    parameter.kind == Type::CELL && is_from_to(result, parameter.p, parameter.p)
}

// Fig. 8: (a to a) to a, a of multiplicity many.
fn is_thread_type(table: &[u8], whole: Entry) -> bool
    ensures { result ≡ thread_parts (table_of table.now) whole.p whole.q }
{
    let parameter = check_types::entry_at(table, whole.p as usize);
    is_from_to(parameter, whole.q, whole.q) && check_types::many_at(table, whole.q as usize)
}

// Document 01: "(a to ((a once to unit) to r)) to r, .. a of multiplicity many".
fn is_handle_type(table: &[u8], whole: Entry) -> bool
    ensures { result ≡ handle_parts (table_of table.now) whole.p whole.q }
{
    let outer = check_types::entry_at(table, whole.p as usize);
    let inner = check_types::entry_at(table, outer.q as usize);
    let handle = check_types::entry_at(table, inner.p as usize);
    check_types::is_function(outer.kind)
        && check_types::is_function(inner.kind)
        && is_handle_of(handle, outer.p)
        && inner.q == whole.q
        && check_types::many_at(table, outer.p as usize)
}

// The test of a constant that has a type: one from cell to handle.
#[tactic(auto, using(crate::proofs::Leaves::constants))]
pub fn constant_annotated(table: &[u8], tag: u8, arg: usize) -> bool
    requires { (arg < byte_values) × ((cell_tag ≤ tag) × (tag ≤ handle_tag)) }
    ensures { result ≡ annotated (table_of table.now) (leaf_exp tag arg) }
{
    let whole = check_types::entry_at(table, arg);
    if !check_types::is_function(whole.kind) {
        return false;
    }
    match tag {
        Node::CELL => is_cell_type(table, whole),
        Node::EXCH => is_exch_type(table, whole),
        Node::THREAD => is_thread_type(table, whole),
        _ => is_handle_type(table, whole),
    }
}

// T-03: the type of node 10 is a pair, that of node 11 a list.
pub fn both_annotated(table: &[u8], tag: u8, arg: usize) -> bool
    requires { arg < byte_values }
    ensures { result ≡ with_components false (shape_of tag) arg (at (table_of table.now) arg) (λ p q. true) }
{
    let entry = check_types::entry_at(table, arg);
    check_types::is_kind_of(tag, entry.kind)
}
