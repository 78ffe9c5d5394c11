// The type of a term from those of its subterms, with the types of the variables in scope.
#![tactic(auto)]

ghost use Rattle.std.specs.Prelude.{◌≡◌, ◌<◌, length};
ghost use Rattle.std.proofs.Math.Option.{some};
ghost use Rattle.calculus.specs.Limits.{byte_values};
ghost use Rattle.calculus.specs.Table.{is_many};
ghost use Rattle.calculus.specs.Verdict.{both_number, is_function_kind, is_kind_of, lambda_number, result_number};
ghost use Rattle.term.specs.Expressions.{leaf_exp};
ghost use Rattle.recipe_table.specs.Entries.{table_of};
ghost use Rattle.recipe_table.specs.Filled.{as_entry};
ghost use Rattle.check_types.specs.Entries.{entry_of};
ghost use Rattle.check_types.specs.Two.{Annotated, can_open, deciding, is_both_tag, is_list_tag, second_component, shape_of, two_number};
ghost use Rattle.check_types.specs.Walk.{environment, HasNumber, LeafThere, typed};

use numbers::Type;
use recipe_file::ENTRY_LENGTH;
use recipe_table::Entry;
use term::{Node, is_case};

// The number of a term's type, and where the term ends.
#[derive(Clone, Copy)]
pub struct Typed {
    pub end: usize,
    pub number: u8,
}

// An entry of this kind is a function.
pub fn is_function(kind: u8) -> bool
    ensures { result ≡ is_function_kind kind }
{
    matches!(kind, Type::ONCE | Type::MANY)
}

// The entry with a number, in the bytes of a table; where there is none, an unused one.
pub fn entry_at(table: &[u8], t: usize) -> Entry
    requires { t < byte_values }
    ensures { as_entry result ≡ entry_of (table_of table.now) t }
{
    let at = ENTRY_LENGTH * t;
    if at + 2 < table.len() {
        return Entry {
            kind: table[at],
            p: table[at + 1],
            q: table[at + 2],
        };
    }
    Entry::UNUSED
}

// Document 01, cause 11: whether a type has multiplicity many, by the bytes of a table.
pub fn many_at(table: &[u8], t: usize) -> bool
    requires { t < byte_values }
    ensures { result ≡ is_many (table_of table.now) t }
{
    ENTRY_LENGTH * t + 2 < table.len() && recipe_table::is_many(entry_at(table, t))
}

// The type of a term with no subterm. The first `above` elements of env are the types of the variables in scope, outermost first.
#[tactic(auto, using(crate::proofs::Leaves::leaves))]
pub fn leaf_type(tag: u8, arg: usize, env: &[u8], above: usize) -> u8
    requires { LeafThere (length env.now) above tag arg }
    ensures { HasNumber (environment above env.now) (leaf_exp tag arg) result }
{
    match tag {
        Node::VARIABLE => env[above - 1 - arg],
        Node::NUM => Type::NUM_ENTRY,
        Node::NAME => Type::SETTING_ENTRY,
        Node::CELL..=Node::HANDLE => arg as u8,
        _ => Type::UNIT_ENTRY,
    }
}

// The type of a lambda whose annotation is t, with this entry, and whose body has type `body`.
#[tactic(auto, unfolding(calculus::specs::Verdict::lambda_number, calculus::specs::Verdict::on_number, crate::specs::Walk::typed))]
pub fn lambda_type(entry: Entry, t: u8, body: u8, end: usize) -> Option<Typed>
    ensures { result ≡ typed (lambda_number t (some (as_entry entry)) (λ p. some body)) end }
{
    if is_function(entry.kind) && body == entry.q {
        return Some(Typed { number: t, end });
    }
    None
}

// The type of an application: the function's type has this entry, and its argument has type `argument`.
#[tactic(auto, unfolding(calculus::specs::Verdict::result_number, crate::specs::Walk::typed))]
pub fn applied_type(entry: Entry, argument: u8, end: usize) -> Option<Typed>
    ensures { result ≡ typed (result_number (some (as_entry entry)) argument) end }
{
    if is_function(entry.kind) && argument == entry.p {
        return Some(Typed {
            number: entry.q,
            end,
        });
    }
    None
}

// A pair or list front; of these and of cases, the forms of lists.
#[tactic(auto, unfolding(crate::specs::Two::is_both_tag))]
fn is_both(tag: u8) -> bool
    ensures { result ≡ is_both_tag tag }
{
    matches!(tag, Node::PAIR | Node::LIST)
}

#[tactic(auto, unfolding(crate::specs::Two::is_list_tag))]
fn is_list(tag: u8) -> bool
    ensures { result ≡ is_list_tag tag }
{
    matches!(tag, Node::LIST | Node::CASE_LIST)
}

// An entry of this kind is a pair, or for a list's form a list.
#[tactic(auto, unfolding(crate::specs::Two::shape_of))]
pub fn is_kind_of(tag: u8, kind: u8) -> bool
    ensures { result ≡ is_kind_of (shape_of tag) kind }
{
    match kind {
        Type::ONCE_LIST | Type::MANY_LIST => is_list(tag),
        Type::ONCE_PAIR | Type::MANY_PAIR => !is_list(tag),
        _ => false,
    }
}

// The type of the second component, where the type with number t has this q: a list's rest is a list of the same type.
#[tactic(auto, unfolding(crate::specs::Two::shape_of))]
pub fn second_component(tag: u8, t: u8, q: u8) -> u8
    ensures { result ≡ second_component tag t q }
{
    if is_list(tag) {
        return t;
    }
    q
}

// The type whose entry decides that of a node with two subterms: a pair's or front's own, else that of the first.
#[tactic(auto, unfolding(crate::specs::Two::deciding))]
pub fn deciding(tag: u8, arg: usize, first: u8) -> u8
    requires { Annotated tag arg }
    ensures { result ≡ deciding tag arg first }
{
    if is_both(tag) {
        return arg as u8;
    }
    first
}

// A case's subject has a type of the kind that the case takes apart.
#[tactic(auto, unfolding(crate::specs::Two::can_open))]
pub fn can_open(tag: u8, kind: u8) -> bool
    ensures { result ≡ can_open tag kind }
{
    !is_case(tag) || is_kind_of(tag, kind)
}

// The type of a pair or front whose annotation is t, with this entry, and whose components have types `first` and `second`.
#[tactic(auto, unfolding(calculus::specs::Verdict::both_number, calculus::specs::Verdict::on_number, calculus::specs::Verdict::with_components, crate::specs::Walk::typed))]
fn both_type(tag: u8, entry: Entry, t: u8, first: u8, second: u8, end: usize) -> Option<Typed>
    ensures { result ≡ typed (both_number (shape_of tag) t (some (as_entry entry)) (some first) (some second)) end }
{
    if !is_kind_of(tag, entry.kind)
        || first != entry.p
        || second != second_component(tag, t, entry.q)
    {
        return None;
    }
    Some(Typed { number: t, end })
}

// The type of a node with two subterms of types `first` and `second`, where t has the entry that decides. A case has its body's type.
#[tactic(auto, unfolding(crate::specs::Two::two_number, crate::specs::Walk::typed))]
pub fn two_type(tag: u8, entry: Entry, t: u8, first: u8, second: u8, end: usize) -> Option<Typed>
    ensures { result ≡ typed (two_number tag (as_entry entry) t first second) end }
{
    if is_case(tag) {
        return Some(Typed {
            number: second,
            end,
        });
    }
    if is_both(tag) {
        return both_type(tag, entry, t, first, second, end);
    }
    applied_type(entry, second, end)
}
