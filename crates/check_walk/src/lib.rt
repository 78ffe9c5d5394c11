// The type walk: document 01's causes 9 and 10 on the bytes of a term. It carries the types of the variables in scope and a mark for each, and is no
// deeper than the limit of nesting.
#![tactic(auto)]

ghost use Rattle.std.specs.Prelude.{◌≡◌, not, ◌+◌, ◌≤◌, eqb};
ghost use Rattle.calculus.specs.Limits.{max_variables};
ghost use Rattle.check_linearity.specs.Spend.{due_mark, new_mark};
ghost use Rattle.check_linearity.specs.Levels.{floor_under};
ghost use Rattle.recipe_table.specs.Entries.{table_of};
ghost use Rattle.recipe_table.specs.Filled.{as_entry};
ghost use Rattle.check_walk.specs.Marks.{number_of, numbers};
ghost use Rattle.check_walk.specs.Walk.{all_used, Decides, InScope, lambda_answer, LeafSpent, Opened, Room, two_answer, WalkReady, WalkedAt, Whole, with_uses};

use check_types::Typed;
use numbers::{Recipe, Type};
use recipe_table::Entry;
use term::Node;

// The mark of a variable: a many-variable, a once-variable still to be used, a once-variable that was used.
#[derive(Clone, Copy)]
enum Mark {
    Many,
    Due,
    Spent,
}

impl Mark {
    // It is not still to be used.
    fn is_used(self) -> bool
        ensures { result ≡ not (eqb (number_of self) due_mark) }
    {
        !matches!(self, Mark::Due)
    }
}

// The variables in scope, outermost first: the number of each one's type, and its mark.
#[derive(Drop)]
struct Scope {
    env: [u8; Recipe::MAX_VARIABLES],
    marks: [Mark; Recipe::MAX_VARIABLES],
}

// The number of a term's type, where the term ends, and whether cause 10 does not fit.
#[derive(Clone, Copy)]
pub struct Walked {
    pub end: usize,
    pub kept: bool,
    pub number: u8,
}

// The mark of a new variable whose type has number p.
fn new_mark(table: &[u8], p: u8) -> Mark
    ensures { number_of result ≡ new_mark (table_of table.now) p }
{
    if check_types::many_at(table, p as usize) {
        return Mark::Many;
    }
    Mark::Due
}

// The lowest level in reach of the body of a lambda of level `above` whose type has this kind.
fn floor_under(kind: u8, floor: usize, above: usize) -> usize
    ensures { result ≡ floor_under kind floor above }
{
    if kind == Type::ONCE {
        return floor;
    }
    above
}

// Walks a node with no subterm: a once-variable that is used must be due and in reach.
fn spend_leaf(
    marks: &mut [Mark; Recipe::MAX_VARIABLES],
    tag: u8,
    arg: usize,
    above: usize,
    floor: usize,
) -> bool
    requires { InScope tag arg above (numbers marks.old) }
    ensures { LeafSpent tag arg above floor (numbers marks.old) (numbers marks.new) result }
{
    if tag != Node::VARIABLE {
        return true;
    }
    let level = above - 1 - arg;
    match marks[level] {
        Mark::Many => true,
        Mark::Due => {
            if level < floor {
                return false;
            }
            marks[level] = Mark::Spent;
            true
        }
        Mark::Spent => false,
    }
}

// A type, with whether cause 10 does not fit.
fn with_uses(found: Option<Typed>, kept: bool) -> Option<Walked>
    ensures { result ≡ with_uses found kept }
{
    let typed = found?;
    Some(Walked {
        number: typed.number,
        end: typed.end,
        kept,
    })
}

// The answer about a lambda whose type is t, with this entry, from that about its body, which leaves its variable this mark.
fn close_lambda(entry: Entry, t: u8, body: Option<Walked>, mark: Mark) -> Option<Walked>
    ensures { result ≡ lambda_answer (as_entry entry) t body (number_of mark) }
{
    let inside = body?;
    with_uses(
        check_types::lambda_type(entry, t, inside.number, inside.end),
        inside.kept & mark.is_used(),
    )
}

// Opens the scope of a node's second subterm, and answers how many variables are in scope there. A case's two variables, of types p and q, get their types
// and marks, the first component's at the lower level.
fn open_scope(table: &[u8], scope: &mut Scope, binders: usize, p: u8, q: u8, above: usize) -> usize
    requires { Room binders above scope.old.env (numbers scope.old.marks) }
    ensures { Opened (table_of table.now) binders p q above scope.old.env scope.new.env (numbers scope.old.marks) (numbers scope.new.marks) result }
{
    if binders == 0 {
        return above;
    }
    scope.env[above] = p;
    scope.env[above + 1] = q;
    scope.marks[above] = new_mark(table, p);
    scope.marks[above + 1] = new_mark(table, q);
    above + binders
}

// Neither of a case's two variables is still due.
fn are_used(marks: &[Mark; Recipe::MAX_VARIABLES], binders: usize, above: usize) -> bool
    requires { above + 2 ≤ max_variables }
    ensures { result ≡ all_used binders (numbers marks.now) above }
{
    if binders == 0 {
        return true;
    }
    marks[above].is_used() && marks[above + 1].is_used()
}

// The answer about a node with two subterms, where t has this entry, which decides, and the first has type `first` and its uses: from that about the second.
fn close_two(
    tag: u8,
    entry: Entry,
    t: u8,
    first: u8,
    kept: bool,
    second: Option<Walked>,
) -> Option<Walked>
    ensures { result ≡ two_answer tag (as_entry entry) t first kept second }
{
    let other = second?;
    with_uses(
        check_types::two_type(tag, entry, t, first, other.number, other.end),
        kept & other.kept,
    )
}

// Walks the term at a position, with `above` variables in scope whose types and marks stand outermost first. A once-variable of a level below `floor`
// is out of reach. What falls is the part still unread.
fn walk_at(
    table: &[u8],
    s: &[u8],
    at: usize,
    scope: &mut Scope,
    above: usize,
    floor: usize,
) -> Option<Walked>
    requires { WalkReady s.now at above floor scope.old.env (numbers scope.old.marks) }
    ensures { WalkedAt (table_of table.now) s.now at above floor scope.old.env scope.new.env (numbers scope.old.marks) (numbers scope.new.marks) result }
{
    let node = term::node_at(s, at)?;
    let tag = node.tag;
    let arg = node.arg;
    let subterms = node.subterms;
    let binders = node.binders as usize;
    let next = at + node.size;
    if subterms == 0 {
        let number = check_types::leaf_type(tag, arg, &scope.env, above);
        let kept = spend_leaf(&mut scope.marks, tag, arg, above, floor);
        return Some(Walked {
            number,
            end: next,
            kept,
        });
    }
    if tag == Node::LAMBDA {
        let entry = check_types::entry_at(table, arg);
        let under = floor_under(entry.kind, floor, above);
        scope.marks[above] = new_mark(table, entry.p);
        scope.env[above] = entry.p;
        let body = walk_at(table, s, next, scope, above + 1, under);
        return close_lambda(entry, arg as u8, body, scope.marks[above]);
    }
    let first = walk_at(table, s, next, scope, above, floor)?;
    let t = check_types::deciding(tag, arg, first.number);
    let entry = check_types::entry_at(table, t as usize);
    if !check_types::can_open(tag, entry.kind) {
        return None;
    }
    let q = check_types::second_component(tag, t, entry.q);
    let inside = open_scope(table, scope, binders, entry.p, q, above);
    let rest = walk_at(table, s, first.end, scope, inside, floor);
    let used = are_used(&scope.marks, binders, above);
    close_two(tag, entry, t, first.number, first.kept & used, rest)
}

// Causes 9 and 10 of the term that a part is.
pub fn walk(table: &[u8], s: &[u8]) -> Option<Walked>
    requires { Whole s.now }
    ensures { Decides (table_of table.now) s.now result }
{
    let mut scope = Scope {
        env: [0u8; Recipe::MAX_VARIABLES],
        marks: [Mark::Many; Recipe::MAX_VARIABLES],
    };
    walk_at(table, s, 0, &mut scope, 0, 0)
}
