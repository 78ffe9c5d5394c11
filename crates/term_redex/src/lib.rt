// Document 01, "A step": "Otherwise Fig. 3 gives one place where two values meet". An application whose function is not the constant exch is never a value,
// and a case is none, so the place is inside such a node or it is the node itself: the search goes forward, node by node, and never comes back.
#![tactic(auto)]

ghost use Rattle.std.specs.Prelude.{◌≡◌, Some};
ghost use Rattle.calculus.specs.Step.{place};
ghost use Rattle.calculus.specs.Image.{is_settled};
ghost use Rattle.term.specs.Reader.{end_at, GoodAt, node_at};
ghost use Rattle.term.specs.Expressions.{term_at};
ghost use Rattle.term_redex.specs.Shapes.{is_case, is_stop};
ghost use Rattle.term_redex.specs.Places.{place_of, Searchable};
ghost use Rattle.term_redex.specs.Stops.{Stopped, StoppedBeside, TaggedAt};

use term::{Node, is_case};

// Where values meet: the application or the case, its second subterm, and where it ends.
#[derive(Clone, Copy)]
pub struct Meeting {
    pub at: usize,
    pub second: usize,
    pub end: usize,
}

// What a search of a term comes to: a node in it that is no value, or, past a value, where the term ends.
// No Result: neither of the two is a failure.
#[derive(Clone, Copy)]
pub enum Stop {
    At(usize),
    Past(usize),
}

// From an application or a case to its first subterm.
const FIRST: usize = 1;

// The node at the front of a term.
fn known_node(s: &[u8], at: usize) -> Node
    requires { GoodAt s.now at }
    ensures { node_at s.now at ≡ Some result }
{
    term::node_at(s, at).unwrap()
}

// Where a term ends.
pub fn end_of(s: &[u8], at: usize) -> usize
    requires { GoodAt s.now at }
    ensures { result ≡ end_at s.now at }
{
    term_scan::scan(s, at).unwrap().end
}

// Whether a term with this tag is no value whatever its subterms are: an application of anything but exch, a case, a variable.
fn is_stop(s: &[u8], at: usize, tag: u8) -> bool
    requires { TaggedAt s.now at tag }
    ensures { result ≡ is_stop (term_at s.now at) }
{
    match tag {
        Node::APPLICATION => {
            let function = known_node(s, at + FIRST);
            function.tag != Node::EXCH
        }
        Node::VARIABLE => true,
        _ => is_case(tag),
    }
}

// A search of a term, node by node. A pair, a list front and exch applied are opened; what is no stop and has no subterm is a value, and a lambda is one with all
// that is in it.
fn next_stop(s: &[u8], at: usize) -> Stop
    requires { GoodAt s.now at }
    ensures { Stopped s.now at result }
{
    let mut here = at;
    let mut waits: usize = 1; // terms still to come, one after the other
    while 0 < waits {
        let node = known_node(s, here);
        if is_stop(s, here, node.tag) {
            return Stop::At(here);
        }
        if node.subterms == 1 {
            here = end_of(s, here);
            waits -= 1;
        } else {
            here += node.size;
            waits = waits - 1 + (node.subterms as usize);
        }
    }
    Stop::Past(here)
}

// Document 01: "a value (name, constant, lambda, or exch applied to a value)"; T-03: "Pairs and list fronts of two values are values".
pub fn is_value(s: &[u8], at: usize) -> bool
    requires { GoodAt s.now at }
    ensures { result ≡ is_settled (place (term_at s.now at)) }
{
    let Stop::At(_) = next_stop(s, at) else {
        return true;
    };
    false
}

// A search of a stop's second subterm, where the first is a value: an argument is searched, the body of a case is passed whatever it is.
fn second_stop(s: &[u8], node: usize, second: usize) -> Stop
    requires { GoodAt s.now node × GoodAt s.now second }
    ensures { StoppedBeside s.now second (is_case (term_at s.now node)) result }
{
    let root = known_node(s, node);
    if is_case(root.tag) {
        return Stop::Past(end_of(s, second));
    }
    next_stop(s, second)
}

// Each stop inside the last one is nearer to the place; where there is none, the last one is it.
pub fn find_place(s: &[u8], at: usize) -> Option<Meeting>
    requires { Searchable s.now at }
    ensures { result ≡ place_of at (place (term_at s.now at)) }
{
    let Stop::At(outermost) = next_stop(s, at) else {
        return None;
    };
    let mut node = outermost;
    loop {
        let first = next_stop(s, node + FIRST);
        match first {
            Stop::At(inner) => {
                node = inner;
            }
            Stop::Past(second) => {
                let beside = second_stop(s, node, second);
                match beside {
                    Stop::At(inner) => {
                        node = inner;
                    }
                    Stop::Past(end) => {
                        return Some(Meeting {
                            at: node,
                            second,
                            end,
                        });
                    }
                }
            }
        }
    }
}
