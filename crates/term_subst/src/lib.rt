// Rules 1, 8 and 9 on bytes: how often the two innermost variables around a term stand in it, and the term with closed values in their places. BETA has one
// such variable, taking apart has two. Both are walks (crate term_walk), whose frames are the numbers of variables around the terms still to come, so that no
// term is too deep for them.
#![tactic(auto)]

ghost use Rattle.std.specs.Prelude.{◌≡◌, cond, ◌*◌, ◌+◌, ◌≤◌, length};
ghost use Rattle.calculus.specs.Limits.{max_nodes};
ghost use Rattle.calculus.specs.Image.{nodes};
ghost use Rattle.term.specs.Reader.{end_at, GoodAt};
ghost use Rattle.term.specs.Expressions.{bytes, term_at};
ghost use Rattle.buffer.specs.Written.{Wrote};
ghost use Rattle.term_subst.specs.Variable.{is_variable};
ghost use Rattle.term_subst.specs.Counted.{UsesOf};
ghost use Rattle.term_subst.specs.Replaced.{replaced};

use buffer::put_part;
use term::Form;
use term_walk::{Frames, MAX_WAITS};

// Whether a node refers to the variable with number `depth` around it.
fn is_variable(refers: u8, arg: usize, depth: usize) -> bool
    ensures { result ≡ is_variable refers arg depth }
{
    if refers == Form::TO_VARIABLE {
        return arg == depth;
    }
    false
}

// How often it does: once or not.
fn use_of(refers: u8, arg: usize, depth: usize) -> usize
    ensures { (result ≡ cond (is_variable refers arg depth) 1 0) × (result ≤ 1) }
{
    if is_variable(refers, arg, depth) {
        return 1;
    }
    0
}

// The nodes of a term, and how often two variables stand in it: the innermost around it, and the next.
#[derive(Clone, Copy)]
pub struct Uses {
    pub nodes: usize,
    pub inner: usize,
    pub outer: usize,
}

// One walk over the term at `at`: its nodes, and how often the two innermost variables around it stand in it.
pub fn count_uses(s: &[u8], at: usize) -> Uses
    requires { GoodAt s.now at × (nodes (term_at s.now at) ≤ max_nodes) }
    ensures { UsesOf (term_at s.now at) result }
{
    let mut frames = Frames::<MAX_WAITS>::new();
    let mut here = at;
    let mut nodes: usize = 0;
    let mut inner: usize = 0;
    let mut outer: usize = 0;
    while 0 < frames.waits() {
        let node = term::node_at(s, here).unwrap();
        let around = frames.top();
        let size = node.size;
        let subterms = node.subterms;
        let last = around + (node.binders as u16);
        nodes += 1;
        inner += use_of(node.refers, node.arg, around as usize);
        outer += use_of(node.refers, node.arg, (around as usize) + 1);
        frames.pass(subterms, around, last);
        here += size;
    }
    Uses {
        nodes,
        inner,
        outer,
    }
}

// Bytes of a slice, from one position to another.
#[derive(Clone, Copy)]
pub struct Span {
    pub from: usize,
    pub to: usize,
}

// What is written for a node: the values for the two variables, any other node as it stands.
fn span_for(refers: u8, arg: usize, depth: usize, itself: Span, inner: Span, outer: Span) -> Span
    requires { depth ≤ 2 * max_nodes }
    ensures { result ≡ cond (is_variable refers arg depth) inner (cond (is_variable refers arg (depth + 1)) outer itself) }
{
    if is_variable(refers, arg, depth) {
        return inner;
    }
    if is_variable(refers, arg, depth + 1) {
        return outer;
    }
    itself
}

// Writes the term at `at` with the value at `inner` in each place of the innermost variable around it, and that at `outer` in those of the next. Nothing else
// changes: every other node is copied as it stands.
pub fn put_substituted(
    out: &mut [u8],
    pos: usize,
    s: &[u8],
    at: usize,
    inner: Span,
    outer: Span,
) -> usize
    requires good { GoodAt s.now at × (nodes (term_at s.now at) ≤ max_nodes) }
    requires good_inner { GoodAt s.now inner.from × (inner.to ≡ end_at s.now inner.from) }
    requires good_outer { GoodAt s.now outer.from × (outer.to ≡ end_at s.now outer.from) }
    requires room { pos + length (replaced 0 (bytes (term_at s.now inner.from)) (bytes (term_at s.now outer.from)) (term_at s.now at)) ≤ length out.old }
    ensures { Wrote out.old pos (replaced 0 (bytes (term_at s.now inner.from)) (bytes (term_at s.now outer.from)) (term_at s.now at)) out.new result }
{
    let mut frames = Frames::<MAX_WAITS>::new();
    let mut here = at;
    let mut next = pos;
    while 0 < frames.waits() {
        let node = term::node_at(s, here).unwrap();
        let around = frames.top();
        let subterms = node.subterms;
        let last = around + (node.binders as u16); // variables around its last subterm
        let past = here + node.size;
        let itself = Span {
            from: here,
            to: past,
        };
        let span = span_for(node.refers, node.arg, around as usize, itself, inner, outer);
        next = put_part(out, next, s, span.from, span.to);
        frames.pass(subterms, around, last);
        here = past;
    }
    next
}
