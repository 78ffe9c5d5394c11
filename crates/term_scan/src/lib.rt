// Terms in bytes that nobody has checked: where a term ends, how many nodes it has, how deep it nests, and whether what it names is there. The loops
// are walks (crate term_walk): they read one node after the other and know the terms still to come, so that no input is too deep for them.
#![tactic(auto)]

ghost use Rattle.std.specs.Prelude.{◌≡◌, ◌≤◌, ◌<◌, leb, length};
ghost use Rattle.calculus.specs.Bytes.{two_byte_values};
ghost use Rattle.calculus.specs.Limits.{max_nesting, max_nodes};
ghost use Rattle.calculus.specs.Image.{nodes};
ghost use Rattle.calculus.specs.Verdict.{scoped};
ghost use Rattle.term.specs.Forms.{to_name};
ghost use Rattle.term.specs.Reader.{GoodAt};
ghost use Rattle.term.specs.Expressions.{nesting, term_at};
ghost use Rattle.term_scan.specs.Extents.{edition_extent, extent_at, in_scope, part_of, small};
ghost use Rattle.term_scan.specs.Scopes.{bound_of, operand_scoped};

use numbers::Image;
use term::Node;
use term_walk::{Frames, MAX_NESTED, MAX_WAITS};

// Where a term ends, and how many nodes it has.
#[derive(Clone, Copy)]
pub struct Extent {
    pub end: usize,
    pub nodes: usize,
}

// One answer for what is no term, for what has too many nodes and for what has a form that an edition with so many lacks, so that the scan stops there.
fn scan_within(s: &[u8], at: usize, budget: usize, forms: u8) -> Option<Extent>
    requires { at ≤ length s.now }
    ensures { result ≡ small budget (edition_extent forms s.now at) }
{
    let mut here = at;
    let mut nodes: usize = 0;
    let mut waits: usize = 1;
    while 0 < waits {
        if budget <= nodes {
            return None;
        }
        let node = term::node_at(s, here)?;
        let tag = node.tag;
        let size = node.size;
        let subterms = node.subterms;
        if forms <= tag {
            return None;
        }
        here += size;
        nodes += 1;
        waits = waits - 1 + (subterms as usize);
    }
    Some(Extent { end: here, nodes })
}

// The same with all forms.
pub fn scan_small(s: &[u8], at: usize, budget: usize) -> Option<Extent>
    requires { at ≤ length s.now }
    ensures { result ≡ small budget (extent_at s.now at) }
{
    scan_within(s, at, budget, Node::TAGS)
}

// No term has more nodes than bytes, so the budget is all of them.
pub fn scan(s: &[u8], at: usize) -> Option<Extent>
    requires { at ≤ length s.now }
    ensures { result ≡ extent_at s.now at }
{
    scan_small(s, at, s.len() - at)
}

// Document 01, cause 5: whether a part is exactly one term, in an edition with so many node forms.
pub fn scan_part(s: &[u8], forms: u8) -> Option<usize>
    ensures { result ≡ part_of forms s.now }
{
    let found = scan_within(s, 0, s.len(), forms)?;
    if found.end != s.len() {
        return None;
    }
    Some(found.nodes)
}

// Document 01, cause 6: whether a term nests within a limit. A frame is the number of nodes above a term still to come.
pub fn nesting_within(s: &[u8], at: usize, limit: usize) -> bool
    requires { GoodAt s.now at × (limit ≤ max_nesting) }
    ensures { result ≡ leb (nesting (term_at s.now at)) limit }
{
    let mut frames = Frames::<MAX_NESTED>::new();
    let mut here = at;
    while 0 < frames.waits() {
        let above = frames.top();
        if limit <= (above as usize) {
            return false;
        }
        let node = term::node_at(s, here).unwrap();
        let size = node.size;
        let subterms = node.subterms;
        frames.pass(subterms, above + 1, above + 1);
        here += size;
    }
    true
}

// What an operand is below, by what it refers to, where so many variables are around its node.
fn bound_of(refers: u8, types: usize, names: usize, around: usize) -> usize
    requires { refers ≤ to_name }
    ensures { result ≡ bound_of types names around refers }
{
    let bounds = [Node::OPERANDS, around, types, names];
    bounds[refers as usize]
}

// Whether what an operand refers to is there.
pub fn is_there(refers: u8, arg: usize, types: usize, names: usize, around: usize) -> bool
    requires { (refers ≤ to_name) × (arg < two_byte_values) }
    ensures { result ≡ operand_scoped types names around refers arg }
{
    arg < bound_of(refers, types, names, around)
}

// Where a term ends that has at most `limit` nodes and names only what is there: each index has its variable, each name is below `names` and each type
// number below `types`. A frame is the number of variables around a term still to come; the frames are lent, and what they hold before does not matter.
pub fn scan_scoped(
    s: &[u8],
    at: usize,
    limit: usize,
    types: usize,
    names: usize,
    frames: &mut Frames<MAX_WAITS>,
) -> Option<Extent>
    requires { (at ≤ length s.now) × (limit ≤ max_nodes) }
    ensures { result ≡ in_scope (scoped types names 0 (term_at s.now at)) (small limit (extent_at s.now at)) }
{
    frames.restart();
    let mut here = at;
    let mut nodes: usize = 0;
    while 0 < frames.waits() {
        if limit < nodes + frames.waits() {
            return None;
        }
        let node = term::node_at(s, here)?;
        let around = frames.top();
        let refers = node.refers;
        let arg = node.arg;
        let size = node.size;
        let subterms = node.subterms;
        let binders = node.binders;
        if !is_there(refers, arg, types, names, around as usize) {
            return None;
        }
        frames.pass(subterms, around, around + (binders as u16));
        here += size;
        nodes += 1;
    }
    Some(Extent { end: here, nodes })
}

// Document 01, cause 7: whether a term names only what is there.
pub fn scoped_within(s: &[u8], at: usize, types: usize, names: usize) -> bool
    requires { GoodAt s.now at × (nodes (term_at s.now at) ≤ max_nodes) }
    ensures { result ≡ scoped types names 0 (term_at s.now at) }
{
    let mut frames = Frames::<MAX_WAITS>::new();
    scan_scoped(s, at, Image::MAX_NODES, types, names, &mut frames).is_some()
}
