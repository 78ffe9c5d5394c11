// Causes 5 to 8 of a part in one pass: whether it is exactly one term, nests within the limit, and has its variables, names and types. It is a walk (crate
// term_walk), whose frames are the numbers of nodes above and of variables around the terms still to come.
#![tactic(auto)]

ghost use Rattle.std.specs.Prelude.{◌≡◌, ◌<◌, ◌≤◌, length};
ghost use Rattle.calculus.specs.Limits.{max_entries};
ghost use Rattle.calculus.specs.Bytes.{two_byte_values};
ghost use Rattle.term.specs.Reader.{node_at};
ghost use Rattle.recipe_table.specs.Entries.{table_of};
ghost use Rattle.check_prescan.specs.Nodes.{Known, TypedNode};
ghost use Rattle.check_prescan.specs.Stands.{ended, glance, next_node, node_annotated, node_stands};

use numbers::{Byte, Recipe};
use recipe_file::ENTRY_LENGTH;
use term::{Form, Node};
use term_walk::{Frames, MAX_NESTED};

// What a node above a term adds to its frame; a variable around it adds 1.
const LEVEL: u16 = Byte::VALUES as u16;

// Cause 8 of a node whose number is that of a type, its subterms apart.
fn type_stands(table: &[u8], tag: u8, arg: usize) -> bool
    requires { TypedNode tag arg }
    ensures { result ≡ node_annotated (table_of table.now) tag arg }
{
    if tag == Node::LAMBDA {
        let entry = check_types::entry_at(table, arg);
        return check_types::is_function(entry.kind);
    }
    if tag <= Node::HANDLE {
        return check_annotations::constant_annotated(table, tag, arg);
    }
    check_annotations::both_annotated(table, tag, arg)
}

// Causes 6 to 8 of a node with this frame, its subterms apart, and whether the edition has its form.
fn node_stands(forms: u8, table: &[u8], names: usize, node: Node, frame: u16) -> bool
    requires { (length (table_of table.now) ≤ max_entries) × Known node }
    ensures { result ≡ node_stands forms (table_of table.now) names frame node }
{
    if forms <= node.tag {
        return false;
    }
    if Recipe::MAX_NESTING <= ((frame / LEVEL) as usize) {
        return false;
    }
    let types = table.len() / ENTRY_LENGTH;
    let refers = node.refers;
    let arg = node.arg;
    if !term_scan::is_there(refers, arg, types, names, (frame % LEVEL) as usize) {
        return false;
    }
    if refers != Form::TO_TYPE {
        return true;
    }
    type_stands(table, node.tag, arg)
}

// The next node, where none of causes 5 to 8 fits it.
fn next_node(
    forms: u8,
    table: &[u8],
    names: usize,
    s: &[u8],
    here: usize,
    frame: u16,
) -> Option<Node>
    requires { (length (table_of table.now) ≤ max_entries) × (here ≤ length s.now) }
    ensures { result ≡ next_node forms (table_of table.now) names frame (node_at s.now here) }
{
    let node = term::node_at(s, here)?;
    if !node_stands(forms, table, names, node, frame) {
        return None;
    }
    Some(node)
}

// The answer behind the last node.
fn ended(s: &[u8], here: usize, nodes: usize) -> Option<usize>
    ensures { result ≡ ended s.now here nodes }
{
    if here < s.len() {
        return None;
    }
    Some(nodes)
}

// The nodes of a part to which none of causes 5 to 8 fits in an edition with so many node forms, apart from the number of nodes in all; otherwise that there is
// no such term.
pub fn glance(forms: u8, table: &[u8], names: usize, s: &[u8]) -> Option<usize>
    requires { length (table_of table.now) ≤ max_entries }
    ensures { result ≡ glance forms (table_of table.now) names s.now }
{
    let mut frames = Frames::<MAX_NESTED>::new();
    let mut here: usize = 0;
    let mut nodes: usize = 0;
    while 0 < frames.waits() {
        let frame = frames.top();
        let node = next_node(forms, table, names, s, here, frame)?;
        let size = node.size;
        let subterms = node.subterms;
        let below = frame + LEVEL;
        let binders = node.binders;
        frames.pass(subterms, below, below + (binders as u16));
        here += size;
        nodes += 1;
    }
    ended(s, here, nodes)
}
