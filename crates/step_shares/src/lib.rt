// Document 02, T-09: a step's outcome weighed bay by bay before a byte is written. What each bay owns of the image is counted in one pass, and what the step brings to a
// bay and takes from it is told by numbers.
#![tactic(auto)]

ghost use Rattle.std.specs.Prelude.{◌≡◌, ◌&&◌, cond, ◌+◌, ◌<◌, ◌≤◌, eqb, leb};
ghost use Rattle.calculus.specs.Limits.{max_bays, max_names, max_nodes};
ghost use Rattle.calculus.specs.Shares.{bays_in, names_share, nodes_share};
ghost use Rattle.image_layout.specs.Slice.{names, owner_at};
ghost use Rattle.image.specs.Configuration.{owned_of, owners_of};
ghost use Rattle.image_check.specs.Parts.{nodes_of};
ghost use Rattle.step_rules.specs.Moves.{carried};
ghost use Rattle.step_rules.specs.Stepped.{Movable};
ghost use Rattle.step_look.specs.Leaving.{left_by};
ghost use Rattle.step_look.specs.Looked.{Goes};
ghost use Rattle.step_shares.specs.Leaving.{shares_after};
ghost use Rattle.step_shares.specs.Tallies.{Changed, Few, names_to, nodes_from, nodes_to, Tallied};

use image_check::Standing;
use image_layout::{kind_at, names_of, offset_at, owner_at};
use numbers::{Image, Recipe};
use step_look::Going;
use step_room::nodes_at;
use step_rules::{Carried, Move, Step};

// The names and nodes that each bay owns.
#[derive(Clone, Copy)]
pub struct Tally {
    pub names: [usize; Recipe::MAX_BAYS],
    pub nodes: [usize; Recipe::MAX_BAYS],
}

// What a step brings to bays and takes from them. The bay of the thread that goes gets names and nodes and gives nodes. So does, with nodes alone, the bay of the name that
// something is carried into, which may be the same.
#[derive(Clone, Copy)]
pub struct Flow {
    pub own: usize,
    pub new: usize,
    pub come: usize,
    pub gone: usize,
    pub other: usize,
    pub gained: usize,
    pub lost: usize,
}

// The bay that owns name k.
fn bay_at(image: Standing, k: usize) -> usize
    requires { k < names image.bytes.now }
    ensures { (result ≡ owner_at image.entry.bytes.now k) × (result < max_bays) }
{
    owner_at(image.bytes, k) as usize
}

// "The stepper takes b as one more than the highest owner in the image".
fn bays_of(image: Standing) -> usize
    ensures { (result ≡ bays_in (owners_of image.entry.bytes.now)) × (result ≤ max_bays) }
{
    let names = names_of(image.bytes);
    let mut bays = 0;
    for k in 0..names {
        let owner = bay_at(image, k);
        bays = bays.max(owner + 1);
    }
    bays
}

// The nodes of name k: those of its expression, where it has one.
fn name_nodes(image: Standing, k: usize) -> usize
    requires { k < names image.bytes.now }
    ensures { result ≡ nodes_of image.entry.bytes.now k }
{
    if Image::CELL < kind_at(image.bytes, k) {
        return 0;
    }
    nodes_at(image.bytes, offset_at(image.bytes, k))
}

// What each bay owns.
fn tally_of(image: Standing) -> Tally
    ensures { Tallied (owned_of image.entry.bytes.now) result }
{
    let all = names_of(image.bytes);
    let mut names = [0usize; Recipe::MAX_BAYS];
    let mut nodes = [0usize; Recipe::MAX_BAYS];
    for k in 0..all {
        let owner = bay_at(image, k);
        let found = name_nodes(image, k);
        names[owner] += 1;
        nodes[owner] += found;
    }
    Tally { names, nodes }
}

// What a step carries into another name: the argument, by rule 5 into the future, by rule 7 into the cell, which gives its value.
fn carried_of(image: &[u8], step: Step) -> Carried
    requires { Movable image.now step }
    ensures { result ≡ carried image.now step }
{
    let nothing = Carried {
        name: step.thread,
        gained: 0,
        lost: 0,
    };
    let by = step.by;
    match by {
        Move::Beta => nothing,
        Move::ThreadNew => nothing,
        Move::FutureDeref(_, _) => nothing,
        Move::HandleNew => nothing,
        Move::HandleBind(_, future) => Carried {
            name: future,
            gained: nodes_at(image, step.meeting.second),
            lost: 0,
        },
        Move::CellNew => nothing,
        Move::CellExch(cell, from, _) => Carried {
            name: cell,
            gained: nodes_at(image, step.meeting.second),
            lost: nodes_at(image, from),
        },
        Move::CasePair(_) => nothing,
        Move::CaseList(_) => nothing,
    }
}

// What a step brings to bays and takes from them: what comes and goes in all is the thread's bay's, but for what is carried.
fn flow_of(image: Standing, going: Going) -> Flow
    requires { Goes image.bytes.now going.step.thread going }
    ensures { Changed (owned_of image.entry.bytes.now) (left_by image.entry.bytes.now going.step.thread) result × Few result }
{
    let carried = carried_of(image.bytes, going.step);
    Flow {
        own: bay_at(image, going.step.thread),
        new: going.after.names - names_of(image.bytes),
        come: going.after.nodes + carried.lost,
        gone: image.nodes + carried.gained,
        other: bay_at(image, carried.name),
        gained: carried.gained,
        lost: carried.lost,
    }
}

// What of n counts for bay k, where this bay owns it.
fn for_bay(k: usize, owner: usize, n: usize) -> usize
    ensures { result ≡ cond (eqb owner k) n 0 }
{
    if owner == k {
        return n;
    }
    0
}

// How many names bay k has after the step, where it had so many.
fn names_left(names: usize, flow: Flow, k: usize) -> usize
    requires { (names ≤ max_names) × Few flow }
    ensures { result ≡ names + names_to flow k }
{
    names + for_bay(k, flow.own, flow.new)
}

// How many nodes it has. All that comes is added before any is taken away.
fn nodes_left(nodes: usize, flow: Flow, k: usize) -> usize
    requires { ((nodes ≤ max_nodes) × Few flow) × (nodes_from flow k ≤ nodes + nodes_to flow k) }
    ensures { result + nodes_from flow k ≡ nodes + nodes_to flow k }
{
    let come = for_bay(k, flow.own, flow.come);
    let gained = for_bay(k, flow.other, flow.gained);
    let gone = for_bay(k, flow.own, flow.gone);
    let lost = for_bay(k, flow.other, flow.lost);
    nodes + come + gained - (gone + lost)
}

// "4,096 divided by b nodes and 256 divided by b names, rounded down": whether a bay with so many is not above its share.
fn within_share(names: usize, nodes: usize, bays: usize) -> bool
    requires { 0 < bays }
    ensures { result ≡ (leb names (names_share bays) && leb nodes (nodes_share bays)) }
{
    names <= Image::MAX_NAMES / bays && nodes <= Image::MAX_NODES / bays
}

// Whether no bay is above its share after the step of a thread that goes.
pub fn shares_after(image: Standing, going: Going) -> bool
    requires { Goes image.bytes.now going.step.thread going }
    ensures { result ≡ shares_after image.entry.bytes.now going.step.thread }
{
    let bays = bays_of(image);
    let tally = tally_of(image);
    let flow = flow_of(image, going);
    for k in 0..bays {
        let names_then = names_left(tally.names[k], flow, k);
        let nodes_then = nodes_left(tally.nodes[k], flow, k);
        if !within_share(names_then, nodes_then, bays) {
            return false;
        }
    }
    true
}
