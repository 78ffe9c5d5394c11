// Document 01, refusal 15, and document 02, T-05: a step is weighed before a byte is written. Each value that is put in is counted once, then the body that it is
// put in is walked once. Whether there is room is decided from these numbers, and the writer is handed them.
#![tactic(auto)]

ghost use Rattle.std.specs.Prelude.{◌≡◌, ◌*◌, ◌+◌, ◌-◌, ◌<◌, ◌≤◌, length};
ghost use Rattle.calculus.specs.Bytes.{two_byte_values};
ghost use Rattle.calculus.specs.Limits.{max_nodes};
ghost use Rattle.calculus.specs.Image.{nodes, within_limits};
ghost use Rattle.term.specs.Reader.{GoodAt};
ghost use Rattle.term.specs.Expressions.{term_at};
ghost use Rattle.step_rules.specs.declared.Move.TheVariants.{Beta, FutureDeref};
ghost use Rattle.step_rules.specs.Effects.{taken_apart};
ghost use Rattle.step_rules.specs.Moves.{effect};
ghost use Rattle.step_rules.specs.Stepped.{Components};
ghost use Rattle.step_rules.specs.Substitutions.{TermIn};
ghost use Rattle.step_room.specs.Counting.{After, Countable, Counts, Light, Sized, Substitutes, Weighable, Weighs};

use image_layout::{length_at, names_of};
use numbers::Image;
use step_rules::{Move, Step, applied, taken};
use term_redex::Meeting;
use term_subst::{Span, Uses, count_uses};

// The nodes and bytes of a term.
#[derive(Clone, Copy)]
pub struct Weight {
    pub nodes: usize,
    pub bytes: usize,
}

// How many names a move brings, how many nodes come and how many go, and how many bytes come in place of the application or case.
#[derive(Clone, Copy)]
pub struct Count {
    pub new: usize,
    pub gained: usize,
    pub lost: usize,
    pub bytes: usize,
}

// The names and nodes of an image, and the bytes of the expression of one of its threads.
#[derive(Clone, Copy)]
pub struct Size {
    pub names: usize,
    pub nodes: usize,
    pub thread: usize,
}

// How many nodes a variable has.
const VARIABLE_NODES: usize = 1;

// How many nodes are around a body and the values that are put in it: a lambda and its application, or a pair or list front and its case.
const AROUND: usize = 2;

// What HANDLE.NEW brings besides its argument: two applications and two names.
const HANDLED: usize = 2 * (Step::APPLICATION + Step::NAME);

// The nodes of the term at `at`.
pub fn nodes_at(image: &[u8], at: usize) -> usize
    requires { GoodAt image.now at }
    ensures { result ≡ nodes (term_at image.now at) }
{
    term_scan::scan(image, at).unwrap().nodes
}

// What the value in a part of the image weighs.
fn weigh(image: &[u8], value: Span) -> Weight
    requires { TermIn image.now value × (length image.now < two_byte_values) }
    ensures { Weighs (term_at image.now value.from) result × Light result }
{
    Weight {
        nodes: nodes_at(image, value.from),
        bytes: value.to - value.from,
    }
}

// "the outcome has the body's nodes plus, for each place, its value's nodes less one", a variable's; of bytes the same. From numbers alone.
fn with_values(body: usize, places: Uses, inner: usize, outer: usize, variable: usize) -> usize
    requires { Weighable body places inner outer variable }
    ensures { result + (places.inner + places.outer) * variable ≡ body + (places.inner * inner + places.outer * outer) }
{
    body + places.inner * inner + places.outer * outer - (places.inner + places.outer) * variable
}

// These counts.
fn counted(new: usize, gained: usize, lost: usize, bytes: usize) -> Count
    ensures { (result.new ≡ new) × ((result.gained ≡ gained) × ((result.lost ≡ lost) × (result.bytes ≡ bytes))) }
{
    Count {
        new,
        gained,
        lost,
        bytes,
    }
}

// A body with values of these weights in the places of its two innermost variables. The body is walked once.
fn count_substituted(image: &[u8], body: Span, inner: Weight, outer: Weight) -> Count
    requires { TermIn image.now body × ((length image.now < two_byte_values) × (Light inner × Light outer)) }
    ensures { Substitutes (term_at image.now body.from) inner outer result }
{
    let found = count_uses(image, body.from);
    let gained = with_values(found.nodes, found, inner.nodes, outer.nodes, VARIABLE_NODES);
    let lost = found.nodes + inner.nodes + outer.nodes + AROUND;
    let bytes = with_values(
        body.to - body.from,
        found,
        inner.bytes,
        outer.bytes,
        Step::VARIABLE,
    );
    counted(0, gained, lost, bytes)
}

// Rule 1: the argument for the one variable of a lambda's body, nothing for the next.
fn count_applied(image: &[u8], step: Step) -> Count
    requires { Countable image.now step × (step.by ≡ Beta) }
    ensures { Counts (effect image.now step) result }
{
    let with = applied(step.meeting);
    let argument = weigh(image, with.inner);
    let nothing = Weight { nodes: 0, bytes: 0 };
    count_substituted(image, with.body, argument, nothing)
}

// Rules 8 and 9: the components for the two variables of a case's body, the second for the innermost.
fn count_taken(image: &[u8], step: Step, rest: usize) -> Count
    requires { Countable image.now step × Components image.now step.meeting rest }
    ensures { Counts (taken_apart image.now step.meeting rest) result }
{
    let with = taken(step.meeting, rest);
    let second = weigh(image, with.inner);
    let first = weigh(image, with.outer);
    count_substituted(image, with.body, second, first)
}

// How many bytes the argument has.
pub fn argument_size(meeting: Meeting) -> usize
    requires { meeting.second ≤ meeting.end }
    ensures { result ≡ meeting.end - meeting.second }
{
    meeting.end - meeting.second
}

// How many bytes the application or case has.
fn redex_size(meeting: Meeting) -> usize
    requires { meeting.at ≤ meeting.end }
    ensures { result ≡ meeting.end - meeting.at }
{
    meeting.end - meeting.at
}

// Rule 3: a value for a name.
fn count_followed(image: &[u8], step: Step, from: usize, to: usize) -> Count
    requires { Countable image.now step × (step.by ≡ FutureDeref from to) }
    ensures { Counts (effect image.now step) result }
{
    let value = nodes_at(image, from);
    counted(
        0,
        value,
        1,
        redex_size(step.meeting) - Step::NAME + (to - from),
    )
}

// What a step brings and takes away.
fn count_of(image: &[u8], step: Step) -> Count
    requires { Countable image.now step }
    ensures { Counts (effect image.now step) result }
{
    let by = step.by;
    match by {
        Move::Beta => count_applied(image, step),
        Move::ThreadNew => counted(1, 1, 0, Step::NAME),
        Move::FutureDeref(from, to) => count_followed(image, step, from, to),
        Move::HandleNew => counted(2, 2, 0, argument_size(step.meeting) + HANDLED),
        Move::HandleBind(_, _) => counted(0, 0, 1, Step::UNIT),
        Move::CellNew => counted(1, 0, 1, Step::NAME),
        Move::CellExch(_, from, to) => counted(0, 0, 4, to - from),
        Move::CasePair(rest) => count_taken(image, step, rest),
        Move::CaseList(rest) => count_taken(image, step, rest),
    }
}

// What is left when some go, and 0 where there are not so many.
fn without(all: usize, gone: usize) -> usize
    ensures { result ≡ all - gone }
{
    if all < gone {
        return 0;
    }
    all - gone
}

// The image after a step in numbers, from those before it, from what is counted, and from the bytes of the application or case, which go. No byte is looked at.
fn changed(before: Size, count: Count, gone: usize) -> Size
    requires { Sized before count }
    ensures { (result.names ≡ before.names + count.new) × ((result.nodes ≡ before.nodes + count.gained - count.lost) × (result.thread ≡ before.thread + count.bytes - gone)) }
{
    Size {
        names: before.names + count.new,
        nodes: without(before.nodes + count.gained, count.lost),
        thread: without(before.thread + count.bytes, gone),
    }
}

// The image after a step in numbers, where there are so many nodes before it.
pub fn size_after(image: &[u8], nodes: usize, step: Step) -> Size
    requires { Countable image.now step × (nodes ≤ max_nodes) }
    ensures { After image.now nodes step result }
{
    let before = Size {
        names: names_of(image),
        nodes,
        thread: length_at(image, step.thread),
    };
    let count = count_of(image, step);
    changed(before, count, redex_size(step.meeting))
}

// Whether so many names and nodes are within the limits of an image.
pub fn within_limits(names: usize, nodes: usize) -> bool
    ensures { result ≡ within_limits names nodes }
{
    names <= Image::MAX_NAMES && nodes <= Image::MAX_NODES
}
