// Document 01, "A step": the expression of the thread that goes, after a step by a rule. What stands in place of the application or case is written by rule; the
// rest of the expression is copied.
#![tactic(auto)]

ghost use Rattle.std.proofs.Props.{props};
ghost use Rattle.std.specs.Prelude.{◌≡◌, ◌+◌, ◌<◌, ◌≤◌, length};
ghost use Rattle.calculus.specs.Limits.{byte_values};
ghost use Rattle.buffer.specs.Written.{Wrote};
ghost use Rattle.step_rules.specs.declared.Move.TheVariants.{FutureDeref, HandleNew};
ghost use Rattle.step_rules.specs.Effects.{argument_bytes, name_bytes};
ghost use Rattle.step_rules.specs.Moves.{effect, expression_after};
ghost use Rattle.step_rules.specs.Positions.{name_length};
ghost use Rattle.step_rules.specs.Substitutions.{substituted, Whole};
ghost use Rattle.step_rules.proofs.Theory.Once.{movable_prop};
ghost use Rattle.step_reduct.specs.CanWrite.{CanWrite};

use buffer::{put_byte, put_part};
use image_layout::{length_at, names_of, offset_at};
use step_rules::{Move, Step, Substitution, applied, taken};
use term::Node;
use term_subst::put_substituted;

// An image, and a step by a rule from it: what comes of it can be written.
#[derive(Clone, Copy)]
pub struct Writable<'a> {
    pub image: &'a [u8],
    pub step: Step,
    pub ghost can_write: { CanWrite image.now step } by { Prim.hlevel (movable_prop, props) },
}

// Writes a name.
pub fn put_name(out: &mut [u8], at: usize, k: usize) -> usize
    requires { (k < byte_values) × (at + name_length ≤ length out.old) }
    ensures { Wrote out.old at (name_bytes k) out.new result }
{
    let next = put_byte(out, at, Node::NAME);
    put_byte(out, next, k as u8)
}

// Writes the value that the function is applied to, or the body of a case.
pub fn put_argument(out: &mut [u8], at: usize, writable: Writable) -> usize
    requires { at + length (argument_bytes writable.image.now writable.step.meeting) ≤ length out.old }
    ensures { Wrote out.old at (argument_bytes writable.entry.image.now writable.entry.step.meeting) out.new result }
{
    put_part(
        out,
        at,
        writable.image,
        writable.step.meeting.second,
        writable.step.meeting.end,
    )
}

// Rule 3, FUTURE.DEREF: the value in place of the name, which stands right before the argument, or the body of a case.
fn put_dereferenced(out: &mut [u8], at: usize, writable: Writable, from: usize, to: usize) -> usize
    requires { (writable.step.by ≡ FutureDeref from to) × (at + length (effect writable.image.now writable.step).redex ≤ length out.old) }
    ensures { Wrote out.old at (effect writable.entry.image.now writable.entry.step).redex out.new result }
{
    let name = writable.step.meeting.second - Step::NAME;
    let function = put_part(out, at, writable.image, writable.step.meeting.at, name);
    let value = put_part(out, function, writable.image, from, to);
    put_argument(out, value, writable)
}

// Rule 4, HANDLE.NEW: the argument applied to the new future and then to the new handle.
fn put_handler(out: &mut [u8], at: usize, writable: Writable) -> usize
    requires { (writable.step.by ≡ HandleNew) × (at + length (effect writable.image.now writable.step).redex ≤ length out.old) }
    ensures { Wrote out.old at (effect writable.entry.image.now writable.entry.step).redex out.new result }
{
    let names = names_of(writable.image);
    let outer = put_byte(out, at, Node::APPLICATION);
    let inner = put_byte(out, outer, Node::APPLICATION);
    let function = put_argument(out, inner, writable);
    let future = put_name(out, function, names);
    put_name(out, future, names + 1)
}

// Writes a body with the values in it.
fn put_body(out: &mut [u8], at: usize, image: &[u8], with: Substitution) -> usize
    requires { Whole image.now with × (at + length (substituted image.now with) ≤ length out.old) }
    ensures { Wrote out.old at (substituted image.now with) out.new result }
{
    put_substituted(out, at, image, with.body.from, with.inner, with.outer)
}

// Writes what stands in place of the application or case.
fn put_redex_after(out: &mut [u8], at: usize, writable: Writable) -> usize
    requires { at + length (effect writable.image.now writable.step).redex ≤ length out.old }
    ensures { Wrote out.old at (effect writable.entry.image.now writable.entry.step).redex out.new result }
{
    let by = writable.step.by;
    match by {
        Move::Beta => put_body(out, at, writable.image, applied(writable.step.meeting)),
        Move::ThreadNew => put_name(out, at, names_of(writable.image)),
        Move::FutureDeref(from, to) => put_dereferenced(out, at, writable, from, to),
        Move::HandleNew => put_handler(out, at, writable),
        Move::HandleBind(_, _) => put_byte(out, at, Node::UNIT),
        Move::CellNew => put_name(out, at, names_of(writable.image)),
        Move::CellExch(_, from, to) => put_part(out, at, writable.image, from, to),
        Move::CasePair(rest) => put_body(
            out,
            at,
            writable.image,
            taken(writable.step.meeting, rest),
        ),
        Move::CaseList(rest) => put_body(
            out,
            at,
            writable.image,
            taken(writable.step.meeting, rest),
        ),
    }
}

// Writes the expression of the thread that goes.
pub fn put_thread_after(out: &mut [u8], at: usize, writable: Writable) -> usize
    requires { at + length (expression_after writable.image.now writable.step) ≤ length out.old }
    ensures { Wrote out.old at (expression_after writable.entry.image.now writable.entry.step) out.new result }
{
    let begin = offset_at(writable.image, writable.step.thread);
    let end = begin + length_at(writable.image, writable.step.thread);
    let redex = put_part(out, at, writable.image, begin, writable.step.meeting.at);
    let rest = put_redex_after(out, redex, writable);
    put_part(out, rest, writable.image, writable.step.meeting.end, end)
}
