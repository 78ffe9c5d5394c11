// Document 01, "A step": writes the image after a step by a rule. Each name has its head and its expression by what the step makes of it.
#![tactic(auto)]

ghost use Rattle.std.specs.Prelude.{◌≡◌, cond, ◌+◌, ◌-◌, ◌<◌, ◌≤◌, length};
ghost use Rattle.calculus.specs.Bytes.{two_byte_values};
ghost use Rattle.calculus.specs.Limits.{byte_values, first_head};
ghost use Rattle.calculus.specs.Lists.{tabulate};
ghost use Rattle.buffer.specs.Written.{Wrote};
ghost use Rattle.image_layout.specs.Encoded.{heads, head_offset, expressions};
ghost use Rattle.image_layout.specs.Slice.{names};
ghost use Rattle.image_layout.specs.Heads.{Says};
ghost use Rattle.image_layout.specs.Room.{Room};
ghost use Rattle.step_rules.specs.Positions.{application_length, name_length};
ghost use Rattle.step_rules.specs.Effects.{started_bytes};
ghost use Rattle.step_rules.specs.Moves.{component_after, expression_after, owner_after, names_after, image_after};
ghost use Rattle.step_room.specs.Counting.{Handed};
ghost use Rattle.step_reduct.specs.CanWrite.{CanWrite};
ghost use Rattle.step_write.specs.Changes.{Becomes};

use buffer::{put_byte, put_bytes, put_u16};
use image_layout::{Head, companion_at, expression_at, kind_at, length_at, names_of, owner_at};
use numbers::Image;
use step_reduct::{Writable, put_argument, put_name, put_thread_after};
use step_room::{Size, argument_size};
use step_rules::{Move, Step};
use term::Node;
use term_redex::Meeting;

// What a step makes of a name: it stays, it is the thread that goes or a new thread (rule 2), it is of a kind and holds the argument, it is an open handle for a
// future, or it is of a kind and holds nothing.
#[derive(Clone, Copy)]
pub enum Change {
    Kept,
    Goes,
    Starts,
    Holds(u8),
    Opens(u8),
    Bare(u8),
}

// This change, or another.
fn when(test: bool, change: Change, other: Change) -> Change
    ensures { result ≡ cond test change other }
{
    if test {
        return change;
    }
    other
}

// What a step makes of name k.
fn change_of(writable: Writable, k: usize) -> Change
    requires { k < names_after writable.image.now writable.step }
    ensures { Becomes writable.entry.image.now writable.entry.step k result (component_after writable.entry.image.now writable.entry.step k) }
{
    if k == writable.step.thread {
        return Change::Goes;
    }
    let names = names_of(writable.image);
    let kept = Change::Kept;
    let by = writable.step.by;
    match by {
        Move::Beta => kept,
        Move::ThreadNew => when(k == names, Change::Starts, kept),
        Move::FutureDeref(_, _) => kept,
        Move::HandleNew => {
            let future = names as u8;
            let handle = when(k == names + 1, Change::Opens(future), kept);
            when(k == names, Change::Bare(Image::FUTURE), handle)
        }
        Move::HandleBind(handle, future) => {
            let bound = when(k == future, Change::Holds(Image::THREAD), kept);
            when(k == handle, Change::Bare(Image::USED_HANDLE), bound)
        }
        Move::CellNew => when(k == names, Change::Holds(Image::CELL), kept),
        Move::CellExch(cell, _, _) => when(k == cell, Change::Holds(Image::CELL), kept),
        Move::CasePair(_) => kept,
        Move::CaseList(_) => kept,
    }
}

// Writes the new thread of rule 2: the argument applied to the thread's own name.
fn put_started(out: &mut [u8], at: usize, writable: Writable) -> usize
    requires few { names writable.image.now < byte_values }
    requires room { at + length (started_bytes writable.image.now writable.step.meeting) ≤ length out.old }
    ensures { Wrote out.old at (started_bytes writable.entry.image.now writable.entry.step.meeting) out.new result }
{
    let function = put_byte(out, at, Node::APPLICATION);
    let name = put_argument(out, function, writable);
    put_name(out, name, names_of(writable.image))
}

// How many bytes it has.
fn started_size(meeting: Meeting) -> usize
    requires { (meeting.second ≤ meeting.end) × (meeting.end < two_byte_values) }
    ensures { result ≡ meeting.end - meeting.second + (application_length + name_length) }
{
    argument_size(meeting) + (Step::APPLICATION + Step::NAME)
}

// Writes the expression of name k; futures and handles have none.
fn put_expression_after(out: &mut [u8], at: usize, writable: Writable, k: usize) -> usize
    requires below { k < names_after writable.image.now writable.step }
    requires room { at + length (component_after writable.image.now writable.step k).expression ≤ length out.old }
    ensures { Wrote out.old at (component_after writable.entry.image.now writable.entry.step k).expression out.new result }
{
    let change = change_of(writable, k);
    match change {
        Change::Kept => put_bytes(out, at, expression_at(writable.image, k)),
        Change::Goes => put_thread_after(out, at, writable),
        Change::Starts => put_started(out, at, writable),
        Change::Holds(_) => put_argument(out, at, writable),
        Change::Opens(_) => at,
        Change::Bare(_) => at,
    }
}

// The head of a name with an expression of so many bytes, or with none.
fn holding(kind: u8, companion: u8, size: usize) -> Head
    ensures { (result.kind ≡ kind) × ((result.companion ≡ companion) × (result.size ≡ size)) }
{
    Head {
        kind,
        companion,
        size,
    }
}

// The owner of name k after the step: its own, or, of a new name, that of the thread that goes.
fn owner_after(writable: Writable, k: usize) -> u8
    ensures { result ≡ owner_after writable.entry.image.now writable.entry.step.thread k }
{
    if k < names_of(writable.image) {
        return owner_at(writable.image, k);
    }
    owner_at(writable.image, writable.step.thread)
}

// The head of name k, where the expression of the thread that goes has so many bytes.
fn head_after(writable: Writable, thread: usize, k: usize) -> Head
    requires { (thread ≡ length (expression_after writable.image.now writable.step)) × (k < names_after writable.image.now writable.step) }
    ensures { Says result (component_after writable.entry.image.now writable.entry.step k) }
{
    let owner = owner_after(writable, k);
    let change = change_of(writable, k);
    match change {
        Change::Kept => Head {
            kind: kind_at(writable.image, k),
            companion: companion_at(writable.image, k),
            size: length_at(writable.image, k),
        },
        Change::Goes => holding(Image::THREAD, owner, thread),
        Change::Starts => holding(Image::THREAD, owner, started_size(writable.step.meeting)),
        Change::Holds(kind) => holding(kind, owner, argument_size(writable.step.meeting)),
        Change::Opens(future) => holding(Image::OPEN_HANDLE, future, 0),
        Change::Bare(kind) => holding(kind, owner, 0),
    }
}

// Writes the heads.
fn put_heads(out: &mut [u8], at: usize, writable: Writable, after: Size) -> usize
    requires handed { Handed writable.image.now writable.step after × (at ≡ first_head) }
    requires room { Room (names_after writable.image.now writable.step) (component_after writable.image.now writable.step) out.old }
    ensures { Wrote out.old at (heads (head_offset (names_after writable.entry.image.now writable.entry.step)) (tabulate (names_after writable.entry.image.now writable.entry.step) (component_after writable.entry.image.now writable.entry.step))) out.new result }
{
    image_layout::put_heads(
        out,
        at,
        after.names,
        |k| head_after(writable, after.thread, k),
    )
}

// Writes the expressions of so many names.
fn put_expressions(out: &mut [u8], at: usize, writable: Writable, names: usize) -> usize
    requires handed { (names ≡ names_after writable.image.now writable.step) × (at ≡ head_offset (names_after writable.image.now writable.step)) }
    requires room { Room (names_after writable.image.now writable.step) (component_after writable.image.now writable.step) out.old }
    ensures { Wrote out.old at (expressions (tabulate (names_after writable.entry.image.now writable.entry.step) (component_after writable.entry.image.now writable.entry.step))) out.new result }
{
    image_layout::put_expressions(
        out,
        at,
        names,
        |out, next, k| put_expression_after(out, next, writable, k),
    )
}

// Writes the image after a step. What was counted before is handed on: its names, and the bytes of the expression of the thread that goes.
pub fn put_image_after(image: &[u8], step: Step, after: Size, out: &mut [u8]) -> usize
    requires can_write { CanWrite image.now step × Handed image.now step after }
    requires room { (length (image_after image.now step) ≤ length out.old) × (length (image_after image.now step) < two_byte_values) }
    ensures { Wrote out.old 0 (image_after image.now step) out.new result }
{
    let writable = Writable { image, step };
    let after_names = put_u16(out, 0, after.names);
    let after_heads = put_heads(out, after_names, writable, after);
    put_expressions(out, after_heads, writable, after.names)
}
