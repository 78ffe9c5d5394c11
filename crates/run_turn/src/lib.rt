// A turn of the runner: a look at one name after the other, going round, until a thread goes; only its step is written.
#![tactic(auto)]

ghost use Rattle.std.specs.Prelude.{◌≡◌, ◌-◌, ◌<◌, ◌≤◌, length};
ghost use Rattle.calculus.specs.Limits.{max_image_length};
ghost use Rattle.image_layout.specs.Slice.{names};
ghost use Rattle.run_spec.specs.Course.{look_along, search_from, upward};
ghost use Rattle.run_turn.specs.Turning.{Finds, Seen, Took, sight_of, sight_of_refusal};

use image_check::Standing;
use numbers::Cause;
use step_look::Going;
use step_spec::Outcome;

// What is seen of a name: a thread that goes; one that lacks room; nothing to do; a number to be passed on, as `Outcome::Refused` has it.
#[derive(Clone, Copy)]
pub enum Sight {
    Goes(Going),
    LacksRoom,
    Rests,
    PassesOn(u8),
}

// Why no thread is found that goes: there is none, and whether one lacked room; a number to be passed on, as `Outcome::Refused` has it.
#[derive(Clone, Copy)]
pub enum Halt {
    Nobody(bool),
    Met(u8),
}

// Where a run is: the name to be looked at first, the length of the present image, and its nodes.
#[derive(Clone, Copy)]
pub struct At {
    pub next: usize,
    pub length: usize,
    pub nodes: usize,
}

// A refused step: "lack of room only passes a thread over"; no thread is passed over; another number is passed on.
fn sight_of_refusal(number: u8) -> Sight
    ensures { result ≡ sight_of_refusal number }
{
    if number == Cause::Room as u8 {
        return Sight::LacksRoom;
    }
    if number == Cause::NoThread as u8 {
        return Sight::Rests;
    }
    Sight::PassesOn(number)
}

// A thread that stays.
fn sight_of(outcome: Outcome) -> Sight
    ensures { result ≡ sight_of outcome }
{
    match outcome {
        Outcome::Rule(_, _) => Sight::Rests,
        Outcome::Done => Sight::Rests,
        Outcome::Waiting(_) => Sight::Rests,
        Outcome::Refused(number) => sight_of_refusal(number),
    }
}

// What is seen of name x.
fn see(image: Standing, x: usize) -> Sight
    ensures { Seen image.entry.bytes.now x result }
{
    match step_look::look_at(image, x) {
        Ok(going) => Sight::Goes(going),
        Err(outcome) => sight_of(outcome),
    }
}

// Looks along the names from `from` up to the one before `to`; `before` says whether one before them lacked room.
fn look_along(image: Standing, from: usize, to: usize, before: bool) -> Result<Going, Halt>
    requires { from ≤ to }
    ensures { Finds image.entry.bytes.now (look_along image.entry.bytes.now before (upward from (to - from))) result }
{
    let mut lacked = before;
    for x in from..to {
        match see(image, x) {
            Sight::Goes(going) => return Ok(going),
            Sight::LacksRoom => lacked = true,
            Sight::Rests => {}
            Sight::PassesOn(number) => return Err(Halt::Met(number)),
        }
    }
    Err(Halt::Nobody(lacked))
}

// "going round by number": from `next` up to the last name, then from 0 up to the one before `next`.
fn go_round(image: Standing, next: usize) -> Result<Going, Halt>
    requires { next ≤ names image.bytes.now }
    ensures { Finds image.entry.bytes.now (search_from image.entry.bytes.now next) result }
{
    let names = image_layout::names_of(image.bytes);
    match look_along(image, next, names, false) {
        Ok(going) => Ok(going),
        Err(Halt::Nobody(lacked)) => look_along(image, 0, next, lacked),
        Err(Halt::Met(number)) => Err(Halt::Met(number)),
    }
}

// A turn, in which this name is looked at first: only the thread that goes is written. It comes to where the run is then.
pub fn take_turn(image: Standing, next: usize, out: &mut [u8]) -> Result<At, Halt>
    requires { (next ≤ names image.bytes.now) × (max_image_length ≤ length out.old) }
    ensures { Took image.entry.bytes.now next result out.new }
{
    let going = go_round(image, next)?;
    let length = step_write::put_image_after(image.bytes, going.step, going.after, out);
    Ok(At {
        next: going.step.thread + 1,
        length,
        nodes: going.after.nodes,
    })
}
