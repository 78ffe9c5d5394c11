// A look at one thread of an image: whether a rule moves it and there is room, found out before a byte is written.
#![tactic(auto)]

ghost use Rattle.std.specs.Prelude.{◌≡◌};
ghost use Rattle.step_look.specs.Looked.{Looked, is_thread, stays};

use image_check::Standing;
use numbers::{Cause, Image};
use step_decide::Decision;
use step_room::Size;
use step_rules::Step;
use step_spec::Outcome;

// A thread that goes: its step, and how many names and nodes the image after it has.
#[derive(Clone, Copy)]
pub struct Going {
    pub step: Step,
    pub after: Size,
}

// Document 01, refusal 14: "number is no thread".
fn is_thread(image: Standing, thread: usize) -> bool
    ensures { result ≡ is_thread image.entry.bytes.now thread }
{
    if image_layout::names_of(image.bytes) <= thread {
        return false;
    }
    image_layout::kind_at(image.bytes, thread) == Image::THREAD
}

// What is answered where no rule applies.
fn answer_of(decision: Decision) -> Outcome
    ensures { result ≡ stays decision }
{
    match decision {
        Decision::Goes(_) => Outcome::Done,
        Decision::Waits(name) => Outcome::Waiting(name),
        Decision::Refuses(cause) => Outcome::Refused(cause as u8),
    }
}

// A look at a thread: it goes; or it stays, and this is answered.
pub fn look_at(image: Standing, thread: usize) -> Result<Going, Outcome>
    ensures { Looked image.entry.bytes.now thread result }
{
    let bytes = image.bytes;
    if !is_thread(image, thread) {
        return Err(Outcome::Refused(Cause::NoThread as u8));
    }
    let Some(meeting) = term_redex::find_place(bytes, image_layout::offset_at(bytes, thread)) else {
        return Err(Outcome::Done);
    };
    let decision = step_decide::decide(bytes, thread, meeting);
    let Decision::Goes(step) = decision else {
        return Err(answer_of(decision));
    };
    let after = step_room::size_after(bytes, image.nodes, step);
    if !step_room::within_limits(after.names, after.nodes) {
        return Err(Outcome::Refused(Cause::Room as u8));
    }
    Ok(Going { step, after })
}
