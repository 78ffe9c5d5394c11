// A step of one thread: 12 and 13 first; then a look at the thread, and where it goes, whether the profile has room; only then the new image is written.
#![tactic(auto)]

ghost use Rattle.std.specs.Prelude.{◌≡◌, ◌≤◌, length};
ghost use Rattle.calculus.specs.Limits.{max_image_length};
ghost use Rattle.calculus.specs.Profile as profiles;
ghost use Rattle.calculus.specs.Profile.{common, room_test};
ghost use Rattle.calculus.specs.Reply.{reply_to};
ghost use Rattle.image.specs.Configuration.{owned_of};
ghost use Rattle.step_look.specs.Leaving.{left_by};
ghost use Rattle.step_look.specs.Looked.{Goes};
ghost use Rattle.step_spec.specs.Stepping.{outcome_of_reply, outcome_of, out_after_step, out_after_reply};
ghost use Rattle.step_thread.specs.Counted.{nodes_after};

use image_check::Standing;
use numbers::{Cause, Image};
use step_look::Going;
use step_spec::Outcome;

// Which limit decides 15.
pub trait Profile {
    ghost profile: { profiles.Profile };

    // Whether there is room for what a thread leaves that goes. A look has asked document 01's limits.
    fn has_room(image: Standing, going: Going) -> bool
        requires { Goes image.bytes.now going.step.thread going }
        ensures { result ≡ room_test profile (owned_of image.entry.bytes.now) (left_by image.entry.bytes.now going.step.thread) };
}

// Document 01's stepper: the look has asked all.
pub struct Common {}

impl Profile for Common {
    ghost profile = { common };

    fn has_room(_image: Standing, _going: Going) -> bool {
        true
    }
}

// What came of a step, and how many nodes the image has that is left.
#[derive(Clone, Copy)]
pub struct Answer {
    pub outcome: Outcome,
    pub nodes: usize,
}

// A step on an image that keeps every rule and limit, into a buffer that is long enough. Whoever goes on from the image that is left need not count its nodes
// again. The profile is asked last: where document 01's stepper stays, so does each.
pub fn step_checked<P: Profile>(image: Standing, thread: usize, out: &mut [u8]) -> Answer
    requires { max_image_length ≤ length out.old }
    ensures outcome_value { result.outcome ≡ outcome_of_reply (reply_to P.profile (owned_of image.entry.bytes.now) thread) }
    ensures out_after { out.new ≡ out_after_reply (reply_to P.profile (owned_of image.entry.bytes.now) thread) out.old }
    ensures nodes_value { result.nodes ≡ nodes_after (reply_to P.profile (owned_of image.entry.bytes.now) thread) image.entry.nodes }
{
    match step_look::look_at(image, thread) {
        Ok(going) => {
            if !P::has_room(image, going) {
                return Answer {
                    outcome: Outcome::Refused(Cause::Room as u8),
                    nodes: image.nodes,
                };
            }
            let rule = step_rules::rule_of(going.step.by);
            let length = step_write::put_image_after(image.bytes, going.step, going.after, out);
            let outcome = Outcome::Rule(rule, length);
            Answer {
                outcome,
                nodes: going.after.nodes,
            }
        }
        Err(outcome) => Answer {
            outcome,
            nodes: image.nodes,
        },
    }
}

// Document 01, "A step", for every slice, thread number and out buffer, under a profile (T-09).
pub fn step<P: Profile>(image: &[u8], thread: usize, out: &mut [u8]) -> Outcome
    ensures value { result ≡ outcome_of P.profile image.now thread out.old }
    ensures out_after { out.new ≡ out_after_step P.profile image.now thread out.old }
{
    if out.len() < Image::MAX_LENGTH {
        return Outcome::Refused(Cause::Buffer as u8);
    }
    let Some(image) = image_check::check_image(image) else {
        return Outcome::Refused(Cause::Image as u8);
    };
    let answer = step_checked::<P>(image, thread, out);
    answer.outcome
}
