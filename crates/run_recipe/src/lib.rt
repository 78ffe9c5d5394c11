// The runner: checks and loads a recipe, then turn after turn between two lent buffers.
#![tactic(auto)]

ghost use Rattle.std.specs.Prelude.{◌≡◌, cond, ◌≤◌, length, take};
ghost use Rattle.calculus.specs.Limits.{max_image_length};
ghost use Rattle.image_layout.specs.Slice.{names};
ghost use Rattle.step_look.specs.Looked.{Stands};
ghost use Rattle.run_turn.specs.Turning.{Took};
ghost use Rattle.run_spec.specs.Course.{idle, no_room, take_turns};
ghost use Rattle.run_spec.specs.Ending.{Leaves, ending_by, ending_of, ran};
ghost use Rattle.run_recipe.specs.Running.{Holds, Starts};

use buffer_pair::{Passage, alternate};
use image_check::Standing;
use load_recipe::Common;
use numbers::{Cause, Image};
use run_spec::Ending;
use run_turn::{At, Halt};

// A turn from the buffer that holds the present image into the other one.
struct Turns {}

impl Passage for Turns {
    type At = At;

    type Came = Result<At, Halt>;

    ghost ready = { λ image at out. Stands image at.nodes × ((at.next ≤ names image) × (max_image_length ≤ length out)) };

    ghost left = { λ image at out taken out'. Took image at.next taken out' };

    fn go(image: &[u8], at: At, out: &mut [u8]) -> Result<At, Halt> {
        let image = Standing {
            bytes: image,
            nodes: at.nodes,
        };
        run_turn::take_turn(image, at.next, out)
    }
}

// "It stops before k turns only when there is no such thread, and then says whether one lacked room".
fn nobody_goes(lacked: bool, taken: u16, length: usize) -> Ending
    ensures { result ≡ ending_by (cond lacked no_room idle) taken length }
{
    if lacked {
        return Ending::Room(taken, length);
    }
    Ending::Idle(taken, length)
}

// Up to so many turns, from the image in the first buffer.
fn run_turns(turns: u16, start: At, first: &mut [u8], second: &mut [u8]) -> Ending
    requires { Starts start first.old second.old }
    ensures value { result ≡ ending_of (take_turns turns start.next (take start.length first.old)) }
    ensures holds { Holds (take_turns turns start.next (take start.length first.old)) first.new second.new }
{
    let mut at = start;
    for taken in 0..turns {
        match alternate::<Turns>(taken % 2 == 1, at.length, at, first, second) {
            Ok(on) => at = on,
            Err(Halt::Nobody(lacked)) => return nobody_goes(lacked, taken, at.length),
            Err(Halt::Met(number)) => return Ending::Refused(number as u32),
        }
    }
    Ending::Turns(turns, at.length)
}

// Document 02, T-04: "The runner checks, loads and takes up to k turns .. between two lent buffers." 12 is tried first: of the second buffer here, of the first by the load.
pub fn run(recipe: &[u8], turns: u16, first: &mut [u8], second: &mut [u8]) -> Ending
    ensures value { result ≡ ran recipe.now turns (length first.old) (length second.old) }
    ensures leaves { Leaves recipe.now turns first.old second.old first.new second.new }
{
    if second.len() < Image::MAX_LENGTH {
        return Ending::Refused(Cause::Buffer as u32);
    }
    let loaded = load_recipe::load::<Common>(recipe, first);
    let refusal = loaded.refusal;
    if refusal != 0 {
        return Ending::Refused(refusal);
    }
    let length = loaded.length as usize;
    let nodes = image_check::count_nodes(&first[..length]);
    let start = At {
        next: 0,
        length,
        nodes,
    };
    run_turns(turns, start, first, second)
}
