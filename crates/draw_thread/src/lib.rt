// Document 02, T-06: a draw. The image is known to stand, and its nodes are counted once, at the start.
#![tactic(auto)]

ghost use Rattle.std.specs.Prelude.{◌≡◌, true, ◌<◌, ◌≤◌, get_or, length};
ghost use Rattle.calculus.specs.Limits.{max_image_length};
ghost use Rattle.image_layout.specs.Layout.{heads_stand};
ghost use Rattle.image_layout.specs.Readable.{HasHead};
ghost use Rattle.draw_spec.specs.State.{drawn};
ghost use Rattle.draw_spec.specs.Draws.{has_thread_kind, picked, threads};
ghost use Rattle.draw_spec.proofs.Theory.Alive.{Alive};
ghost use Rattle.draw_thread.specs.Drawing.{Drew, Present};

use buffer_pair::Passage;
use image_check::Standing;
use image_layout::kind_at;
use numbers::Image;
use step_spec::Outcome;
use step_thread::Common;

// A draw: the thread that was picked, what came of its step, and the nodes of the image that is left.
#[derive(Clone, Copy)]
pub struct Drawn {
    pub thread: usize,
    pub outcome: Outcome,
    pub nodes: usize,
}

// "a draw replaces it by itself xor its left shift by 13, then xor its right shift by 17, then xor its left shift by 5, bits beyond 32 dropped".
pub fn next_state(state: u32) -> u32
    ensures { result ≡ drawn state }
{
    let first = state ^ (state << 13);
    let second = first ^ (first >> 17);
    second ^ (second << 5)
}

// Whether name x is a thread, done or not.
fn has_thread_kind(image: &[u8], x: usize) -> bool
    requires { HasHead image.now x }
    ensures { result ≡ has_thread_kind image.now x }
{
    kind_at(image, x) == Image::THREAD
}

// "the present number of threads".
fn count_threads(image: &[u8]) -> usize
    requires { heads_stand image.now ≡ true }
    ensures { result ≡ length (threads image.now) }
{
    let mut count = 0;
    for x in 0..image_layout::names_of(image) {
        if has_thread_kind(image, x) {
            count += 1;
        }
    }
    count
}

// The thread with this index, "counted in ascending number from 0".
fn thread_at(image: &[u8], index: usize) -> usize
    requires { (heads_stand image.now ≡ true) × (index < length (threads image.now)) }
    ensures { result ≡ get_or (threads image.now) index 0 }
{
    let mut passed = 0;
    for x in 0..image_layout::names_of(image) {
        if has_thread_kind(image, x) {
            if passed == index {
                return x;
            }
            passed += 1;
        }
    }
    // Not reached: there are more threads than the index.
    0
}

// "Each draw modulo the present number of threads picks a thread".
fn pick(image: &[u8], state: u32) -> usize
    requires { (heads_stand image.now ≡ true) × (0 < length (threads image.now)) }
    ensures { result ≡ picked image.now state }
{
    let count = count_threads(image);
    thread_at(image, state as usize % count)
}

// "picks a thread .., and that thread is stepped".
fn draw(image: Standing, state: u32, out: &mut [u8]) -> Drawn
    requires { Alive image.bytes.now × (max_image_length ≤ length out.old) }
    ensures { Drew image.entry.bytes.now state out.old result out.new }
{
    let thread = pick(image.bytes, state);
    let answer = step_thread::step_checked::<Common>(image, thread, out);
    Drawn {
        thread,
        outcome: answer.outcome,
        nodes: answer.nodes,
    }
}

// Where a draw goes from: the nodes of the present image, and the state that picks.
#[derive(Clone, Copy)]
pub struct At {
    pub nodes: usize,
    pub state: u32,
}

// A draw from the buffer that holds the present image into the other one.
pub struct Draws {}

impl Passage for Draws {
    type At = At;

    type Came = Drawn;

    ghost ready = { λ image at out. Present image at.nodes × (max_image_length ≤ length out) };

    ghost left = { λ image at out drawn out'. Drew image at.state out drawn out' };

    fn go(image: &[u8], at: At, out: &mut [u8]) -> Drawn {
        let image = Standing {
            bytes: image,
            nodes: at.nodes,
        };
        draw(image, at.state, out)
    }
}
