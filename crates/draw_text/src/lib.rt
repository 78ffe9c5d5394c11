// Document 02, T-06: the lines of a test load, put into a lent buffer.
#![tactic(auto)]

ghost use Rattle.std.specs.Prelude.{◌≡◌, ◌+◌, ◌*◌, ◌<◌, ◌≤◌, get_or, length};
ghost use Rattle.calculus.specs.Bytes.{two_byte_values, word};
ghost use Rattle.calculus.specs.Limits.{front_length, max_file_length, max_names};
ghost use Rattle.buffer.specs.Written.{Wrote};
ghost use Rattle.text.specs.Put.{Puts, PutsInput};
ghost use Rattle.step_spec.specs.Waiting.{NameSmall};
ghost use Rattle.draw_spec.specs.Draws.{draws};
ghost use Rattle.draw_spec.specs.Lines.{line, lines, max_line_length, max_text_length, number_in, outcome_text, recipe_in, seed_in, text_of};
ghost use Rattle.draw_spec.specs.Lines.{max_outcome_length};
ghost use Rattle.draw_thread.specs.Drawing.{Ready};
ghost use Rattle.draw_text.specs.Lines.{Onward, Starts, present, refusal_of};

use buffer::put_bytes;
use buffer_pair::alternate;
use draw_thread::Draws;
use load_recipe::Common;
use numbers::{Byte, Cause, Image, TestLoad};
use step_spec::Outcome;
use text::{put_decimal, put_verdict_line};

// The lines: the most bytes of one, and of all.
pub struct Lines {}

impl Lines {
    const LONGEST: usize = 16;

    pub const MAX_LENGTH: usize = Lines::LONGEST * TestLoad::MAX_DRAWS;
}

// Where the draws are: the state; the length of the present image, its nodes and whether the second buffer holds it; where the next line goes.
#[derive(Clone, Copy)]
pub struct At {
    pub state: u32,
    pub length: usize,
    pub nodes: usize,
    pub odd: bool,
    pub next: usize,
}

// Writes a space, the word of an outcome, a space and its number.
fn put_outcome(text: &mut [u8], at: usize, outcome: Outcome) -> usize
    requires { NameSmall outcome × (at + max_outcome_length ≤ length text.old) }
    ensures { Wrote text.old at (outcome_text outcome) text.new result }
{
    match outcome {
        Outcome::Rule(rule, _) => {
            let next = put_bytes(text, at, b" step ");
            put_decimal(text, next, rule)
        }
        Outcome::Done => put_bytes(text, at, b" done 0"),
        Outcome::Waiting(name) => {
            let next = put_bytes(text, at, b" waiting ");
            put_decimal(text, next, name as u8)
        }
        Outcome::Refused(number) => {
            let next = put_bytes(text, at, b" refused ");
            put_decimal(text, next, number)
        }
    }
}

// Writes the line of a draw.
fn put_line(text: &mut [u8], at: usize, thread: usize, outcome: Outcome) -> usize
    requires { NameSmall outcome × ((thread < max_names) × (at + max_line_length ≤ length text.old)) }
    ensures { Wrote text.old at (line thread outcome) text.new result }
{
    let after_name = put_decimal(text, at, thread as u8);
    let after_outcome = put_outcome(text, after_name, outcome);
    put_bytes(text, after_outcome, b"\n")
}

// A draw and its line: "A refused or idle draw keeps the image".
fn put_draw(at: At, first: &mut [u8], second: &mut [u8], text: &mut [u8]) -> At
    requires { Ready at.odd at.length at.nodes first.old second.old × (at.next + max_line_length ≤ length text.old) }
    ensures { Onward at first.old second.old text.old result first.new second.new text.new }
{
    let state = draw_thread::next_state(at.state);
    let odd = at.odd;
    let from = draw_thread::At {
        nodes: at.nodes,
        state,
    };
    let drawn = alternate::<Draws>(odd, at.length, from, first, second);
    let thread = drawn.thread;
    let outcome = drawn.outcome;
    let next = put_line(text, at.next, thread, outcome);
    let Outcome::Rule(_, length) = outcome else {
        return At {
            state,
            length: at.length,
            nodes: drawn.nodes,
            odd,
            next,
        };
    };
    At {
        state,
        length,
        nodes: drawn.nodes,
        odd: !odd,
        next,
    }
}

// So many draws: "one line for each draw and no other".
fn put_draws(count: usize, start: At, first: &mut [u8], second: &mut [u8], text: &mut [u8]) -> usize
    requires { Starts start first.old second.old × (max_line_length * count ≤ length text.old) }
    ensures { Wrote text.old 0 (lines (draws count start.state (present start first.old second.old))) text.new result }
{
    let mut at = start;
    for _ in 0..count {
        at = put_draw(at, first, second, text);
    }
    at.next
}

// A byte of the input: "absent bytes of these six count as 0".
fn front_byte(input: &[u8], at: usize) -> u8
    ensures { result ≡ get_or input.now at 0 }
{
    if at < input.len() {
        return input[at];
    }
    0
}

// Two bytes of the input, "little-endian".
fn front_word(input: &[u8], at: usize) -> usize
    requires { at < front_length }
    ensures { (result ≡ word input.now at) × (result < two_byte_values) }
{
    (front_byte(input, at) as usize) + Byte::VALUES * (front_byte(input, at + 1) as usize)
}

// "the seed in four bytes".
fn seed_of(input: &[u8]) -> u32
    ensures { result ≡ seed_in input.now }
{
    let low = front_word(input, 0);
    let high = front_word(input, 2);
    (low + Byte::VALUES * Byte::VALUES * high) as u32
}

// "the number of draws in two": "a number above 10,000" counts "as 10,000".
fn number_of(input: &[u8]) -> usize
    ensures { result ≡ number_in input.now }
{
    let number = front_word(input, TestLoad::SEED_LENGTH);
    if TestLoad::MAX_DRAWS < number {
        return TestLoad::MAX_DRAWS;
    }
    number
}

// "then the recipe".
fn recipe_of(input: &[u8]) -> &[u8]
    ensures { result.now ≡ recipe_in input.now }
{
    if input.len() < TestLoad::FRONT_LENGTH {
        return &input[input.len()..];
    }
    &input[TestLoad::FRONT_LENGTH..]
}

// "It refuses a seed of zero with 18, tried after the recipe is accepted"; 0 where neither is refused.
// Numbers, and no Result: a load answers its cause by number, as the C interface has it.
fn refusal_of(recipe: u32, seed: u32) -> u32
    ensures { result ≡ refusal_of recipe seed }
{
    if recipe != 0 {
        return recipe;
    }
    if seed == 0 {
        return Cause::Seed as u32;
    }
    0
}

// The text of an input: how many bytes were put at the front of the buffer. A buffer that is too short for the longest text is left as it was.
pub fn put_lines(input: &[u8], text: &mut [u8]) -> usize
    ensures { Puts max_text_length (text_of input.now) text.old result text.new }
{
    if text.len() < Lines::MAX_LENGTH {
        return 0;
    }
    let seed = seed_of(input);
    let mut first = [0u8; Image::MAX_LENGTH];
    let loaded = load_recipe::load::<Common>(recipe_of(input), &mut first);
    let refusal = refusal_of(loaded.refusal, seed);
    if refusal != 0 {
        return put_verdict_line(text, refusal as u8);
    }
    let length = loaded.length as usize;
    let nodes = image_check::count_nodes(&first[..length]);
    let start = At {
        state: seed,
        length,
        nodes,
        odd: false,
        next: 0,
    };
    let mut second = [0u8; Image::MAX_LENGTH];
    put_draws(number_of(input), start, &mut first, &mut second, text)
}

// The same for an input of which so many bytes were read into a buffer. One that holds more than the longest input shows that a longer one is too long: nothing is
// lost with the rest.
pub fn put_lines_of_input(buffer: &[u8], read: usize, text: &mut [u8]) -> usize
    requires { (front_length + max_file_length < length buffer.now) × (read ≤ length buffer.now) }
    ensures puts_input { PutsInput max_text_length text_of buffer.now read text.old result text.new }
    ensures upper_bound { result ≤ length text.new }
{
    put_lines(&buffer[..read], text)
}
