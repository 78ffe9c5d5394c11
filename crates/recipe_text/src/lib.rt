// Document 01, "The supplier's host": the two lines that the program writes, put into a lent buffer.
#![tactic(auto)]

ghost use Rattle.std.specs.Prelude.{◌+◌, ◌*◌, ◌<◌, ◌≤◌, length};
ghost use Rattle.calculus.specs.Limits.{max_file_length};
ghost use Rattle.buffer.specs.Written.{Wrote};
ghost use Rattle.text.specs.Put.{Puts, PutsInput};
ghost use Rattle.recipe_text.specs.Text.{hexadecimal, hexadecimal_byte, image_line, max_text_length, text_of};

use buffer::{put_byte, put_bytes};
use load_recipe::Common;
use numbers::Image;
use text::{digit_of, put_verdict_line};

// The two lines: the length of the first if there is a second, and the most of both.
pub struct Text {}

impl Text {
    const VERDICT_LINE: usize = 10;

    const IMAGE_LINE: usize = 7 + 2 * Image::MAX_LENGTH;

    pub const MAX_LENGTH: usize = Text::VERDICT_LINE + Text::IMAGE_LINE;
}

// Writes a byte as two digits.
fn put_hexadecimal_byte(text: &mut [u8], at: usize, byte: u8) -> usize
    requires { at + 2 ≤ length text.old }
    ensures { Wrote text.old at (hexadecimal_byte byte) text.new result }
{
    let next = put_byte(text, at, digit_of(byte / 16));
    put_byte(text, next, digit_of(byte % 16))
}

// Writes bytes as two digits each.
fn put_hexadecimal(text: &mut [u8], at: usize, bytes: &[u8]) -> usize
    requires { at + 2 * length bytes.now ≤ length text.old }
    ensures { Wrote text.old at (hexadecimal bytes.now) text.new result }
{
    let mut next = at;
    for byte in bytes {
        next = put_hexadecimal_byte(text, next, *byte);
    }
    next
}

// The line with the word image.
fn put_image_line(text: &mut [u8], at: usize, image: &[u8]) -> usize
    requires { at + 7 + 2 * length image.now ≤ length text.old }
    ensures { Wrote text.old at (image_line image.now) text.new result }
{
    let after_word = put_bytes(text, at, b"image ");
    let after_image = put_hexadecimal(text, after_word, image);
    put_bytes(text, after_image, b"\n")
}

// The text of a recipe: how many bytes were put at the front of the buffer. A buffer that is too short for the longest text is left as it was.
pub fn put_text(recipe: &[u8], text: &mut [u8]) -> usize
    ensures { Puts max_text_length (text_of recipe.now) text.old result text.new }
{
    if text.len() < Text::MAX_LENGTH {
        return 0;
    }
    let mut out = [0u8; Image::MAX_LENGTH];
    let loaded = load_recipe::load::<Common>(recipe, &mut out);
    let after_verdict = put_verdict_line(text, loaded.refusal as u8);
    if loaded.refusal != 0 {
        return after_verdict;
    }
    let length = loaded.length as usize;
    put_image_line(text, after_verdict, &out[..length])
}

// The same for an input of which so many bytes were read into a buffer. One that holds more than the longest file shows that a longer input is too long: nothing is
// lost with the rest.
pub fn put_text_of_input(buffer: &[u8], read: usize, text: &mut [u8]) -> usize
    requires { (max_file_length < length buffer.now) × (read ≤ length buffer.now) }
    ensures puts_input { PutsInput max_text_length text_of buffer.now read text.old result text.new }
    ensures upper_bound { result ≤ length text.new }
{
    put_text(&buffer[..read], text)
}
