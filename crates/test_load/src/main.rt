// Reads a seed, a number of draws and a recipe from standard input and writes the lines of document 02's test load. What they hold, crate draw_text says. A read or
// write that fails is returned.
#![tactic(auto)]

use draw_text::{Lines, put_lines_of_input};
use numbers::{Recipe, TestLoad};
use std::io;
use std::io::Write;

fn main(rt: HostRuntime) -> io::Result<()> {
    // one byte more than the longest input, so that a longer one is seen to be longer
    let mut buffer = [0u8; TestLoad::FRONT_LENGTH + Recipe::MAX_FILE + 1];
    let read = input::read_full(&mut rt.reader(), &mut buffer)?;
    let mut text = [0u8; Lines::MAX_LENGTH];
    let written = put_lines_of_input(&buffer, read, &mut text);
    io::writer(&rt).write_all(&text[..written])
}
