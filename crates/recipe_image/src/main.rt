// Reads a recipe from standard input and writes document 01's two lines. What they hold, crate recipe_text says. A read or write that fails is returned.
#![tactic(auto)]

use numbers::Recipe;
use recipe_text::{Text, put_text_of_input};
use std::io;
use std::io::Write;

fn main(rt: HostRuntime) -> io::Result<()> {
    // one byte more than the limit, so that a longer recipe is seen to be longer
    let mut buffer = [0u8; Recipe::MAX_FILE + 1];
    let read = input::read_full(&mut rt.reader(), &mut buffer)?;
    let mut text = [0u8; Text::MAX_LENGTH];
    let written = put_text_of_input(&buffer, read, &mut text);
    io::writer(&rt).write_all(&text[..written])
}
