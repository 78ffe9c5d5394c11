// Document 01, "Loading": writes the starting image of an accepted recipe. Names 0 to b − 1 are the settings, b to 2b − 1 the bays' threads.
#![tactic(auto)]

ghost use Rattle.std.specs.Prelude.{◌≡◌, ◌+◌, ◌*◌, ◌<◌, ◌≤◌, get_or, length};
ghost use Rattle.calculus.specs.Limits.{first_head, max_bays, max_image_length};
ghost use Rattle.calculus.specs.Lists.{tabulate};
ghost use Rattle.recipe_file.specs.File.{bays, offset_of};
ghost use Rattle.recipe_file.specs.Starting.{starting_num};
ghost use Rattle.check_spec.specs.Verdict.{refusal};
ghost use Rattle.buffer.specs.Written.{Wrote};
ghost use Rattle.image_layout.specs.Encoded.{heads, head_offset, expressions};
ghost use Rattle.image_layout.specs.Heads.{Says};
ghost use Rattle.image_layout.specs.Room.{Room};
ghost use Rattle.load_spec.specs.Starting.{starting_image};
ghost use Rattle.load_image.specs.Starting.{first_term, setting, setting_bytes, setting_length, starting_at, starting_names};

use buffer::{put_byte, put_part, put_u16};
use image_layout::Head;
use numbers::{Image, Recipe};
use recipe_file::{RecipeFile, offset_of};
use term::Node;

// The bytes of what a setting holds, a num.
const SETTING_LENGTH: usize = 3;

// Where the first bay's term begins.
fn first_term(recipe: RecipeFile) -> usize
    ensures { result ≡ offset_of recipe.entry.bytes.now (first_term recipe.entry.bytes.now) }
{
    offset_of(recipe.bytes, recipe.edition.terms)
}

// The head of name k, which belongs to its bay.
fn head_of(recipe: RecipeFile, k: usize) -> Head
    requires { k < starting_names recipe.bytes.now }
    ensures { Says result (starting_at recipe.entry.bytes.now k) }
{
    let bays = recipe.bays();
    if k < bays {
        return Head {
            kind: Image::CELL,
            companion: k as u8,
            size: SETTING_LENGTH,
        };
    }
    let bay = k - bays;
    Head {
        kind: Image::THREAD,
        companion: bay as u8,
        size: recipe.term(bay).len(),
    }
}

// Writes the heads of all names.
fn put_heads(out: &mut [u8], at: usize, recipe: RecipeFile) -> usize
    requires { Room (starting_names recipe.bytes.now) (starting_at recipe.bytes.now) out.old × (at ≡ first_head) }
    ensures { Wrote out.old at (heads (head_offset (starting_names recipe.entry.bytes.now)) (tabulate (starting_names recipe.entry.bytes.now) (starting_at recipe.entry.bytes.now))) out.new result }
{
    let bays = recipe.bays();
    let names = bays + bays;
    image_layout::put_heads(out, at, names, |k| head_of(recipe, k))
}

// Writes what a setting holds first: its bay's starting num.
fn put_setting(out: &mut [u8], at: usize, num: u16) -> usize
    requires { at + setting_length ≤ length out.old }
    ensures { Wrote out.old at (setting_bytes num) out.new result }
{
    let next = put_byte(out, at, Node::NUM);
    put_u16(out, next, num as usize)
}

// Writes that for the settings of all bays.
fn put_settings(out: &mut [u8], at: usize, nums: [u16; Recipe::MAX_BAYS], bays: usize) -> usize
    requires { (bays ≤ max_bays) × (at + setting_length * bays ≤ length out.old) }
    ensures { Wrote out.old at (expressions (tabulate bays (λ k. setting (get_or nums k 0) k))) out.new result }
{
    let put = |out: &mut [u8], next: usize, k: usize| put_setting(out, next, nums[k]);
    image_layout::put_expressions(out, at, bays, &put)
}

// Writes the starting image, from the recipe and its starting nums. The bays' terms stand one after the other at the end of the recipe, as they are to stand in the image: one copy.
pub fn put_starting(recipe: RecipeFile, nums: [u16; Recipe::MAX_BAYS], out: &mut [u8]) -> usize
    requires { (refusal recipe.bytes.now ≡ 0) × (max_image_length ≤ length out.old) × (nums ≡ tabulate max_bays (starting_num recipe.bytes.now)) }
    ensures { Wrote out.old 0 (starting_image recipe.entry.bytes.now) out.new result × (result ≤ max_image_length) }
{
    let bays = recipe.bays();
    let after_names = put_u16(out, 0, bays + bays);
    let after_heads = put_heads(out, after_names, recipe);
    let after_settings = put_settings(out, after_heads, nums, bays);
    put_part(
        out,
        after_settings,
        recipe.bytes,
        first_term(recipe),
        recipe.bytes.len(),
    )
}
