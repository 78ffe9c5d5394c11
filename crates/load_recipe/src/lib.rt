// Loading a recipe: the out buffer's length, then the check, then what the profile asks, and only then the starting image is written.
#![tactic(auto)]

ghost use Rattle.std.specs.Prelude.{◌≡◌, ◌++◌, ◌≤◌, drop, length};
ghost use Rattle.calculus.specs.Limits.{max_image_length};
ghost use Rattle.calculus.specs.Lowest.{first_cause};
ghost use Rattle.calculus.specs.Profile as profiles;
ghost use Rattle.calculus.specs.Profile.{common};
ghost use Rattle.numbers.specs.Refusals.{refusal_number};
ghost use Rattle.check_spec.specs.Verdict.{refusal, verdict_of};
ghost use Rattle.load_spec.specs.Starting.{starting_image};
ghost use Rattle.load_spec.specs.Loading.{is_loaded, loaded_of, not_loaded, out_after_load, profile_causes};

use check_spec::Verdict;
use load_spec::Loaded;
use numbers::{Cause, Image, Recipe};
use recipe_file::RecipeFile;

// A refusal and nothing else. It takes a number, since a check answers its cause by number, as the C interface has it.
pub fn refused(number: u32) -> Loaded
    ensures { result ≡ not_loaded number }
{
    Loaded {
        refusal: number,
        bays: 0,
        types: [0u8; Recipe::MAX_BAYS],
        length: 0,
    }
}

// Writes the starting image of a recipe that a check accepted, whatever the profile, and answers with the check's bays and types.
pub fn put_loaded(recipe: RecipeFile, verdict: Verdict, out: &mut [u8]) -> Loaded
    requires { (refusal recipe.bytes.now ≡ 0) × (verdict ≡ verdict_of recipe.bytes.now) × (max_image_length ≤ length out.old) }
    ensures value { result ≡ is_loaded recipe.entry.bytes.now }
    ensures out_after { out.new ≡ starting_image recipe.entry.bytes.now ++ drop (length (starting_image recipe.entry.bytes.now)) out.old }
{
    let nums = recipe.starting_nums();
    let length = load_image::put_starting(recipe, nums, out);
    let types = verdict.types;
    Loaded {
        refusal: 0,
        bays: verdict.bays,
        types,
        length: length as u64,
    }
}

// What a profile refuses beyond a check's causes.
pub trait Profile {
    ghost profile: { profiles.Profile };

    // The first of these causes that fits an accepted recipe, as an error.
    fn further_refusal(recipe: RecipeFile) -> Result<(), Cause>
        requires { refusal recipe.bytes.now ≡ 0 }
        ensures { refusal_number result ≡ first_cause (profile_causes profile recipe.entry.bytes.now) };
}

// Document 01's loader: no further causes.
pub struct Common {}

impl Profile for Common {
    ghost profile = { common };

    fn further_refusal(_recipe: RecipeFile) -> Result<(), Cause> {
        Ok(())
    }
}

// Document 01: "loading and stepping try 12 first"; the profile's causes come behind a check's; on a refusal the buffer is left as it was.
pub fn load<P: Profile>(recipe: &[u8], out: &mut [u8]) -> Loaded
    ensures value { result ≡ loaded_of P.profile recipe.now (length out.old) }
    ensures out_after { out.new ≡ out_after_load P.profile recipe.now out.old }
{
    if out.len() < Image::MAX_LENGTH {
        return refused(Cause::Buffer as u32);
    }
    let verdict = check_recipe::check(recipe);
    let refusal = verdict.refusal;
    if refusal != 0 {
        return refused(refusal);
    }
    let recipe = RecipeFile::of(recipe);
    if let Err(cause) = P::further_refusal(recipe) {
        return refused(cause as u32);
    }
    put_loaded(recipe, verdict, out)
}
