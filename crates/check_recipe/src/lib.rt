// Checking a recipe file: each cause over the whole file before the next, and the lowest number is answered.
#![tactic(auto)]

ghost use Rattle.std.specs.Prelude.{◌≡◌, IfOk};
ghost use Rattle.calculus.specs.Table.{TableRule};
ghost use Rattle.numbers.specs.Refusals.{number_of, refusal_number};
ghost use Rattle.recipe_file.specs.File.{bays};
ghost use Rattle.recipe_table.specs.Entries.{type_table};
ghost use Rattle.check_spec.specs.Verdict.{bay_type_numbers, refusal, refused, verdict_of};
ghost use Rattle.check_recipe.specs.Refusals.{parts_refusal, terms_refusal};

use check_spec::Verdict;
use numbers::{Cause, Recipe};
use recipe_file::RecipeFile;

// What an accepted recipe answers: its bays, and the type number of each.
#[derive(Clone, Copy)]
struct Accepted {
    bays: u32,
    types: [u8; Recipe::MAX_BAYS],
}

// A refusal has its number and nothing else.
fn refused(cause: Cause) -> Verdict
    ensures { result ≡ refused (number_of cause) }
{
    Verdict {
        refusal: cause as u32,
        bays: 0,
        types: [0u8; Recipe::MAX_BAYS],
    }
}

// Causes 5 and 6: the lower one that fits, as an error.
fn terms_refusal(recipe: RecipeFile) -> Result<(), Cause>
    requires { TableRule (type_table recipe.bytes.now) }
    ensures { refusal_number result ≡ terms_refusal recipe.entry.bytes.now }
{
    let Some(nodes) = check_bays::count_nodes(recipe) else {
        return Err(Cause::NoTerm);
    };
    if Recipe::MAX_NODES < nodes {
        return Err(Cause::TermSize);
    }
    if !check_bays::all_shallow(recipe) {
        return Err(Cause::TermSize);
    }
    Ok(())
}

// Causes 5 to 8: the lowest that fits, as an error. One pass decides whether one fits; only then is it sought.
fn parts_refusal(recipe: RecipeFile) -> Result<(), Cause>
    requires { TableRule (type_table recipe.bytes.now) }
    ensures { refusal_number result ≡ parts_refusal recipe.entry.bytes.now }
{
    if check_bays::each_stands(recipe) {
        return Ok(());
    }
    terms_refusal(recipe)?;
    if !check_bays::all_scoped(recipe) {
        return Err(Cause::Scope);
    }
    Err(Cause::Annotation)
}

// Causes 1 to 11, and 19: the lowest that fits, as an error; else what is answered of an accepted recipe.
#[tactic(auto, using(crate::proofs::Verdicts::stages))]
fn accept(recipe: &[u8]) -> Result<Accepted, Cause>
    ensures refusal { refusal_number result ≡ refusal recipe.now }
    ensures bays { IfOk result (λ accepted. accepted.bays ≡ bays recipe.now) }
    ensures types { IfOk result (λ accepted. accepted.types ≡ bay_type_numbers recipe.now) }
{
    let recipe = recipe_table::read(recipe)?;
    parts_refusal(recipe)?;
    let types = check_bays::type_numbers(recipe)?;
    if recipe.starting_breaks() {
        return Err(Cause::Starting);
    }
    Ok(Accepted {
        bays: recipe.bays() as u32,
        types: types,
    })
}

// The verdict on a recipe file: the lowest cause that fits, or the bays' types.
pub fn check(recipe: &[u8]) -> Verdict
    ensures { result ≡ verdict_of recipe.now }
{
    match accept(recipe) {
        Ok(accepted) => {
            let types = accepted.types;
            Verdict {
                refusal: 0,
                bays: accepted.bays,
                types: types,
            }
        }
        Err(cause) => refused(cause),
    }
}
