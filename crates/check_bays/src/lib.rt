// Loops over all bays of a recipe: whether each part is one term and how many nodes they have, whether each term passes a test, and the types.
#![tactic(auto)]

ghost use Rattle.std.specs.Prelude.{◌≡◌, ◌<◌, IfOk};
ghost use Rattle.numbers.specs.Refusals.{refusal_number};
ghost use Rattle.recipe_file.specs.File.{bays, term_bytes};
ghost use Rattle.check_bays.specs.Tests.{all_scoped, all_shallow, bay_scoped, bay_shallow};
ghost use Rattle.check_bays.specs.Standing.{all_stand};
ghost use Rattle.check_bays.specs.Terms.{nodes_in};
ghost use Rattle.check_bays.specs.Stages.{ScopedTerms, Terms};
ghost use Rattle.check_bays.specs.Numbers.{Numbered, types_refusal};
ghost use Rattle.recipe_table.specs.Entries.{type_table};
ghost use Rattle.check_walk.specs.Walk.{Decides};
ghost use Rattle.check_spec.specs.Verdict.{bay_type_numbers};

use check_walk::Walked;
use numbers::{Cause, Recipe};
use recipe_file::RecipeFile;

// The types of the bays, where each has one: whether cause 10 fits none, whether all are many, and their numbers.
#[derive(Clone, Copy)]
pub struct BayTypes {
    pub linear: bool,
    pub many: bool,
    pub numbers: [u8; Recipe::MAX_BAYS],
}

// Document 01, cause 5: the nodes of all terms, or that a part is not exactly one term.
pub fn count_nodes(recipe: RecipeFile) -> Option<usize>
    ensures { result ≡ nodes_in recipe.entry.bytes.now }
{
    let bays = recipe.bays();
    let mut total: usize = 0;
    for bay in 0..bays {
        let term = recipe.term(bay);
        let nodes = term_scan::scan_part(term, recipe.edition.forms)?;
        total += nodes;
    }
    Some(total)
}

// None of causes 5 to 8 fits: all bays in one pass each. Where one fits, it is not said which.
pub fn each_stands(recipe: RecipeFile) -> bool
    ensures { result ≡ all_stand recipe.entry.bytes.now }
{
    let bays = recipe.bays();
    let table = recipe.table();
    let mut total: usize = 0;
    for bay in 0..bays {
        let term = recipe.term(bay);
        let Some(nodes) = check_prescan::glance(recipe.edition.forms, table, bays, term) else {
            return false;
        };
        total += nodes;
    }
    total <= Recipe::MAX_NODES
}

// A bay's term nests no deeper than the limit.
fn bay_shallow(recipe: RecipeFile, bay: usize) -> bool
    requires { Terms recipe.bytes.now × (bay < bays recipe.bytes.now) }
    ensures { result ≡ bay_shallow recipe.entry.bytes.now bay }
{
    let term = recipe.term(bay);
    term_scan::nesting_within(term, 0, Recipe::MAX_NESTING)
}

// What a bay's term names is there.
fn bay_scoped(recipe: RecipeFile, bay: usize) -> bool
    requires { Terms recipe.bytes.now × (bay < bays recipe.bytes.now) }
    ensures { result ≡ bay_scoped recipe.entry.bytes.now bay }
{
    let types = recipe_table::entry_count(recipe);
    let names = recipe.bays();
    let term = recipe.term(bay);
    term_scan::scoped_within(term, 0, types, names)
}

// Document 01, cause 6: no term nests too deep.
pub fn all_shallow(recipe: RecipeFile) -> bool
    requires { Terms recipe.bytes.now }
    ensures { result ≡ all_shallow recipe.entry.bytes.now }
{
    (0..recipe.bays()).all(|bay| bay_shallow(recipe, bay))
}

// Document 01, cause 7: what the terms name is there.
pub fn all_scoped(recipe: RecipeFile) -> bool
    requires { Terms recipe.bytes.now }
    ensures { result ≡ all_scoped recipe.entry.bytes.now }
{
    (0..recipe.bays()).all(|bay| bay_scoped(recipe, bay))
}

// Causes 9 and 10 of a bay's term, by the type walk.
fn walk_bay(recipe: RecipeFile, bay: usize) -> Option<Walked>
    requires { ScopedTerms recipe.bytes.now × (bay < bays recipe.bytes.now) }
    ensures { Decides (type_table recipe.entry.bytes.now) (term_bytes recipe.entry.bytes.now bay) result }
{
    let table = recipe.table();
    let term = recipe.term(bay);
    check_walk::walk(table, term)
}

// Document 01, causes 9 to 11: the types of all bays; none, where one has no type.
pub fn types_of(recipe: RecipeFile) -> Option<BayTypes>
    requires { ScopedTerms recipe.bytes.now }
    ensures { Numbered recipe.entry.bytes.now result }
{
    let bays = recipe.bays();
    let table = recipe.table();
    let mut numbers = [0u8; Recipe::MAX_BAYS];
    let mut many = true;
    let mut linear = true;
    for bay in 0..bays {
        let walked = walk_bay(recipe, bay)?;
        many &= check_types::many_at(table, walked.number as usize);
        linear &= walked.kept;
        numbers[bay] = walked.number;
    }
    Some(BayTypes {
        linear,
        many,
        numbers,
    })
}

// The numbers of the types of all bays, or the lowest of causes 9 to 11 that fits: each is tried over all bays before the next.
pub fn type_numbers(recipe: RecipeFile) -> Result<[u8; Recipe::MAX_BAYS], Cause>
    requires { ScopedTerms recipe.bytes.now }
    ensures refusal { refusal_number result ≡ types_refusal recipe.entry.bytes.now }
    ensures types { IfOk result (λ types. types ≡ bay_type_numbers recipe.entry.bytes.now) }
{
    let Some(found) = types_of(recipe) else {
        return Err(Cause::Type);
    };
    if !found.linear {
        return Err(Cause::Linearity);
    }
    if !found.many {
        return Err(Cause::BayOnce);
    }
    let numbers = found.numbers;
    Ok(numbers)
}
