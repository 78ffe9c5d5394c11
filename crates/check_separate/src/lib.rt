// T-09: what the second loader asks of a recipe that is accepted. Cause 20: a bay names another's setting. Cause 21: a bay starts above its share.
#![tactic(auto)]

ghost use Rattle.std.specs.Prelude.{◌≡◌, ◌<◌};
ghost use Rattle.calculus.specs.Profile.{names_only};
ghost use Rattle.term.specs.Reader.{GoodAt};
ghost use Rattle.term.specs.Expressions.{term_at};
ghost use Rattle.recipe_file.specs.File.{bays};
ghost use Rattle.check_spec.specs.Verdict.{refusal};
ghost use Rattle.load_spec.specs.Loading.{cause_20, cause_21};
ghost use Rattle.check_separate.specs.Tests.{bay_fits, bay_owns, own_operand};

use numbers::Image;
use recipe_file::RecipeFile;
use term::Form;

// How many nodes a setting has: a num.
const SETTING_NODES: usize = 1;

// A node's number is `own`, where it is a name.
fn is_own(refers: u8, arg: usize, own: usize) -> bool
    ensures { result ≡ own_operand own refers arg }
{
    if refers != Form::TO_NAME {
        return true;
    }
    arg == own
}

// Every name in the term at `at` is `own`, whatever is around it. A term is its nodes one after the other.
fn names_only(s: &[u8], at: usize, own: usize) -> bool
    requires { GoodAt s.now at }
    ensures { result ≡ names_only own (term_at s.now at) }
{
    let mut here = at;
    let mut waits: usize = 1;
    while 0 < waits {
        let node = term::node_at(s, here).unwrap();
        let size = node.size;
        let subterms = node.subterms;
        if !is_own(node.refers, node.arg, own) {
            return false;
        }
        here += size;
        waits = waits - 1 + (subterms as usize);
    }
    true
}

// A bay's term names only the bay's own setting.
fn bay_owns(recipe: RecipeFile, bay: usize) -> bool
    requires { (refusal recipe.bytes.now ≡ 0) × (bay < bays recipe.bytes.now) }
    ensures { result ≡ bay_owns recipe.entry.bytes.now bay }
{
    let term = recipe.term(bay);
    names_only(term, 0, bay)
}

// A bay starts with no more nodes than its share: those of its setting and of its term. Its names are two, and no share is less.
fn bay_fits(recipe: RecipeFile, bay: usize) -> bool
    requires { (refusal recipe.bytes.now ≡ 0) × (bay < bays recipe.bytes.now) }
    ensures { result ≡ bay_fits recipe.entry.bytes.now bay }
{
    let share = Image::MAX_NODES / recipe.bays();
    let term = recipe.term(bay);
    let found = term_scan::scan(term, 0).unwrap();
    SETTING_NODES + found.nodes <= share
}

// Cause 20: some bay names another's setting.
pub fn some_name_another(recipe: RecipeFile) -> bool
    requires { refusal recipe.bytes.now ≡ 0 }
    ensures { result ≡ cause_20 recipe.entry.bytes.now }
{
    !(0..recipe.bays()).all(|bay| bay_owns(recipe, bay))
}

// Cause 21: some bay starts above its share.
pub fn some_start_above(recipe: RecipeFile) -> bool
    requires { refusal recipe.bytes.now ≡ 0 }
    ensures { result ≡ cause_21 recipe.entry.bytes.now }
{
    !(0..recipe.bays()).all(|bay| bay_fits(recipe, bay))
}
