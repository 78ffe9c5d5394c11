// T-09: the separate profile of a load: causes 20 and 21 between the check and the starting image.
#![tactic(auto)]

ghost use Rattle.calculus.specs.Profile.{separate};

use check_separate::{some_name_another, some_start_above};
use load_recipe::Profile;
use numbers::Cause;
use recipe_file::RecipeFile;

// "refuses a bay that names another's setting with 20 and then a bay that starts above its share with 21, both after 19".
pub struct Separate {}

impl Profile for Separate {
    ghost profile = { separate };

    fn further_refusal(recipe: RecipeFile) -> Result<(), Cause> {
        if some_name_another(recipe) {
            return Err(Cause::OtherSetting);
        }
        if some_start_above(recipe) {
            return Err(Cause::Share);
        }
        Ok(())
    }
}
