// Document 02, T-09: the separate profile of a step: where a thread goes, each bay's share.
#![tactic(auto)]

ghost use Rattle.calculus.specs.Profile.{separate};

use image_check::Standing;
use step_look::Going;
use step_thread::Profile;

// The second stepper: "a rule whose outcome leaves any bay above its share gives 15 instead".
pub struct Separate {}

impl Profile for Separate {
    ghost profile = { separate };

    fn has_room(image: Standing, going: Going) -> bool {
        step_shares::shares_after(image, going)
    }
}
