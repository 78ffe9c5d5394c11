// The verdict on a recipe file: what is answered. The definitions stand in specs/, the theorems in proofs/.
#![tactic(auto)]

use numbers::Recipe;

// Document 01: "Accepting answers b and each bay's type number". A refusal has its number, and zeros.
// The number of a cause beside values, and no Result: the C interface answers it.
#[repr(C)]
#[derive(Clone, Copy)]
pub struct Verdict {
    pub refusal: u32,
    pub bays: u32,
    pub types: [u8; Recipe::MAX_BAYS],
}
