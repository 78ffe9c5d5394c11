// What a load answers. The definitions stand in specs/.
#![tactic(auto)]

use numbers::Recipe;

// Document 01: "Accepting answers b and each bay's type number; loading also the image's length". A refusal has its number, and zeros.
// The number of a cause beside values, and no Result: the C interface answers it.
#[repr(C)]
#[derive(Clone, Copy)]
pub struct Loaded {
    pub refusal: u32,
    pub bays: u32,
    pub types: [u8; Recipe::MAX_BAYS],
    pub length: u64,
}
