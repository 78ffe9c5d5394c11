// What a call for the next term answers. The definitions stand in specs/.
#![tactic(auto)]

use numbers::Term;

// Document 02, T-10: "by value, as a length and 18 bytes with zeros past the length; a refusal, or no more, gives length 0 and zeros".
// The number of a cause beside values, and no Result: the C interface is to answer it.
#[repr(C)]
#[derive(Clone, Copy)]
pub struct NextTerm {
    pub refusal: u32,
    pub length: u32,
    pub bytes: [u8; Term::MAX_LENGTH],
}
