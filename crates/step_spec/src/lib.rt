// What a step of one thread of an image answers. The definitions stand in specs/.
#![tactic(auto)]

// Document 01, "A step": a rule with its number and the new image's length; done; waiting with the name needed; refused with the number.
// A rule and a cause stand by their numbers: the definition `outcome_of`, which the demands cite, answers these, and so does the C interface.
#[derive(Clone, Copy)]
pub enum Outcome {
    Rule(u8, usize),
    Done,
    Waiting(usize),
    Refused(u8),
}
