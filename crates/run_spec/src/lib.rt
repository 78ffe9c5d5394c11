// How a run by the runner ends. The definitions stand in specs/.
#![tactic(auto)]

// Document 02, T-04: "It answers the turns taken and the last image's buffer and length": after all the turns that it was given, or before them, idle or for want of
// room; which buffer it is, the turns say. A refusal has its number.
// A cause stands by its number: the definition `ran`, which `HouseRunner` cites, answers it, and so does the C interface.
#[derive(Clone, Copy)]
pub enum Ending {
    Turns(u16, usize),
    Idle(u16, usize),
    Room(u16, usize),
    Refused(u32),
}
