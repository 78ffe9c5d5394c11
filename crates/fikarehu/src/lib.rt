// The supplier's host: the functions of include/fikarehu.h, thin over the proved library. Numbers pass as themselves, a slice as a pointer and a length.
#![tactic(auto)]

ghost use Rattle.std.specs.Prelude.{◌≡◌, length};
ghost use Rattle.calculus.specs.Profile.{common, separate};
ghost use Rattle.check_spec.specs.Verdict.{verdict_of};
ghost use Rattle.load_spec.specs.Loading as load;
ghost use Rattle.step_spec.specs.Stepping.{out_after_step, outcome_of};
ghost use Rattle.step_spec.specs.Waiting.{NameSmall};
ghost use Rattle.run_spec.specs.Ending.{Leaves, ran};
ghost use Rattle.fikarehu.specs.Numbers.{run_numbers, step_numbers, stopped_numbers};

use check_spec::Verdict;
use load_spec::Loaded;
use run_spec::Ending;
use step_spec::Outcome;

// What a step came to, in numbers: done; the rule, with the new image's length; the awaited name; the refusal.
// Numbers, and no enum: the C interface.
#[repr(C)]
#[derive(Clone, Copy)]
pub struct Stepped {
    pub outcome: u32,
    pub number: u32,
    pub length: u64,
}

impl Stepped {
    pub const DONE: u32 = 0;

    pub const RULE: u32 = 1;

    pub const WAITING: u32 = 2;

    pub const REFUSED: u32 = 3;
}

// How a run ended, in numbers: the refusal; else why it stopped, the turns taken, and the last image's buffer, 0 for the first and 1 for the second, and length.
// Numbers, and no enum: the C interface.
#[repr(C)]
#[derive(Clone, Copy)]
pub struct Ran {
    pub refusal: u32,
    pub stop: u32,
    pub turns: u32,
    pub buffer: u32,
    pub length: u64,
}

impl Ran {
    pub const TURNS: u32 = 0;

    pub const IDLE: u32 = 1;

    pub const ROOM: u32 = 2;
}

// Document 01: "Accepting answers b and each bay's type number"; a refusal its number.
#[unsafe(no_mangle)]
pub extern "C" fn fikarehu_check(recipe: &[u8]) -> Verdict
    ensures { result ≡ verdict_of recipe.now }
{
    check_recipe::check(recipe)
}

// "loading also the image's length". The out buffer must not overlap the recipe.
#[unsafe(no_mangle)]
pub extern "C" fn fikarehu_load(recipe: &[u8], out: &mut [u8]) -> Loaded
    ensures value { result ≡ load.loaded_of common recipe.now (length out.old) }
    ensures out_after { out.new ≡ load.out_after_load common recipe.now out.old }
{
    load_recipe::load::<load_recipe::Common>(recipe, out)
}

// T-09: the same in the separate profile.
#[unsafe(no_mangle)]
pub extern "C" fn fikarehu_load_separate(recipe: &[u8], out: &mut [u8]) -> Loaded
    ensures value { result ≡ load.loaded_of separate recipe.now (length out.old) }
    ensures out_after { out.new ≡ load.out_after_load separate recipe.now out.old }
{
    load_recipe::load::<load_separate::Separate>(recipe, out)
}

// An outcome in numbers. It is no `From`, which takes no `requires`: that an awaited name has 32 bits is known of a step's outcome, and not of any.
#[tactic(auto, unfolding(crate::specs::Numbers::step_numbers))]
fn step_numbers(outcome: Outcome) -> Stepped
    requires { NameSmall outcome }
    ensures { result ≡ step_numbers outcome }
{
    match outcome {
        Outcome::Rule(rule, length) => Stepped {
            outcome: Stepped::RULE,
            number: rule as u32,
            length: length as u64,
        },
        Outcome::Done => Stepped {
            outcome: Stepped::DONE,
            number: 0,
            length: 0,
        },
        Outcome::Waiting(name) => Stepped {
            outcome: Stepped::WAITING,
            number: name as u32,
            length: 0,
        },
        Outcome::Refused(number) => Stepped {
            outcome: Stepped::REFUSED,
            number: number as u32,
            length: 0,
        },
    }
}

// A step of one thread. "image and out must not overlap there".
#[unsafe(no_mangle)]
pub extern "C" fn fikarehu_step(image: &[u8], thread: u64, out: &mut [u8]) -> Stepped
    ensures value { result ≡ step_numbers (outcome_of common image.now thread out.old) }
    ensures out_after { out.new ≡ out_after_step common image.now thread out.old }
{
    step_numbers(step_thread::step::<step_thread::Common>(image, thread as usize, out))
}

// T-09: the same in the separate profile.
#[unsafe(no_mangle)]
pub extern "C" fn fikarehu_step_separate(image: &[u8], thread: u64, out: &mut [u8]) -> Stepped
    ensures value { result ≡ step_numbers (outcome_of separate image.now thread out.old) }
    ensures out_after { out.new ≡ out_after_step separate image.now thread out.old }
{
    step_numbers(step_thread::step::<step_separate::Separate>(image, thread as usize, out))
}

// The numbers of a run that stopped.
fn stopped_numbers(stop: u32, turns: u16, size: usize) -> Ran
    ensures { result ≡ stopped_numbers stop turns size }
{
    Ran {
        refusal: 0,
        stop,
        turns: turns as u32,
        buffer: (turns % 2) as u32,
        length: size as u64,
    }
}

// An ending in numbers.
impl From<Ending> for Ran {
    ghost from_gives = { λ ending numbers. numbers ≡ run_numbers ending };

    #[tactic(auto, unfolding(crate::specs::Numbers::run_numbers))]
    fn from(ending: Ending) -> Ran {
        match ending {
            Ending::Turns(turns, length) => stopped_numbers(Ran::TURNS, turns, length),
            Ending::Idle(turns, length) => stopped_numbers(Ran::IDLE, turns, length),
            Ending::Room(turns, length) => stopped_numbers(Ran::ROOM, turns, length),
            Ending::Refused(number) => Ran {
                refusal: number,
                stop: 0,
                turns: 0,
                buffer: 0,
                length: 0,
            },
        }
    }
}

// Document 02: "hand over a recipe and a number of turns and get the vents back". The buffers must not overlap each other or the recipe. What the other buffer and the bytes
// beyond the last image hold is left free.
#[unsafe(no_mangle)]
pub extern "C" fn fikarehu_run(
    recipe: &[u8],
    turns: u16,
    first: &mut [u8],
    second: &mut [u8],
) -> Ran
    ensures value { result ≡ run_numbers (ran recipe.now turns (length first.old) (length second.old)) }
    ensures leaves { Leaves recipe.now turns first.old second.old first.new second.new }
{
    Ran::from(run_recipe::run(recipe, turns, first, second))
}
