// Document 01's limits, kinds, rules and causes, and document 02's: each number has its name here and nowhere else. That they are the numbers of the definitions
// is what the functions below say.
#![tactic(auto)]

ghost use Rattle.std.specs.Prelude.{◌≡◌};
ghost use Rattle.calculus.specs.Limits.{byte_values};
ghost use Rattle.numbers.specs.Tables.{recipe_limits, image_limits, load_limits, term_limits, type_kinds, type_entries, image_kinds, rules, causes};

// A byte: how many values it has.
pub struct Byte {}

impl Byte {
    pub const VALUES: usize = 256;
}

// A recipe file: its limits and lengths.
pub struct Recipe {}

impl Recipe {
    pub const MIN_FILE: usize = 12;

    pub const MAX_FILE: usize = 8192;

    pub const MIN_PARTS: usize = 2;

    pub const MAX_PARTS: usize = 17;

    pub const MAX_BAYS: usize = Recipe::MAX_PARTS - 1;

    pub const MIN_ENTRIES: usize = 3;

    pub const MAX_ENTRIES: usize = 256;

    pub const MAX_NESTING: usize = 100;

    // Two variables for each level of nesting.
    pub const MAX_VARIABLES: usize = 2 * Recipe::MAX_NESTING;

    pub const MAX_NODES: usize = 1024;
}

// An image: its limits, its lengths, and the kinds of its names.
pub struct Image {}

impl Image {
    pub const MAX_NAMES: usize = 256;

    pub const MAX_NODES: usize = 4096;

    // Where the first head stands, behind the number of names; the bytes of a head; the most bytes of a node.
    pub const FIRST_HEAD: usize = 2;

    pub const HEAD_LENGTH: usize = 6;

    pub const MAX_NODE_LENGTH: usize = 3;

    pub const MAX_LENGTH: usize = Image::FIRST_HEAD
        + Image::HEAD_LENGTH * Image::MAX_NAMES
        + Image::MAX_NODE_LENGTH * Image::MAX_NODES;

    pub const THREAD: u8 = 1;

    pub const CELL: u8 = 2;

    pub const OPEN_HANDLE: u8 = 3;

    pub const USED_HANDLE: u8 = 4;

    pub const FUTURE: u8 = 5;
}

// The input of a test load: the bytes of its seed, those in front of the recipe, and the most draws.
pub struct TestLoad {}

impl TestLoad {
    pub const SEED_LENGTH: usize = 4;

    pub const FRONT_LENGTH: usize = TestLoad::SEED_LENGTH + 2;

    pub const MAX_DRAWS: usize = 10_000;
}

// A small term: its fewest and most nodes, and the most bytes.
pub struct Term {}

impl Term {
    pub const MIN_NODES: usize = 1;

    pub const MAX_NODES: usize = 6;

    pub const MAX_LENGTH: usize = Image::MAX_NODE_LENGTH * Term::MAX_NODES;
}

// A type entry: its kinds, and the numbers of the first three entries.
pub struct Type {}

impl Type {
    pub const UNIT: u8 = 0;

    pub const NUM: u8 = 1;

    pub const CELL: u8 = 2;

    pub const ONCE: u8 = 3;

    pub const MANY: u8 = 4;

    pub const ONCE_PAIR: u8 = 5;

    pub const MANY_PAIR: u8 = 6;

    pub const ONCE_LIST: u8 = 7;

    pub const MANY_LIST: u8 = 8;

    pub const UNIT_ENTRY: u8 = 0;

    pub const NUM_ENTRY: u8 = 1;

    pub const SETTING_ENTRY: u8 = 2;
}

// The rules, in Fig. 5's order, then those of Fig. 10.
#[derive(Clone, Copy, Debug, PartialEq, Eq)]
pub enum Rule {
    Beta = 1,
    ThreadNew = 2,
    FutureDeref = 3,
    HandleNew = 4,
    HandleBind = 5,
    CellNew = 6,
    CellExch = 7,
    CasePair = 8,
    CaseList = 9,
}

// The causes of a refusal.
#[derive(Clone, Copy, Debug, PartialEq, Eq)]
pub enum Cause {
    FileLength = 1,
    Opening = 2,
    Layout = 3,
    TypeEntry = 4,
    NoTerm = 5,
    TermSize = 6,
    Scope = 7,
    Annotation = 8,
    Type = 9,
    Linearity = 10,
    BayOnce = 11,
    Buffer = 12,
    Image = 13,
    NoThread = 14,
    Room = 15,
    UsedHandle = 16,
    WrongKind = 17,
    Seed = 18,
    Starting = 19,
    OtherSetting = 20,
    Share = 21,
}

pub fn byte_values() -> usize
    ensures { result ≡ byte_values }
{
    Byte::VALUES
}

pub fn recipe_limits() -> [usize; 10]
    ensures { result ≡ recipe_limits }
{
    [
        Recipe::MIN_FILE,
        Recipe::MAX_FILE,
        Recipe::MIN_PARTS,
        Recipe::MAX_PARTS,
        Recipe::MAX_BAYS,
        Recipe::MIN_ENTRIES,
        Recipe::MAX_ENTRIES,
        Recipe::MAX_NESTING,
        Recipe::MAX_VARIABLES,
        Recipe::MAX_NODES,
    ]
}

pub fn image_limits() -> [usize; 6]
    ensures { result ≡ image_limits }
{
    [
        Image::MAX_NAMES,
        Image::MAX_NODES,
        Image::FIRST_HEAD,
        Image::HEAD_LENGTH,
        Image::MAX_NODE_LENGTH,
        Image::MAX_LENGTH,
    ]
}

pub fn load_limits() -> [usize; 3]
    ensures { result ≡ load_limits }
{
    [
        TestLoad::SEED_LENGTH,
        TestLoad::FRONT_LENGTH,
        TestLoad::MAX_DRAWS,
    ]
}

pub fn term_limits() -> [usize; 3]
    ensures { result ≡ term_limits }
{
    [Term::MIN_NODES, Term::MAX_NODES, Term::MAX_LENGTH]
}

pub fn image_kinds() -> [u8; 5]
    ensures { result ≡ image_kinds }
{
    [
        Image::THREAD,
        Image::CELL,
        Image::OPEN_HANDLE,
        Image::USED_HANDLE,
        Image::FUTURE,
    ]
}

pub fn type_kinds() -> [u8; 9]
    ensures { result ≡ type_kinds }
{
    [
        Type::UNIT,
        Type::NUM,
        Type::CELL,
        Type::ONCE,
        Type::MANY,
        Type::ONCE_PAIR,
        Type::MANY_PAIR,
        Type::ONCE_LIST,
        Type::MANY_LIST,
    ]
}

pub fn type_entries() -> [u8; 3]
    ensures { result ≡ type_entries }
{
    [Type::UNIT_ENTRY, Type::NUM_ENTRY, Type::SETTING_ENTRY]
}

pub fn rules() -> [u8; 9]
    ensures { result ≡ rules }
{
    [
        Rule::Beta as u8,
        Rule::ThreadNew as u8,
        Rule::FutureDeref as u8,
        Rule::HandleNew as u8,
        Rule::HandleBind as u8,
        Rule::CellNew as u8,
        Rule::CellExch as u8,
        Rule::CasePair as u8,
        Rule::CaseList as u8,
    ]
}

pub fn causes() -> [u8; 21]
    ensures { result ≡ causes }
{
    [
        Cause::FileLength as u8,
        Cause::Opening as u8,
        Cause::Layout as u8,
        Cause::TypeEntry as u8,
        Cause::NoTerm as u8,
        Cause::TermSize as u8,
        Cause::Scope as u8,
        Cause::Annotation as u8,
        Cause::Type as u8,
        Cause::Linearity as u8,
        Cause::BayOnce as u8,
        Cause::Buffer as u8,
        Cause::Image as u8,
        Cause::NoThread as u8,
        Cause::Room as u8,
        Cause::UsedHandle as u8,
        Cause::WrongKind as u8,
        Cause::Seed as u8,
        Cause::Starting as u8,
        Cause::OtherSetting as u8,
        Cause::Share as u8,
    ]
}
