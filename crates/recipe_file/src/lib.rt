// The recipe file: its limits, its layout, and its parts as slices of it.
#![tactic(auto)]

ghost use Rattle.std.specs.Prelude.{◌≡◌, false, ◌+◌, ◌*◌, ◌<◌, ◌≤◌, length, IfOk};
ghost use Rattle.calculus.specs.Bytes.{Bytes, two_byte_values};
ghost use Rattle.calculus.specs.Limits.{byte_values, max_bays, min_file_length};
ghost use Rattle.calculus.specs.Lists.{tabulate};
ghost use Rattle.numbers.specs.Refusals.{refusal_number};
ghost use Rattle.recipe_file.specs.File.{edition_of, bays, pair_offset, offset_of, length_of, part, table_bytes, term_bytes, outside, cause_2, pairs_test, table_length_test, cause_3, layout_refusal};
ghost use Rattle.recipe_file.specs.Starting.{starting_bytes, starting_num, cause_19};
ghost use Rattle.recipe_file.specs.FileRule.{FileRule, HasPart};

use numbers::{Cause, Recipe};

// The first two bytes of every recipe.
pub const OPENING: [u8; 2] = *b"LF";

// An edition of the recipe file: how many node forms and kinds of types it has, the first ones; whether the part behind the type table is the starting part;
// and from which part on the parts are terms.
#[derive(Clone, Copy)]
pub struct Edition {
    pub number: u8,
    pub forms: u8,
    pub kinds: u8,
    pub starting: bool,
    pub terms: usize,
}

// The part that is the type table, and the starting part where there is one.
const TABLE_PART: usize = 0;

const STARTING_PART: usize = TABLE_PART + 1;

impl Edition {
    // Document 01's.
    pub const FIRST: Edition = Edition {
        number: 1,
        forms: 10,
        kinds: 5,
        starting: false,
        terms: TABLE_PART + 1,
    };

    // T-03's, with pairs and lists.
    pub const SECOND: Edition = Edition {
        number: 2,
        forms: 14,
        kinds: 9,
        starting: false,
        terms: TABLE_PART + 1,
    };

    // T-07's, with starting nums.
    pub const THIRD: Edition = Edition {
        number: 3,
        forms: 14,
        kinds: 9,
        starting: true,
        terms: STARTING_PART + 1,
    };

    // How many are known.
    pub const COUNT: usize = 3;
}

// Those that are known, in the order of their numbers.
const EDITIONS: [Edition; Edition::COUNT] = [Edition::FIRST, Edition::SECOND, Edition::THIRD];

// A recipe has a bay at least.
const MIN_BAYS: usize = 1;

// The bytes of an entry of the type table, and of a bay's starting num.
pub const ENTRY_LENGTH: usize = 3;

const STARTING_NUM_LENGTH: usize = 2;

// Where pair i stands; behind the last of n pairs the first part begins.
pub fn pair_offset(i: usize) -> usize
    requires { i < two_byte_values }
    ensures { result ≡ pair_offset i }
{
    4 + 4 * i
}

// A byte as a number.
fn wide(byte: u8) -> usize
    ensures { (result ≡ byte) × (result < byte_values) }
{
    byte as usize
}

// The offset that pair i says.
pub fn offset_of(recipe: &[u8], i: usize) -> usize
    requires { (i < byte_values) × (pair_offset (i + 1) ≤ length recipe.now) }
    ensures { (result ≡ offset_of recipe.now i) × (result < two_byte_values) }
{
    buffer::word_at(recipe, pair_offset(i))
}

// The length that pair i says.
fn length_of(recipe: &[u8], i: usize) -> usize
    requires { (i < byte_values) × (pair_offset (i + 1) ≤ length recipe.now) }
    ensures { (result ≡ length_of recipe.now i) × (result < two_byte_values) }
{
    buffer::word_at(recipe, pair_offset(i) + 2)
}

// n is below `least` or above `most`.
fn is_outside(least: usize, most: usize, n: usize) -> bool
    ensures { result ≡ outside least most n }
{
    n < least || most < n
}

// The edition that a recipe says; the first, where it says none that is known.
pub fn edition_of(recipe: &[u8]) -> Edition
    ensures { result ≡ edition_of recipe.now }
{
    if recipe.len() <= 2 {
        return Edition::FIRST;
    }
    let number = wide(recipe[2]);
    if number == 0 {
        return Edition::FIRST;
    }
    if Edition::COUNT < number {
        return Edition::FIRST;
    }
    EDITIONS[number - 1]
}

// Cause 2: the opening, the edition, or the number of parts.
fn opening_breaks(recipe: &[u8], edition: Edition) -> bool
    requires { (min_file_length ≤ length recipe.now) × (edition ≡ edition_of recipe.now) }
    ensures { result ≡ cause_2 recipe.now }
{
    if recipe[0] != OPENING[0] {
        return true;
    }
    if recipe[1] != OPENING[1] {
        return true;
    }
    if recipe[2] != edition.number {
        return true;
    }
    let least = edition.terms + MIN_BAYS;
    let most = edition.terms + Recipe::MAX_BAYS;
    is_outside(least, most, wide(recipe[3]))
}

// The parts of n pairs follow each other from the pairs to the end of the file, and none is empty.
fn pairs_stand(recipe: &[u8], n: usize) -> bool
    requires { (n < byte_values) × (pair_offset n ≤ length recipe.now) }
    ensures { result ≡ pairs_test recipe.now n 0 (pair_offset n) }
{
    let mut end = pair_offset(n);
    for pair in 0..n {
        if offset_of(recipe, pair) != end {
            return false;
        }
        let size = length_of(recipe, pair);
        if size == 0 {
            return false;
        }
        end += size;
    }
    end == recipe.len()
}

// A type table may have this length.
fn table_length_stands(size: usize) -> bool
    ensures { result ≡ table_length_test size }
{
    if size % ENTRY_LENGTH != 0 {
        return false;
    }
    !is_outside(
        ENTRY_LENGTH * Recipe::MIN_ENTRIES,
        ENTRY_LENGTH * Recipe::MAX_ENTRIES,
        size,
    )
}

// Cause 3: the pairs, or the length of the type table.
fn layout_breaks(recipe: &[u8]) -> bool
    requires { min_file_length ≤ length recipe.now }
    ensures { result ≡ cause_3 recipe.now }
{
    let n = wide(recipe[3]);
    if recipe.len() < pair_offset(n) {
        return true;
    }
    if !pairs_stand(recipe, n) {
        return true;
    }
    !table_length_stands(length_of(recipe, TABLE_PART))
}

// The part that pair i names, as it stands in the recipe.
pub fn part(recipe: &[u8], i: usize) -> &[u8]
    requires { HasPart recipe.now i }
    ensures { result.now ≡ part recipe.now i }
{
    let start = offset_of(recipe, i);
    let size = length_of(recipe, i);
    &recipe[start..start + size]
}

// A recipe that is laid out: its bytes, with the edition that they say.
#[derive(Clone, Copy)]
pub struct RecipeFile<'a> {
    pub bytes: &'a [u8],
    pub edition: Edition,
    ghost said: { edition ≡ edition_of bytes.now },
    ghost laid: { layout_refusal bytes.now ≡ 0 },
    ghost fit: { Bytes bytes.now },
}

impl<'a> RecipeFile<'a> {
    // A recipe's bytes, or the lowest of causes 1 to 3 that fits.
    pub fn read(bytes: &'a [u8]) -> Result<Self, Cause>
        ensures refusal { refusal_number result ≡ layout_refusal bytes.now }
        ensures file { IfOk result (λ file. file.bytes.now ≡ bytes.now) }
    {
        let edition = edition_of(bytes);
        if is_outside(Recipe::MIN_FILE, Recipe::MAX_FILE, bytes.len()) {
            return Err(Cause::FileLength);
        }
        if opening_breaks(bytes, edition) {
            return Err(Cause::Opening);
        }
        if layout_breaks(bytes) {
            return Err(Cause::Layout);
        }
        Ok(RecipeFile { bytes, edition })
    }

    // The bytes of a recipe that is known to be laid out.
    pub fn of(bytes: &'a [u8]) -> Self
        requires { FileRule bytes.now }
        ensures { result.bytes.now ≡ bytes.now }
    {
        RecipeFile {
            bytes,
            edition: edition_of(bytes),
        }
    }

    // How many bays it has.
    pub fn bays(self) -> usize
        ensures { result ≡ bays self.entry.bytes.now }
    {
        wide(self.bytes[3]) - self.edition.terms
    }

    // The bytes of the type table.
    pub fn table(self) -> &'a [u8]
        ensures { result.now ≡ table_bytes self.entry.bytes.now }
    {
        part(self.bytes, TABLE_PART)
    }

    // The bytes of a bay's term.
    pub fn term(self, bay: usize) -> &'a [u8]
        requires { bay < bays self.bytes.now }
        ensures { result.now ≡ term_bytes self.entry.bytes.now bay }
    {
        part(self.bytes, self.edition.terms + bay)
    }

    // The bytes of the starting part; none where the edition has no such part.
    fn starting(self) -> &'a [u8]
        ensures { result.now ≡ starting_bytes self.entry.bytes.now }
    {
        if !self.edition.starting {
            return &self.bytes[..0];
        }
        part(self.bytes, STARTING_PART)
    }

    // Cause 19: the length of the starting part.
    pub fn starting_breaks(self) -> bool
        ensures { result ≡ cause_19 self.entry.bytes.now }
    {
        if !self.edition.starting {
            return false;
        }
        length_of(self.bytes, STARTING_PART) != STARTING_NUM_LENGTH * self.bays()
    }

    // The starting nums of all bays, by value; 0 where none is written.
    pub fn starting_nums(self) -> [u16; Recipe::MAX_BAYS]
        requires { cause_19 self.bytes.now ≡ false }
        ensures { result ≡ tabulate max_bays (starting_num self.entry.bytes.now) }
    {
        let starting = self.starting();
        let mut nums = [0u16; Recipe::MAX_BAYS];
        for bay in 0..starting.len() / STARTING_NUM_LENGTH {
            nums[bay] = buffer::word_at(starting, STARTING_NUM_LENGTH * bay) as u16;
        }
        nums
    }
}
