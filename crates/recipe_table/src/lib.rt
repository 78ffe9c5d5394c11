// The type table: read by value, and its rules.
#![tactic(auto)]

ghost use Rattle.std.specs.Prelude.{◌≡◌, ◌&&◌, not, ◌-◌, ◌<◌, ◌≤◌, ◌/◌, ltb, length, IfOk};
ghost use Rattle.calculus.specs.Limits.{min_entries, max_entries};
ghost use Rattle.calculus.specs.Table.{is_once_kind, entry_stands, entries_test, distinct_test, table_test};
ghost use Rattle.numbers.specs.Refusals.{refusal_number};
ghost use Rattle.recipe_file.specs.File.{entry_length};
ghost use Rattle.recipe_file.specs.FileRule.{Between};
ghost use Rattle.recipe_table.specs.Entries.{table_of, type_table, table_refusal};
ghost use Rattle.recipe_table.specs.Keys.{Coded, absent, mark_of, marks_room, Marked};
ghost use Rattle.recipe_table.specs.Filled.{as_entry, as_table, filled, first_three};
ghost use Rattle.recipe_table.specs.Rules.{names_test, many_entry, contents_test};

use numbers::{Byte, Cause, Recipe, Type};
use recipe_file::{ENTRY_LENGTH, RecipeFile};

// An entry of the type table.
#[derive(Clone, Copy, Debug, PartialEq, Eq)]
pub struct Entry {
    pub kind: u8,
    pub p: u8,
    pub q: u8,
}

// What one byte, and what two bytes can say.
const BYTE_VALUES: u32 = Byte::VALUES as u32;

const TWO_BYTE_VALUES: u32 = BYTE_VALUES * BYTE_VALUES;

// How many marks there are for keys: a prime, so that each byte of a key tells.
const MARKS: usize = 509;

impl Entry {
    // The first three entries of every table.
    pub const UNIT: Entry = Entry {
        kind: Type::UNIT,
        p: 0,
        q: 0,
    };

    pub const NUM: Entry = Entry {
        kind: Type::NUM,
        p: 0,
        q: 0,
    };

    pub const SETTING: Entry = Entry {
        kind: Type::CELL,
        p: Type::NUM_ENTRY,
        q: 0,
    };

    // An entry that is not used.
    pub const UNUSED: Entry = Entry::UNIT;
}

// Where the first three entries stand.
const UNIT_AT: usize = Type::UNIT_ENTRY as usize;

const NUM_AT: usize = Type::NUM_ENTRY as usize;

const SETTING_AT: usize = Type::SETTING_ENTRY as usize;

// The entries that the bytes of a table say; unused ones are of kind 0.
pub fn read_table(bytes: &[u8]) -> [Entry; Recipe::MAX_ENTRIES]
    requires { length bytes.now / entry_length ≤ max_entries }
    ensures { result ≡ filled (table_of bytes.now) }
{
    let mut table = [Entry::UNUSED; Recipe::MAX_ENTRIES];
    let count = bytes.len() / ENTRY_LENGTH;
    for i in 0..count {
        let at = ENTRY_LENGTH * i;
        table[i] = Entry {
            kind: bytes[at],
            p: bytes[at + 1],
            q: bytes[at + 2],
        };
    }
    table
}

// The entry with number k is of one of the first `kinds` kinds, and p and q are what its kind asks: nothing, or entries with smaller numbers.
fn entry_stands(it: Entry, k: usize, kinds: u8) -> bool
    ensures { result ≡ (ltb it.kind kinds && names_test k it.kind it.p it.q) }
{
    let kind = it.kind;
    let p = it.p as usize;
    let q = it.q as usize;
    if kinds <= kind {
        return false;
    }
    if kind <= Type::NUM {
        return p == 0 && q == 0;
    }
    if kind == Type::CELL {
        return p < k && q == 0;
    }
    if kind <= Type::MANY_PAIR {
        return p < k && q < k;
    }
    if kind <= Type::MANY_LIST {
        return q == 0 && p < k;
    }
    false
}

// An entry has multiplicity many.
pub fn is_many(it: Entry) -> bool
    ensures { result ≡ not (is_once_kind it.kind) }
{
    let kind = it.kind;
    if kind == Type::ONCE {
        return false;
    }
    if kind == Type::ONCE_PAIR {
        return false;
    }
    kind != Type::ONCE_LIST
}

// A many pair or list has only many contents: the entries that p and q name.
fn contents_stand(kind: u8, first: Entry, second: Entry) -> bool
    ensures { result ≡ contents_test kind (many_entry first) (many_entry second) }
{
    if kind == Type::MANY_PAIR {
        return is_many(first) && is_many(second);
    }
    if kind == Type::MANY_LIST {
        return is_many(first);
    }
    true
}

// An entry as one number.
fn key_of(it: Entry) -> u32
    ensures { Coded (as_entry it) result }
{
    (it.kind as u32) + BYTE_VALUES * (it.p as u32) + TWO_BYTE_VALUES * (it.q as u32)
}

// Where the mark of a key stands.
fn mark_of(key: u32) -> usize
    ensures { (result ≡ mark_of key) × (result < marks_room) }
{
    key as usize % MARKS
}

// No key from a place on is this one. The loop goes to the end, so that it compares several keys at a time.
fn is_new(keys: &[u32; Recipe::MAX_ENTRIES], from: usize, count: usize, key: u32) -> bool
    requires { (from ≤ count) × (count ≤ max_entries) }
    ensures { result ≡ absent key keys.now from (count - from) }
{
    let mut fresh = true;
    for j in from..count {
        fresh &= keys[j] != key;
    }
    fresh
}

// The same, with a mark for each key from that place on: a key without a mark is none of them.
fn is_unmet(
    keys: &[u32; Recipe::MAX_ENTRIES],
    marks: &[bool; MARKS],
    from: usize,
    count: usize,
    key: u32,
) -> bool
    requires { ((from ≤ count) × (count ≤ max_entries)) × Marked keys.now marks.now from count }
    ensures { result ≡ absent key keys.now from (count - from) }
{
    if !marks[mark_of(key)] {
        return true;
    }
    is_new(keys, from, count, key)
}

// Each entry keeps its rule and no two are equal: from the last entry down, none stands again behind it.
fn entries_stand(table: [Entry; Recipe::MAX_ENTRIES], count: usize, kinds: u8) -> bool
    requires { count ≤ max_entries }
    ensures { result ≡ (entries_test (entry_stands kinds (as_table table count)) 0 (as_table table count) && distinct_test (as_table table count)) }
{
    let mut keys = [0u32; Recipe::MAX_ENTRIES];
    let mut marks = [false; MARKS];
    for i in (0..count).rev() {
        let it = table[i];
        let key = key_of(table[i]); // read again: from `it`, which is read by its fields too, it would go through memory
        if !entry_stands(it, i, kinds) {
            return false;
        }
        if !contents_stand(it.kind, table[it.p as usize], table[it.q as usize]) {
            return false;
        }
        if !is_unmet(&keys, &marks, i + 1, count, key) {
            return false;
        }
        marks[mark_of(key)] = true;
        keys[i] = key;
    }
    true
}

// Entries 0, 1, 2 are unit, num, cell of num.
#[tactic(auto, unfolding(crate::specs::Filled::first_three, crate::specs::Filled::stands_at, calculus::specs::Table::same_entry))]
fn first_stand(table: [Entry; Recipe::MAX_ENTRIES]) -> bool
    ensures { result ≡ first_three table }
{
    table[UNIT_AT] == Entry::UNIT
        && table[NUM_AT] == Entry::NUM
        && table[SETTING_AT] == Entry::SETTING
}

// The table keeps its rules, in an edition with so many kinds.
pub fn table_stands(table: [Entry; Recipe::MAX_ENTRIES], count: usize, kinds: u8) -> bool
    requires { Between min_entries max_entries count }
    ensures { result ≡ table_test kinds (as_table table count) }
{
    if !entries_stand(table, count, kinds) {
        return false;
    }
    first_stand(table)
}

// The type table of a recipe.
pub fn table_in(recipe: RecipeFile) -> [Entry; Recipe::MAX_ENTRIES]
    ensures { result ≡ filled (type_table recipe.entry.bytes.now) }
{
    read_table(recipe.table())
}

// How many entries the type table of a recipe has.
pub fn entry_count(recipe: RecipeFile) -> usize
    ensures { result ≡ length (type_table recipe.entry.bytes.now) }
{
    recipe.table().len() / ENTRY_LENGTH
}

// A recipe whose layout and type table stand, or the lowest of causes 1 to 4 that fits.
pub fn read(recipe: &[u8]) -> Result<RecipeFile, Cause>
    ensures refusal { refusal_number result ≡ table_refusal recipe.now }
    ensures file { IfOk result (λ file. file.bytes.now ≡ recipe.now) }
{
    let recipe = RecipeFile::read(recipe)?;
    if !table_stands(table_in(recipe), entry_count(recipe), recipe.edition.kinds) {
        return Err(Cause::TypeEntry);
    }
    Ok(recipe)
}
