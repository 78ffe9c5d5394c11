// What is found out once of a table, so that a search passes over what cannot stand.
#![tactic(auto)]

use numbers::Byte;

// How many constants there are with a type: four tags, and behind each a number.
pub const CONSTANT_CODES: usize = 4 * Byte::VALUES;

// The nodes that have a type number: lambdas, band 0, and the constants, bands 1 to 4.
pub const BANDS: usize = 5;

pub const BAND_CODES: usize = BANDS * Byte::VALUES;

// Chains for one argument and for two: the first number of each band and type, and the next one behind each number.
pub const CHAIN_CODES: usize = 2 * (2 * BAND_CODES);
