// Decimal numbers and the line with a verdict, in ASCII, put into a lent buffer.
#![tactic(auto)]

ghost use Rattle.std.specs.Prelude.{◌≡◌, [], ◌∷◌, ◌+◌, ◌/◌, ◌%◌, ◌<◌, ◌≤◌, length};
ghost use Rattle.buffer.specs.Written.{Wrote};
ghost use Rattle.text.specs.Ascii.{decimal, digit, max_verdict_line_length, verdict_line};

use buffer::{put_byte, put_bytes};

const DIGITS: [u8; 16] = *b"0123456789ABCDEF";

// The upper-case hexadecimal digit of a number below 16.
pub fn digit_of(n: u8) -> u8
    requires { n < 16 }
    ensures { result ≡ digit n }
{
    DIGITS[n as usize]
}

// Writes a number below 100 in two decimal digits.
fn put_two_digits(text: &mut [u8], at: usize, n: u8) -> usize
    requires { (n < 100) × (at + 2 ≤ length text.old) }
    ensures { Wrote text.old at (digit (n / 10) ∷ digit (n % 10) ∷ []) text.new result }
{
    let next = put_byte(text, at, digit_of(n / 10));
    put_byte(text, next, digit_of(n % 10))
}

// Writes a number in one, two or three decimal digits.
pub fn put_decimal(text: &mut [u8], at: usize, n: u8) -> usize
    requires { at + 3 ≤ length text.old }
    ensures { Wrote text.old at (decimal n) text.new result }
{
    if n < 10 {
        return put_byte(text, at, digit_of(n));
    }
    if n < 100 {
        return put_two_digits(text, at, n);
    }
    let next = put_byte(text, at, digit_of(n / 100));
    put_two_digits(text, next, n % 100)
}

// The line with the word verdict.
pub fn put_verdict_line(text: &mut [u8], number: u8) -> usize
    requires { max_verdict_line_length ≤ length text.old }
    ensures { Wrote text.old 0 (verdict_line number) text.new result }
{
    let after_word = put_bytes(text, 0, b"verdict ");
    let after_number = put_decimal(text, after_word, number);
    put_bytes(text, after_number, b"\n")
}
