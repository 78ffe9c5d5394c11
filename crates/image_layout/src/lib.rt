// Document 01, "The image": its limits and kinds, and its heads and expressions read and written in bytes.
#![tactic(auto)]

ghost use Rattle.std.specs.Prelude.{◌≡◌, ℕ, ◌+◌, ◌<◌, ◌≤◌, length};
ghost use Rattle.calculus.specs.Bytes.{two_byte_values};
ghost use Rattle.calculus.specs.Limits.{first_head, head_length};
ghost use Rattle.calculus.specs.Lists.{tabulate};
ghost use Rattle.buffer.specs.Written.{Wrote};
ghost use Rattle.image_layout.specs.Encoded.{Encoded, expressions, head, heads, head_offset};
ghost use Rattle.image_layout.specs.Slice.{names, kind_at, companion_at, owner_at, offset_at, length_at, expression_at};
ghost use Rattle.image_layout.specs.Layout.{head_agrees, head_stands, heads_stand};
ghost use Rattle.image_layout.specs.Heads.{Says};
ghost use Rattle.image_layout.specs.Room.{Room};
ghost use Rattle.image_layout.specs.Readable.{HasHead, HasOwner, HasExpression};

use buffer::{put_byte, put_u16, word_at};
use numbers::{Image, Recipe};

// What the head of a name says, but for where its expression stands.
#[derive(Clone, Copy)]
pub struct Head {
    pub kind: u8,
    pub companion: u8,
    pub size: usize,
}

// Where the next head and the next expression go.
#[derive(Clone, Copy)]
pub struct Next {
    pub head: usize,
    pub expression: usize,
}

// The number of names.
pub fn names_of(image: &[u8]) -> usize
    requires { first_head ≤ length image.now }
    ensures { (result ≡ names image.now) × (result < two_byte_values) }
{
    word_at(image, 0)
}

// The kind of name k.
pub fn kind_at(image: &[u8], k: usize) -> u8
    requires { HasHead image.now k }
    ensures { result ≡ kind_at image.now k }
{
    image[Image::FIRST_HEAD + Image::HEAD_LENGTH * k]
}

// The companion byte of name k: no other function reads it.
pub fn companion_at(image: &[u8], k: usize) -> u8
    requires { HasHead image.now k }
    ensures { result ≡ companion_at image.now k }
{
    image[Image::FIRST_HEAD + Image::HEAD_LENGTH * k + 1]
}

// The owner of name k: its companion byte, or its future's where it is an open handle.
pub fn owner_at(image: &[u8], k: usize) -> u8
    requires { HasOwner image.now k }
    ensures { result ≡ owner_at image.now k }
{
    let companion = companion_at(image, k);
    if kind_at(image, k) == Image::OPEN_HANDLE {
        return companion_at(image, companion as usize);
    }
    companion
}

// Where the expression of name k begins.
pub fn offset_at(image: &[u8], k: usize) -> usize
    requires { HasHead image.now k }
    ensures { (result ≡ offset_at image.now k) × (result < two_byte_values) }
{
    word_at(image, Image::FIRST_HEAD + Image::HEAD_LENGTH * k + 2)
}

// How many bytes the expression of name k has.
pub fn length_at(image: &[u8], k: usize) -> usize
    requires { HasHead image.now k }
    ensures { (result ≡ length_at image.now k) × (result < two_byte_values) }
{
    word_at(image, Image::FIRST_HEAD + Image::HEAD_LENGTH * k + 4)
}

// The expression of name k: the part of the image, not a copy.
pub fn expression_at(image: &[u8], k: usize) -> &[u8]
    requires { HasExpression image.now k }
    ensures { result.now ≡ expression_at image.now k }
{
    let begin = offset_at(image, k);
    let size = length_at(image, k);
    &image[begin..begin + size]
}

// Writes the six bytes of the next head. The companion byte is written by no other function.
pub fn put_head(out: &mut [u8], next: Next, this: Head) -> Next
    requires { (next.head + head_length ≤ length out.old) × ((next.expression < two_byte_values) × (this.size < two_byte_values)) }
    ensures wrote { Wrote out.old next.head (head this.kind this.companion next.expression this.size) out.new result.head }
    ensures expression_value { result.expression ≡ next.expression + this.size }
{
    let after_kind = put_byte(out, next.head, this.kind);
    let after_companion = put_byte(out, after_kind, this.companion);
    let after_offset = put_u16(out, after_companion, next.expression);
    let after_size = put_u16(out, after_offset, this.size);
    Next {
        head: after_size,
        expression: next.expression + this.size,
    }
}

// Writes the heads of so many names: what that of a name says, by its number.
pub fn put_heads<F: Fn(usize) -> Head>(out: &mut [u8], at: usize, names: usize, head_of: F) -> usize
    ghost component: { ℕ → Encoded }
    requires can_call { (k : ℕ) → k < names → F.pre head_of k }
    requires says { (k : ℕ) (h : Head) → k < names → F.post head_of k h → Says h (component k) }
    requires room { Room names component out.old × (at ≡ first_head) }
    ensures { Wrote out.old at (heads (head_offset names) (tabulate names component)) out.new result }
{
    let mut next = Next {
        head: at,
        expression: Image::FIRST_HEAD + Image::HEAD_LENGTH * names,
    };
    for k in 0..names {
        next = put_head(out, next, head_of(k));
    }
    next.head
}

// Writes the expressions of so many names: that of a name, by its number.
pub fn put_expressions<F: Fn(&mut [u8], usize, usize) -> usize>(
    out: &mut [u8],
    at: usize,
    names: usize,
    put: F,
) -> usize
    ghost component: { ℕ → Encoded }
    requires can_call { (k next : ℕ) (room : _) → k < names → next + length (component k).expression ≤ length room.now → F.pre put room next k }
    requires writes { (k next last : ℕ) (old new : _) → k < names → F.post put old next k last new → Wrote old.now next (component k).expression new.now last }
    requires room { at + length (expressions (tabulate names component)) ≤ length out.old }
    ensures { Wrote out.old at (expressions (tabulate names component)) out.new result }
{
    let mut next = at;
    for k in 0..names {
        next = put(out, next, k);
    }
    next
}

// Whether kind, companion and length of a head agree.
fn head_agrees(kind: u8, companion: u8, size: usize) -> bool
    ensures { result ≡ head_agrees kind companion size }
{
    if kind < Image::THREAD {
        return false;
    }
    if Image::FUTURE < kind {
        return false;
    }
    if kind < Image::OPEN_HANDLE {
        return (companion as usize) < Recipe::MAX_BAYS;
    }
    if kind == Image::OPEN_HANDLE {
        return size == 0;
    }
    if Recipe::MAX_BAYS <= companion as usize {
        return false;
    }
    size == 0
}

// Whether the head of name k stands, its expression being due at `end`.
fn head_stands(image: &[u8], k: usize, end: usize) -> bool
    requires { HasHead image.now k × (end ≤ length image.now) }
    ensures { result ≡ head_stands image.now k end }
{
    let size = length_at(image, k);
    if !head_agrees(kind_at(image, k), companion_at(image, k), size) {
        return false;
    }
    if offset_at(image, k) != end {
        return false;
    }
    size <= image.len() - end
}

// Whether a slice keeps the layout of an image: one pass, which ends at the first fault.
pub fn heads_stand(image: &[u8]) -> bool
    ensures { result ≡ heads_stand image.now }
{
    if image.len() < Image::FIRST_HEAD {
        return false;
    }
    let names = names_of(image);
    let mut end = Image::FIRST_HEAD + Image::HEAD_LENGTH * names;
    if image.len() < end {
        return false;
    }
    for k in 0..names {
        if !head_stands(image, k, end) {
            return false;
        }
        end += length_at(image, k);
    }
    end == image.len()
}
