// Terms written root first, by the table of node forms. A function that walks a term takes the whole slice and the position of the
// next node, reads that node's head, and goes on where the head ends: what falls is the part still unread.
#![tactic(auto)]

ghost use Rattle.std.specs.Prelude.{◌≡◌, ◌≤◌, ◌<◌, length, drop};
ghost use Rattle.term.specs.Numbers.{value_of};
ghost use Rattle.term.specs.Forms.{form_of, is_case_tag, tags};
ghost use Rattle.term.specs.Reader.{node_at, node_of};

use numbers::Byte;

// What the table of node forms says of a tag: the number of bytes after the tag, the number of subterms, how many variables the last subterm has more than
// the node, and what the number after the tag refers to.
#[derive(Clone, Copy)]
pub struct Form {
    pub operand: u8,
    pub subterms: u8,
    pub binders: u8,
    pub refers: u8,
}

impl Form {
    // What the number after a tag refers to: nothing, a variable around, an entry of the type table, a name.
    pub const TO_NOTHING: u8 = 0;

    pub const TO_VARIABLE: u8 = 1;

    pub const TO_TYPE: u8 = 2;

    pub const TO_NAME: u8 = 3;

    // A form in one byte: the operand's bytes, and how much a subterm, a binder and what is referred to weigh. Each column is below `COLUMN`.
    const COLUMN: u64 = 4;

    const SUBTERM: u64 = Form::COLUMN;

    const BINDER: u64 = Form::SUBTERM * Form::COLUMN;

    const REFERS: u64 = Form::BINDER * Form::COLUMN;

    // One byte after the tag, a number of a variable, of a type, a name.
    const VARIABLE_BYTE: u64 = 1 + Form::REFERS * (Form::TO_VARIABLE as u64);

    const TYPE_BYTE: u64 = 1 + Form::REFERS * (Form::TO_TYPE as u64);

    const NAME_BYTE: u64 = 1 + Form::REFERS * (Form::TO_NAME as u64);

    // Two subterms.
    const TWO: u64 = 2 * Form::SUBTERM;

    // Eight forms in one number, the first in its lowest byte: how many, and how many bits and values each has.
    const IN_ONE: u8 = 8;

    const BITS: u8 = 8;

    const VALUES: u64 = Byte::VALUES as u64;
}

// A node without its subterms: its tag, the number after the tag, the bytes that the two take, how many subterms follow, how many more variables the last of
// them has, and what the number refers to.
#[derive(Clone, Copy)]
pub struct Node {
    pub tag: u8,
    pub arg: usize,
    pub size: usize,
    pub subterms: u8,
    pub binders: u8,
    pub refers: u8,
}

impl Node {
    pub const VARIABLE: u8 = 0;

    pub const LAMBDA: u8 = 1;

    pub const APPLICATION: u8 = 2;

    pub const UNIT: u8 = 3;

    pub const NUM: u8 = 4;

    pub const CELL: u8 = 5;

    pub const EXCH: u8 = 6;

    pub const THREAD: u8 = 7;

    pub const HANDLE: u8 = 8;

    pub const NAME: u8 = 9;

    pub const PAIR: u8 = 10;

    pub const LIST: u8 = 11;

    pub const CASE_PAIR: u8 = 12;

    pub const CASE_LIST: u8 = 13;

    pub const TAGS: u8 = 14;

    // How many numbers can stand after a tag: what two bytes say.
    pub const OPERANDS: usize = Byte::VALUES * Byte::VALUES;
}

// Document 01's and T-03's table of node forms, in the order of the tags, eight to an entry. A constant table is laid out anew at each use: of structs that takes longer than
// all else of reading a node, and of single bytes, which are laid out in larger pieces, it is long until one can be read. So an entry is read as it is laid out.
pub const FORMS: [u64; 2] = [
    Form::VARIABLE_BYTE // variable
        + ((Form::TYPE_BYTE + Form::SUBTERM + Form::BINDER) << 8) // lambda
        + (Form::TWO << 16) // application
        + (0 << 24) // unit
        + (2 << 32) // num
        + (Form::TYPE_BYTE << 40) // cell
        + (Form::TYPE_BYTE << 48) // exch
        + (Form::TYPE_BYTE << 56), // thread
    Form::TYPE_BYTE // handle
        + (Form::NAME_BYTE << 8) // name
        + ((Form::TYPE_BYTE + Form::TWO) << 16) // pair
        + ((Form::TYPE_BYTE + Form::TWO) << 24) // list front
        + ((Form::TWO + 2 * Form::BINDER) << 32) // a pair taken apart
        + ((Form::TWO + 2 * Form::BINDER) << 40), // a list taken apart
];

pub fn form_of(tag: u8) -> Form
    requires { tag < tags }
    ensures { result ≡ form_of tag }
{
    let eight = FORMS[(tag / Form::IN_ONE) as usize];
    let form = (eight >> (tag % Form::IN_ONE * Form::BITS)) % Form::VALUES;
    Form {
        operand: (form % Form::SUBTERM) as u8,
        subterms: (form / Form::SUBTERM % Form::COLUMN) as u8,
        binders: (form / Form::BINDER % Form::COLUMN) as u8,
        refers: (form / Form::REFERS) as u8,
    }
}

// The number that the n bytes after the tag give, little-endian. None and one are told apart by no branch: byte n times n.
fn operand_of(s: &[u8], n: u8) -> usize
    requires { (n ≤ 2) × (n < length s.now) }
    ensures { result ≡ value_of n (drop 1 s.now) }
{
    let bytes = n as usize;
    if bytes < 2 {
        return (s[bytes] as usize) * bytes;
    }
    buffer::word_at(s, 1)
}

// The node at the front of some bytes, where one stands.
pub fn node_of(s: &[u8]) -> Option<Node>
    ensures { result ≡ node_of s.now }
{
    if s.len() == 0 {
        return None;
    }
    let tag = s[0];
    if Node::TAGS <= tag {
        return None;
    }
    let form = form_of(tag);
    let size = 1 + (form.operand as usize);
    if s.len() < size {
        return None;
    }
    let arg = operand_of(s, form.operand);
    Some(Node {
        tag,
        arg,
        size,
        subterms: form.subterms,
        binders: form.binders,
        refers: form.refers,
    })
}

// The same at a position.
pub fn node_at(s: &[u8], at: usize) -> Option<Node>
    requires { at ≤ length s.now }
    ensures { result ≡ node_at s.now at }
{
    node_of(&s[at..])
}

// Whether a node with this tag is a case, which takes a pair or list apart.
pub fn is_case(tag: u8) -> bool
    ensures { result ≡ is_case_tag tag }
{
    tag == Node::CASE_PAIR || tag == Node::CASE_LIST
}
