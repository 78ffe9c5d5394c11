// Document 01, refusal 13: whether a slice of any length and any bytes is an image that keeps every rule and limit. One pass over the heads, one over
// the expressions, which are read by loops, and two over the handles: no recursion, and no walk that is quadratic in the number of names.
#![tactic(auto)]

ghost use Rattle.std.specs.Prelude.{◌≡◌, true, IfSome, ◌≤◌, length};
ghost use Rattle.std.specs.Option.{option_map};
ghost use Rattle.calculus.specs.Bytes.{Bytes};
ghost use Rattle.calculus.specs.Limits.{max_names, max_nodes};
ghost use Rattle.calculus.specs.Image.{nodes_all};
ghost use Rattle.image_layout.specs.Slice.{names};
ghost use Rattle.image_layout.specs.Layout.{heads_stand};
ghost use Rattle.image.specs.Configuration.{config_of};
ghost use Rattle.image.specs.Stands.{image_stands};
ghost use Rattle.image_check.specs.Parts.{all_part, component_part, HandlesCounted, expression_part, Named, pair_stands, pairs_stand, Tally};
ghost use Rattle.image_check.specs.Answer.{checked};

use numbers::{Byte, Image};
use term_walk::{Frames, MAX_WAITS};

// An image that keeps every rule and limit, and how many nodes it has.
#[derive(Clone, Copy)]
pub struct Standing<'a> {
    pub bytes: &'a [u8],
    pub nodes: usize,
    pub ghost stands: { image_stands bytes.now ≡ true },
    pub ghost counted: { nodes_all (config_of bytes.now) ≡ nodes },
    pub ghost fit: { Bytes bytes.now },
}

// The nodes of an expression that is exactly one term with at most `left` of them, whose variables are bound and whose names are below `names`.
// `frames` is lent to the scan.
fn expression_nodes(
    expression: &[u8],
    names: usize,
    left: usize,
    frames: &mut Frames<MAX_WAITS>,
) -> Option<usize>
    requires { left ≤ max_nodes }
    ensures { result ≡ expression_part names left expression.now }
{
    let found = term_scan::scan_scoped(expression, 0, left, Byte::VALUES, names, frames)?;
    if found.end != expression.len() {
        return None;
    }
    Some(found.nodes)
}

// The same of the expression of name k, where it has one; a cell's is a value.
fn component_nodes(
    image: &[u8],
    names: usize,
    k: usize,
    left: usize,
    frames: &mut Frames<MAX_WAITS>,
) -> Option<usize>
    requires { Named image.now k × (left ≤ max_nodes) }
    ensures { result ≡ component_part image.now names left k }
{
    let kind = image_layout::kind_at(image, k);
    if Image::CELL < kind {
        return Some(0);
    }
    let expression = image_layout::expression_at(image, k);
    let nodes = expression_nodes(expression, names, left, frames)?;
    if kind == Image::THREAD {
        return Some(nodes);
    }
    if !term_redex::is_value(expression, 0) {
        return None;
    }
    Some(nodes)
}

// The nodes of all expressions: each takes its own off what is left. One stack of frames for the scans of them all.
fn all_nodes(image: &[u8]) -> Option<usize>
    requires { heads_stand image.now ≡ true }
    ensures { result ≡ all_part image.now }
{
    let names = image_layout::names_of(image);
    let mut frames = Frames::<MAX_WAITS>::new();
    let mut left = Image::MAX_NODES;
    for k in 0..names {
        let nodes = component_nodes(image, names, k, left, &mut frames)?;
        left -= nodes;
    }
    Some(Image::MAX_NODES - left)
}

// How many open handles have each companion.
fn handle_counts(image: &[u8]) -> [u16; Image::MAX_NAMES]
    requires { heads_stand image.now ≡ true }
    ensures { Tally image.now result }
{
    let names = image_layout::names_of(image);
    let mut counts = [0u16; Image::MAX_NAMES];
    for k in 0..names {
        if image_layout::kind_at(image, k) == Image::OPEN_HANDLE {
            counts[image_layout::companion_at(image, k) as usize] += 1;
        }
    }
    counts
}

// A future is the companion of one open handle, `count` being how many have it, and the companion of an open handle is a future.
fn pair_stands(image: &[u8], names: usize, k: usize, count: u16) -> bool
    requires { HandlesCounted image.now names k count }
    ensures { result ≡ pair_stands image.now k }
{
    let kind = image_layout::kind_at(image, k);
    if kind == Image::FUTURE {
        return count == 1;
    }
    if kind != Image::OPEN_HANDLE {
        return true;
    }
    let companion = image_layout::companion_at(image, k) as usize;
    if names <= companion {
        return false;
    }
    image_layout::kind_at(image, companion) == Image::FUTURE
}

// Whether handles and futures stand, name by name.
fn pairs_stand(image: &[u8]) -> bool
    requires { (heads_stand image.now ≡ true) × (names image.now ≤ max_names) }
    ensures { result ≡ pairs_stand image.now }
{
    let names = image_layout::names_of(image);
    let counts = handle_counts(image);
    (0..names).all(|k| pair_stands(image, names, k, counts[k]))
}

// Document 01, refusal 13, decided: "image breaks a rule or limit".
pub fn check_image(image: &[u8]) -> Option<Standing<'_>>
    ensures answer { option_map (λ s. s.nodes) result ≡ checked image.now }
    ensures same { IfSome result (λ s. s.bytes.now ≡ image.now) }
{
    if image.len() < Image::FIRST_HEAD {
        return None;
    }
    if Image::MAX_NAMES < image_layout::names_of(image) {
        return None;
    }
    if !image_layout::heads_stand(image) {
        return None;
    }
    let nodes = all_nodes(image)?;
    if !pairs_stand(image) {
        return None;
    }
    Some(Standing {
        bytes: image,
        nodes,
    })
}

// The nodes of an image that stands.
pub fn count_nodes(image: &[u8]) -> usize
    requires { image_stands image.now ≡ true }
    ensures { result ≡ nodes_all (config_of image.now) }
{
    check_image(image).unwrap().nodes
}
