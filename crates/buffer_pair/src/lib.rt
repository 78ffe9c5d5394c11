// Two lent buffers: the one that holds the present image is read, and the other one is written.
#![tactic(auto)]

ghost use Rattle.std.specs.Prelude.{◌≡◌, List, ℕ, cond, ◌≤◌, length, take};

// What goes from an image in one buffer into the other: a turn, a draw.
pub trait Passage {
    type At;

    type Came;

    // What is asked of the image, of where things are, and of the buffer.
    ghost ready: { List ℕ → Self.At → List ℕ → Type 0 };

    // What came of it, and what the buffer holds then.
    ghost left: { List ℕ → Self.At → List ℕ → Self.Came → List ℕ → Type 0 };

    fn go(image: &[u8], at: Self::At, out: &mut [u8]) -> Self::Came
        requires { ready image.now at out.old }
        ensures { left image.now at out.old result out.new };
}

// From the first `size` bytes of the buffer that holds the present image into the other one; `odd` says that the second holds it.
pub fn alternate<P: Passage>(
    odd: bool,
    size: usize,
    at: P::At,
    first: &mut [u8],
    second: &mut [u8],
) -> P::Came
    requires inside { size ≤ length (cond odd second.old first.old) }
    requires ready { P.ready (take size (cond odd second.old first.old)) at (cond odd first.old second.old) }
    ensures came { P.left (take size (cond odd second.old first.old)) at (cond odd first.old second.old) result (cond odd first.new second.new) }
    ensures first_unchanged { cond odd second.new first.new ≡ cond odd second.old first.old }
{
    if odd {
        return P::go(&second[..size], at, first);
    }
    P::go(&first[..size], at, second)
}
