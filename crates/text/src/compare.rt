// Comparisons that ignore the case of ASCII letters.
ghost use Rattle.std.specs.Prelude.{◌≡◌};
ghost use Rattle.text.specs.Letters.{alike, same};

use crate::Bytes;

// Whether two bytes are the same letter, case ignored.
#[tactic(auto, unfolding(crate::specs::Letters::alike))]
pub fn same_letter(a: u8, b: u8) -> bool
    ensures { result ≡ alike a b }
{
    a.eq_ignore_ascii_case(&b)
}

// Whether the bytes that are left are `wanted`.
pub fn reads<B: Bytes>(bytes: B, wanted: &[u8]) -> bool
    ensures { result ≡ same wanted.now (B.Bytes.left bytes) }
{
    same_text(wanted, bytes)
}

// Whether the same bytes are left of two texts.
pub fn same_text<A: Bytes, B: Bytes>(one: A, other: B) -> bool
    ensures { result ≡ same (A.Bytes.left one) (B.Bytes.left other) }
{
    // As a chain of `eq` the proof does not close: std has no lemma for what `eq` answers.
    let mut other = other;
    for x in one.each() {
        if !other.next().is_some_and(|y| same_letter(x, y)) {
            return false;
        }
    }
    other.next().is_none()
}
