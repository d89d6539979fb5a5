// Values that are read from texts.
ghost use Rattle.std.specs.Prelude.{◌≡◌, ℕ, List, Option};

use text::Bytes;

// What a text of some form means, or nothing where it has another form.
pub trait Form: Copy {
    ghost reading: { List ℕ → Option Self };

    fn read<B: Bytes>(text: B) -> Option<Self>
        ensures { result ≡ reading (B.Bytes.left text) };
}
