//! Where a text may be cut.
ghost use Rattle.std.specs.Prelude.{◌≡◌, take, drop};
ghost use Rattle.std.specs.Str.{IsCharBoundary};

/// The first `n` bytes of a text, and the rest.
pub fn cut(text: &str, n: usize) -> (&str, &str)
    requires { IsCharBoundary text.now n }
    ensures front { result.0.now ≡ take n text.now }
    ensures rest { result.1.now ≡ drop n text.now }
{
    (&text[..n], &text[n..])
}
