// Names that a text with `*` and `?` stands for.
ghost use Rattle.std.specs.Prelude.{◌≡◌, ◌≤◌, length, IsTrue};
ghost use Rattle.std.specs.List.{list_any};
ghost use Rattle.sop_pattern.specs.Wildcard.{ends_of, begins, matches};

/// Whether a pattern matches a name: `*` is any number of bytes, also none, `?` is one byte, and each other byte is
/// itself. The time is linear in the product of the two lengths.
pub fn matches(pattern: &[u8], name: &[u8]) -> bool
    ensures { result ≡ matches pattern.now name.now }
{
    let mut rest = pattern;
    let mut left = name;
    loop {
        match rest {
            [] => return left.is_empty(),
            [b'*', more @ ..] => return matches_some_end(more, left),
            [c, more @ ..] if begins(*c, left) => {
                rest = more;
                left = &left[1..];
            }
            _ => return false,
        }
    }
}

/// Whether a pattern matches some end of a name. Where it fails behind its last `*` so far, that `*` takes one byte more:
/// what stands before it needs no other try, since it matched as early as it can. So each byte of the name is such a
/// byte at most once, with at most the whole pattern tried behind it.
fn matches_some_end(pattern: &[u8], name: &[u8]) -> bool
    ensures { result ≡ list_any (matches pattern.now) (ends_of name.now) }
{
    let mut behind = pattern;
    let mut from = name;
    let mut rest = pattern;
    let mut left = name;
    loop {
        match rest {
            [] if left.is_empty() => return true,
            [b'*', more @ ..] => {
                behind = more;
                from = left;
                rest = more;
            }
            [c, more @ ..] if begins(*c, left) => {
                rest = more;
                left = &left[1..];
            }
            _ => {
                let [_, later @ ..] = from else {
                    return false;
                };
                from = later;
                left = later;
                rest = behind;
            }
        }
    }
}

/// Whether a byte of a pattern other than `*` stands for the first byte of a name.
fn begins(c: u8, name: &[u8]) -> bool
    ensures value { result ≡ begins c name.now }
    ensures some { IsTrue result → 1 ≤ length name.now }
{
    match name {
        [b, ..] => c == b'?' || c == *b,
        [] => false,
    }
}
