// Names of nodes, attributes, groups and variables.
ghost use Rattle.std.specs.Prelude.{◌≡◌};
ghost use Rattle.std.specs.List.{list_all};
ghost use Rattle.sop_model.specs.Names.{is_name, starts_name, continues_name};

use crate::limits::MOST_NAME_BYTES;

/// Whether a text is a name: a letter or `_`, then letters, digits or `_`, 1 to 64 bytes.
pub fn is_name(text: &[u8]) -> bool
    ensures { result ≡ is_name text.now }
{
    match text {
        [first, rest @ ..] => {
            starts_name(*first) && all_continue_names(rest) && text.len() <= MOST_NAME_BYTES
        }
        [] => false,
    }
}

fn all_continue_names(bytes: &[u8]) -> bool
    ensures { result ≡ list_all continues_name bytes.now }
{
    bytes.iter().all(|b| continues_name(*b))
}

/// Whether a name can begin with this byte: a letter or `_`.
pub fn starts_name(byte: u8) -> bool
    ensures { result ≡ starts_name byte }
{
    byte.is_ascii_alphabetic() || byte == b'_'
}

/// Whether this byte can stand behind the first of a name: a letter, a digit or `_`.
pub fn continues_name(byte: u8) -> bool
    ensures { result ≡ continues_name byte }
{
    starts_name(byte) || byte.is_ascii_digit()
}
