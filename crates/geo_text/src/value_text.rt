// Values as the listing prints them.
ghost use Rattle.std.specs.Prelude.{◌≡◌, ◌<◌, ◌++◌, List, ℕ, false, OnOk, codes, flat_map};
ghost use Rattle.std.specs.Fmt.{digit_glyph, signed_decimal};
ghost use Rattle.std.specs.List.{join_by};
ghost use Rattle.sop_fixed.specs.Numerals.{decimal_of};
ghost use Rattle.sop_model.specs.Values.{value_seen};
ghost use Rattle.geo_text.specs.ValueTexts.{vector_text, byte_text, hexadecimal_text, string_text, list_of, value_text};

use itoa::Buffer;
use sop_fixed::{Int, Real, Vec3, print};
use sop_model::ValueRef;
use sop_outside::Text;
use std::alloc::AllocError;

/// What the listing prints alone and as the item of a list.
trait Printed {
    ghost shown: { Self → List ℕ };

    /// Appends the text.
    fn append_to(&self, text: &mut Vec<u8>) -> Result<(), AllocError>
        ensures { OnOk result (text.new.items ≡ text.old.items ++ shown self.now) };
}

impl Printed for Int {
    ghost shown = { signed_decimal };

    fn append_to(&self, text: &mut Vec<u8>) -> Result<(), AllocError> {
        text.extend_from_slice(Buffer::new().format(self.get()).as_bytes())
    }
}

impl Printed for Real {
    ghost shown = { decimal_of };

    fn append_to(&self, text: &mut Vec<u8>) -> Result<(), AllocError> {
        print(*self, text)
    }
}

impl Printed for Vec3 {
    ghost shown = { vector_text };

    fn append_to(&self, text: &mut Vec<u8>) -> Result<(), AllocError> {
        print(self.x, text)?;
        text.extend_from_slice(b" ")?;
        print(self.y, text)?;
        text.extend_from_slice(b" ")?;
        print(self.z, text)
    }
}

impl Printed for Text {
    ghost shown = { string_text };

    fn append_to(&self, text: &mut Vec<u8>) -> Result<(), AllocError> {
        write_string(self.as_str(), text)
    }
}

/// Appends the text of a value.
pub fn write_value(value: &ValueRef<'_>, text: &mut Vec<u8>) -> Result<(), AllocError>
    ensures { OnOk result (text.new.items ≡ text.old.items ++ value_text (value_seen value.now)) }
{
    match value {
        ValueRef::Int(n) => n.append_to(text),
        ValueRef::Real(x) => x.append_to(text),
        ValueRef::Vector(v) => v.append_to(text),
        ValueRef::Str(string) => write_string(string, text),
        ValueRef::Ints(list) => write_list_of(list.as_slice(), text),
        ValueRef::Reals(list) => write_list_of(list.as_slice(), text),
        ValueRef::Vectors(list) => write_list_of(list.as_slice(), text),
        ValueRef::Strs(list) => write_list_of(list.as_slice(), text),
    }
}

fn write_list_of<T: Printed>(items: &[T], text: &mut Vec<u8>) -> Result<(), AllocError>
    ensures { OnOk result (text.new.items ≡ text.old.items ++ list_of T.shown items.now) }
{
    text.extend_from_slice(b"[")?;
    write_joined(items, text)?;
    text.extend_from_slice(b"]")
}

/// The items with `, ` between them.
fn write_joined<T: Printed>(items: &[T], text: &mut Vec<u8>) -> Result<(), AllocError>
    ensures { OnOk result (text.new.items ≡ text.old.items ++ join_by T.shown (codes ", ") items.now) }
{
    match items {
        [] => Ok(()),
        [first, rest @ ..] => {
            first.append_to(text)?;
            write_following(rest, text)
        }
    }
}

/// The items, each behind `, `.
fn write_following<T: Printed>(items: &[T], text: &mut Vec<u8>) -> Result<(), AllocError>
    ensures { OnOk result (text.new.items ≡ text.old.items ++ flat_map (λ y. codes ", " ++ T.shown y) items.now) }
{
    for item in items {
        write_next(item, text)?;
    }
    Ok(())
}

fn write_next<T: Printed>(item: &T, text: &mut Vec<u8>) -> Result<(), AllocError>
    ensures { OnOk result (text.new.items ≡ text.old.items ++ (codes ", " ++ T.shown item.now)) }
{
    text.extend_from_slice(b", ")?;
    item.append_to(text)
}

fn write_string(string: &str, text: &mut Vec<u8>) -> Result<(), AllocError>
    ensures { OnOk result (text.new.items ≡ text.old.items ++ string_text string.now) }
{
    text.extend_from_slice(b"\"")?;
    write_bytes(string.as_bytes(), text)?;
    text.extend_from_slice(b"\"")
}

/// The bytes of a string, one by one.
fn write_bytes(bytes: &[u8], text: &mut Vec<u8>) -> Result<(), AllocError>
    ensures { OnOk result (text.new.items ≡ text.old.items ++ flat_map byte_text bytes.now) }
{
    for byte in bytes {
        write_byte(*byte, text)?;
    }
    Ok(())
}

fn write_byte(byte: u8, text: &mut Vec<u8>) -> Result<(), AllocError>
    ensures { OnOk result (text.new.items ≡ text.old.items ++ byte_text byte) }
{
    match byte {
        b'"' => text.extend_from_slice(b"\\\""),
        b'\\' => text.extend_from_slice(b"\\\\"),
        b'\n' => text.extend_from_slice(b"\\n"),
        0..=31 | 127 => write_hexadecimal(byte, text),
        _ => Ok(text.push(byte)?),
    }
}

fn write_hexadecimal(byte: u8, text: &mut Vec<u8>) -> Result<(), AllocError>
    ensures { OnOk result (text.new.items ≡ text.old.items ++ hexadecimal_text byte) }
{
    text.extend_from_slice(b"\\x")?;
    text.push(hexadecimal_digit(byte / 16))?;
    text.push(hexadecimal_digit(byte % 16))?;
    Ok(())
}

fn hexadecimal_digit(number: u8) -> u8
    requires { number < 16 }
    ensures { result ≡ digit_glyph false number }
{
    if number < 10 {
        b'0' + number
    } else {
        b'a' + (number - 10)
    }
}
