//! Fixed-point numbers: whole numbers of millionths, 32-bit whole numbers, vectors, and their numerals.
#![tactic(auto)]

pub mod digits;
pub mod fault;
pub mod int;
pub mod numeral;
pub mod real;
mod sizes;
mod square_root;
pub mod vec3;
pub mod whole;

pub use digits::{MOST_DIGITS, are_digits, read_digits, read_number};
pub use fault::{NumFault, NumeralFault};
pub use int::{Int, LARGEST_INT, SMALLEST_INT};
pub use numeral::{print, read_numeral};
pub use real::{LARGEST_SIZE, Real, UNIT, limits_are_as_defined};
pub use vec3::Vec3;
pub use whole::read_whole;

#[cfg(test)]
mod tests;
