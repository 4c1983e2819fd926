//! Why an operation or a text gives no number.

/// Why an operation on numbers has no result.
#[derive(Clone, Copy, Debug, PartialEq, Eq)]
pub enum NumFault {
    /// The result lies outside the type's range.
    Range,
    /// The divisor is zero.
    DivZero,
}

/// Why a text is no number.
#[derive(Clone, Copy, Debug, PartialEq, Eq)]
pub enum NumeralFault {
    /// The text hasn't the form of a numeral.
    NotNumeral,
    /// The text says a number outside the type's range: of a numeral the rounded number is no
    /// [`Real`](crate::real::Real), of a whole number it is no [`Int`](crate::int::Int).
    OutOfRange,
}
