// Numbers of inputs.
ghost use Rattle.std.specs.Prelude.{◌≡◌, ◌<◌, ◌≤◌, ℕ, IfSome, IfNone, Some};
ghost use Rattle.sop_net.specs.Steps.{input_of_text};

use crate::limits::MOST_INPUT_DIGITS;
use sop_fixed::read_number;

/// The number that one or two digits say, where it is below the number of inputs.
pub fn input_below(text: &[u8], inputs: usize) -> Option<usize>
    ensures some { IfSome result (λ input. (input_of_text text.now ≡ Some input) × (input < inputs)) }
    ensures none { IfNone result ((input : ℕ) → input_of_text text.now ≡ Some input → inputs ≤ input) }
{
    match read_number(text, MOST_INPUT_DIGITS) {
        Some(input) if input < inputs as u64 => Some(input as usize),
        _ => None,
    }
}
