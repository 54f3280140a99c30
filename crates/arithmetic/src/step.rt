// The Rust's `overflowing_add` (laws: specs/SmallSteps.antt), as one fact of its sum and its carry.
ghost use Rattle.std.specs.Prelude.{◌≡◌};
ghost use Rattle.arithmetic.specs.SmallSteps.{carried_of};

// A sum within 16 bits, and whether it left them. Beside std's method, whose clause says sum and carry apart: here they are the paper's
// one equation.
pub fn overflowing_add16(a: u16, b: u16) -> (u16, bool)
    ensures { record { sum = result.0; carry = result.1 } ≡ carried_of a b }
{
    a.overflowing_add(b)
}
