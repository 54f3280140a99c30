// Runs of bytes.
ghost use Rattle.std.specs.Prelude.{◌≡◌, ◌+◌, ◌≤◌, length, ◌&&◌};
ghost use Rattle.std.proofs.lemmas.List.Edits.{sets};
ghost use Rattle.arithmetic.specs.Number.{same_bytes, same_from};

// `part` goes into `out` from `at` on.
#[tactic(auto, using(crate::proofs::Runs::placed))]
pub(crate) fn place(out: &mut [u8; 248], at: usize, part: &[u8])
    requires { at + length part.now ≤ 248 }
    ensures { out.new ≡ sets out.old at part.now }
{
    out[at..at + part.len()].copy_from_slice(part);
}

// The bytes from `from` to `to`, after those in front of them came out as `so_far`. No exit at the first difference: a loop of
// one shape is fast.
fn same_between(a: [u8; 248], b: [u8; 248], from: usize, to: usize, so_far: bool) -> bool
    requires { (from ≤ to) × (to ≤ 248) }
    ensures { (so_far && same_from from a b) ≡ (result && same_from to a b) }
{
    let mut equal = so_far;
    for i in from..to {
        equal &= a[i] == b[i];
    }
    equal
}

// Speed: short runs over the bytes that fields are written to, which the compiler unrolls, so that what a number is written as folds
// away against what it was read from. As `a == b` a `decode` and an `encode` took 2.2 times the time. The rest is zeros.
pub(crate) fn same(a: [u8; 248], b: [u8; 248]) -> bool
    ensures { result ≡ same_bytes a b }
{
    let first = same_between(a, b, 0, 16, true);
    let second = same_between(a, b, 16, 32, first);
    let third = same_between(a, b, 32, 48, second);
    let fourth = same_between(a, b, 48, 64, third);
    let fifth = same_between(a, b, 64, 80, fourth);
    let sixth = same_between(a, b, 80, 96, fifth);
    same_between(a, b, 96, 248, sixth)
}
