// A choice between two values: a branch in one place, so that a caller stays a straight line.
ghost use Rattle.std.specs.Prelude.{◌≡◌, if◌then◌else◌};

pub fn pick<T: Copy>(c: bool, a: T, b: T) -> T
    ensures { result ≡ (if c then a else b) }
{
    if c { a } else { b }
}
