// How many records are whole.
ghost use Rattle.std.specs.Prelude.{◌*◌, ◌/◌, min, ◌≡◌};

// As many bytes as there are whole records in both of two lengths.
pub fn whole_in_both(a: usize, b: usize) -> usize
    ensures { result ≡ min (a / 16) (b / 16) * 16 }
{
    a.min(b) / 16 * 16
}
