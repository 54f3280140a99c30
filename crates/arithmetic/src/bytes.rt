// A part of a run of bytes.
ghost use Rattle.std.specs.Prelude.{◌≡◌, ◌+◌, ◌≤◌, length};
ghost use Rattle.arithmetic.specs.Number.{bytes_at};

// `N` bytes from `k` on.
#[tactic(auto, using(crate::proofs::Copied::between_bytes))]
pub fn bytes_at<const N: usize>(b: &[u8], k: usize) -> [u8; N]
    requires { k + N ≤ length b.now }
    ensures { result ≡ bytes_at b.now k N }
{
    let mut part = [0; N];
    part.copy_from_slice(&b[k..k + N]);
    part
}
