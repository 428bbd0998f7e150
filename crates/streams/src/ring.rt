// A ring of `N` pulses: where its oldest stands, and what it holds.
ghost use Rattle.std.specs.Prelude.{◌≡◌, ◌<◌, ◌≤◌};
ghost use Rattle.streams.specs.Stream.{place_of, unrolled};

use wire::put::put_at;

// The place that a number stands for: from `N` on the first.
pub fn place_of<const N: usize>(next: usize) -> usize
    ensures place { result ≡ place_of N next }
    ensures within { 0 < N → result < N }
    ensures upper_bound { result ≤ N }
{
    if next < N {
        return next;
    }
    0
}

// The pulses of a ring whose oldest stands at the place of a number, the oldest first.
pub fn unrolled<const N: usize>(ring: &[u8; N], next: usize) -> [u8; N]
    ensures { result ≡ unrolled ring.now (place_of N next) }
{
    let oldest = place_of::<N>(next);
    let pulses = &ring[..];
    let mut window = [255u8; N];
    put_at(&mut window, 0, &pulses[oldest..]);
    put_at(&mut window, N - oldest, &pulses[..oldest]);
    window
}
