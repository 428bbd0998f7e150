// Storing bytes into a lent buffer, wholly or not at all.
ghost use Rattle.std.specs.Prelude.{◌≡◌};
ghost use Rattle.wire.specs.Put.{fits, stored};

// Stores `text` from place `at` on where it fits wholly, else nothing; says whether it did.
#[tactic(auto, using(crate::proofs::StoreLaws::storing))]
pub fn put_at(out: &mut [u8], at: usize, text: &[u8]) -> bool
    ensures value { result ≡ fits at text.now out.old }
    ensures out_after { out.new ≡ stored at text.now out.old }
{
    let length = text.len();
    let room = out.len();
    if room < length || room - length < at {
        return false;
    }
    out[at..at + length].copy_from_slice(text);
    true
}
