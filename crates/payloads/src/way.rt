// What becomes of a string's coasting mark, where a payload names it.
ghost use Rattle.std.specs.Prelude.{◌≡◌, Some, None, cond};
ghost use Rattle.payloads.specs.Payload.{names_way, way_in};

use bridge::Coasting;
use wire::layout::byte_at;

#[tactic(auto, unfolding(crate::specs::Payload::names_way, crate::specs::Payload::way_in))]
pub fn way_in(payload: &[u8]) -> Option<Coasting>
    ensures { result ≡ cond (names_way payload.now) (Some (way_in payload.now)) None }
{
    match byte_at(payload, 1) {
        1 => Some(Coasting::Worse),
        2 => Some(Coasting::Dropped),
        _ => None,
    }
}
