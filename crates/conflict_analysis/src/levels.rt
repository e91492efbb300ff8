ghost use Rattle.std.specs.Prelude.{◌≡◌, ◌<◌, length};
ghost use Rattle.search_trail.specs.Trails.{level_at};

use search_trail::Trail;

/// The level of the literal at a place.
pub(crate) fn level_at(trail: &Trail, place: u32) -> u32
    requires { place < length trail.now.entries }
    ensures { result ≡ level_at trail.now place }
{
    trail.are_entries();
    trail.level(trail.assigned()[place as usize].var())
}
