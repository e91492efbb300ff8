ghost use Rattle.part_whole.specs.Laws.{WholeParts};

use part_laws::parts_narrow;

/// A law: the part of all entities has the consistent completions that the specification has.
pub fn whole_parts()
    ensures { WholeParts }
{
    parts_narrow();
}
