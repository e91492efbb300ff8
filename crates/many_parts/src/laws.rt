ghost use Rattle.many_parts.specs.ManyParts.{PairsAreCertain, PairsArePossible, PartsAreConsistent, PartsAreInconsistent, PartsExtend, ValuesAreCertain, ValuesArePossible};

use part_join::completions_fit;
use part_laws::{parts_keep_facts, parts_narrow};
use part_narrow::narrows_exist;

/// Laws, consistent: a specification has a consistent completion exactly where each of its parts has one; where some part has
/// none, all is certain in the specification.
pub fn parts_are_consistent()
    ensures consistent { PartsAreConsistent }
    ensures inconsistent { PartsAreInconsistent }
{
    parts_narrow();
    narrows_exist();
    completions_fit();
}

/// A law, extending: where each part has a consistent completion, each one of a part is what some one of the specification says
/// of its rows.
pub fn parts_extend()
    ensures { PartsExtend }
{
    completions_fit();
}

/// Laws of pairs: where each part has a consistent completion, a pair of a part's rows is certain, or possible, in the part
/// exactly where it is in the specification.
pub fn parts_keep_pairs()
    ensures certain { PairsAreCertain }
    ensures possible { PairsArePossible }
{
    parts_narrow();
    narrows_exist();
    parts_keep_facts();
    parts_extend();
}

/// Laws of values: where each part has a consistent completion, a current value of a part's entity is certain, or possible, in
/// the part exactly where it is in the specification.
pub fn parts_keep_values()
    ensures certain { ValuesAreCertain }
    ensures possible { ValuesArePossible }
{
    parts_narrow();
    narrows_exist();
    parts_keep_facts();
    parts_extend();
}
