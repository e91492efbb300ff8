ghost use Rattle.match_premises.specs.Borne.{HeadsAreOfValues, PremisesMakeMatches};

/// Laws: where all that an atom claims of an entity holds in a completion, the entity's current tuple is one that the
/// atom's terms fit; and a head's tuple is the values of its variables.
pub fn premises_make_matches()
    ensures atoms { PremisesMakeMatches }
    ensures heads { HeadsAreOfValues }
{}
