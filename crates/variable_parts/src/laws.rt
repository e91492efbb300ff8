ghost use Rattle.variable_parts.specs.Laws.{AnswersHaveNone, AxiomsStayInParts, PartsAreDisjoint, StepsStayInParts, VariablesHaveParts};

/// Laws: each axiom of a specification lies in one of its smallest closed parts, and so do the variables of its literals.
pub fn axioms_stay_in_parts()
    ensures statements { AxiomsStayInParts }
    ensures steps { StepsStayInParts }
{}

/// Laws: no variable is of two parts, each whose statement is on no answer is of one, and the others are of none.
pub fn variables_have_parts()
    ensures disjoint { PartsAreDisjoint }
    ensures each { VariablesHaveParts }
    ensures answers { AnswersHaveNone }
{}
