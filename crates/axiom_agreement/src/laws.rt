ghost use Rattle.axiom_agreement.specs.Agreement.{StepsAreAxioms, ClausesAreAxioms, AxiomsAreWhole, OrdersAgree, ValuesAgree};

/// Laws: a step that is made as the axiom of a label has, for the judge, the clause of that label, whatever is posed; a
/// label of anything but a match that has a clause for the judge has one for those who make axioms; and the axioms that
/// are brought in from the start have each that the judge knows of given pairs, rules and copy functions.
pub fn axioms_agree()
    ensures made { StepsAreAxioms }
    ensures judged { ClausesAreAxioms }
    ensures whole { AxiomsAreWhole }
{}

/// Laws: a literal that is made to say which of two rows stands before the other, or that the value of a row is
/// current, says so for the judge.
pub fn literals_agree()
    ensures orders { OrdersAgree }
    ensures values { ValuesAgree }
{}
