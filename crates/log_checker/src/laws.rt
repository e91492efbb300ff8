ghost use Rattle.std.specs.Prelude.{◌≡◌, Option};
ghost use Rattle.spec_model.specs.Spec.{Spec};
ghost use Rattle.query_model.specs.declared.query.Query.{Query};
ghost use Rattle.refutation_log.specs.declared.log.Log.{Log};
ghost use Rattle.log_checker.specs.Accepted.{IsAccepted, IsFirstFault};
ghost use Rattle.log_checker.specs.declared.fault.LogFault.{LogFault};

/// A law: what becomes of a log is determined. One that is accepted has nothing that fails first, and two
/// faults that come first are the same one.
pub fn one_verdict_on_a_log()
    ensures accepted { (s : Spec) (query : Option Query) (log : Log) (fault : LogFault)
        → IsAccepted s query log → IsFirstFault s query log fault → ⊥ }
    ensures refused { (s : Spec) (query : Option Query) (log : Log) (one other : LogFault)
        → IsFirstFault s query log one → IsFirstFault s query log other → one ≡ other }
{}
