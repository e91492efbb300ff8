// A look at a report that spares a judgement.

ghost use Rattle.std.specs.Prelude.{◌≡◌, All, false, true};
ghost use Rattle.std.specs.List.{list_any};
ghost use Rattle.currency_session.specs.Looks.{is_on, names_first};
ghost use Rattle.currency_session.specs.Sessions.{IsKeptReport};
ghost use Rattle.report_verify.specs.Shown.{ShowsVerdict};
ghost use Rattle.spec_model.specs.Consistent.{IsConsistent};
ghost use Rattle.spec_model.specs.Spec.{Spec};

use edit_checks::breaks_given;
use refutation_log::Statement;
use report_model::{Report, Verdict};
use spec_model::{Asked, AskedList, Question, Specification};

/// Is it left open whether a report shows its verdict for a question, whatever the specification? Not where asked pairs are
/// said to be certain, and no statement of its log is on the first of them. Takes time in proportion to the log's statements.
pub(crate) fn may_show(question: &Question, report: &Report) -> bool
    ensures { result ≡ false → (s : Spec) → ShowsVerdict s question.now report.now → ⊥ }
{
    match &report.verdict {
        Verdict::Certain => match question {
            Question::Certain(pairs) => names_first(report.log.statements.as_slice(), pairs),
            _ => true,
        },
        _ => true,
    }
}

/// Is a pair given that the first completion of a report has turned round? Then not all that it lists are consistent. Takes
/// time in proportion to the rows of the pair's entity.
pub(crate) fn has_turned(spec: &Specification, turned: Option<Asked>, report: &Report) -> bool
    requires { IsKeptReport spec.now.relations report.now }
    ensures { result ≡ true → All (IsConsistent spec.now) report.now.completions → ⊥ }
{
    if report.completions.len() == 0 {
        return false;
    }
    match turned {
        Some(pair) => breaks_given(spec, pair, report.completions.get(0)),
        None => false,
    }
}

/// Is one of these statements on the first of the pairs, if there is one?
fn names_first(statements: &[Statement], pairs: &AskedList) -> bool
    ensures { result ≡ names_first statements.now pairs.now }
{
    if pairs.len() == 0 {
        return true;
    }
    names(statements, *pairs.get(0))
}

/// Is one of these statements on a pair?
fn names(statements: &[Statement], pair: Asked) -> bool
    ensures { result ≡ list_any (is_on pair) statements.now }
{
    statements.iter().any(|statement| is_on(pair, *statement))
}

/// Does a statement say of the rows of a pair which of them stands before the other?
fn is_on(pair: Asked, statement: Statement) -> bool
    ensures { result ≡ is_on pair statement }
{
    match statement {
        Statement::Before {
            rel,
            attr,
            earlier,
            later,
        } => {
            rel.0 == pair.rel.0
                && attr.0 == pair.pair.attr.0
                && ((earlier.0 == pair.pair.earlier.0 && later.0 == pair.pair.later.0)
                    || (earlier.0 == pair.pair.later.0 && later.0 == pair.pair.earlier.0))
        }
        _ => false,
    }
}
