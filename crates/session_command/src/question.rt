// Questions of a session.

ghost use Rattle.std.specs.Prelude.{◌≡◌, ◌⊎◌, ◌≤◌, ◌++◌, ℕ, List, false, not, Err, IfErr, IfOk, IfSome};
ghost use Rattle.answer_texts.specs.Answers.{answer_text};
ghost use Rattle.command_stages.specs.Named.{IsDeterminedTrouble, IsReadFault, IsReadFaultOf};
ghost use Rattle.command_stages.specs.Stages.{bind_trouble};
ghost use Rattle.currency_edge.specs.Fault.{Rose};
ghost use Rattle.question_bind.specs.Bound.{IsQuestionTableDue};
ghost use Rattle.report_model.specs.Verdicts.{is_decided, kind_of};
ghost use Rattle.report_write.specs.Writable.{IsWritableReport};
ghost use Rattle.spec_model.specs.Questions.{IsQuestionOn};
ghost use Rattle.session_command.specs.Sessions.{session_said};
ghost use Rattle.session_command.specs.Steps.{IsReplyTold, IsTooMany, IsWritableReply, step_of};
ghost use Rattle.session_command.specs.Texts.{limit_line, reply_text, trouble_line};
ghost use Rattle.session_command.specs.Transcripts.{HasTooManyAnswers, IsAsked, IsReplied};

use crate::telling::{Told, append, limit_line, reply_text, trouble_line};
use answer_texts::printed_report;
use bind_faults::BindFault;
use command_stages::{Done, Trouble, of_binding};
use currency_ask::AskFault;
use currency_base::{ByteList, NoMemory};
use currency_edge::Shelf;
use currency_session::{Reply, Session};
use program_words::Session as Asked;
use question_bind::bind_question;
use question_syntax::QuestionTree;
use report_model::Report;
use solver_guides::Guides;
use spec_model::{Question, Specification};
use std::alloc::Global;

/// What is told of a question whose entry stands at this line: the reply, or that a query has too many answers, or why the
/// question is refused. A table that cannot be read, and want of memory, are the run's.
pub(crate) fn run_question<S: Shelf>(
    alloc: Global,
    shelf: &mut S,
    asked: &Asked<'_>,
    session: &mut Session,
    line: u32,
    tree: &QuestionTree,
    guides: &mut Guides,
) -> Result<Told, Trouble>
    requires budget { asked.now.budget ≤ 10000000 }
    ensures kept { S.texts shelf.new ≡ S.texts shelf.old }
    ensures later { S.faults shelf.old ≤ S.faults shelf.new }
    ensures asked { IfOk result (λ t. IfSome (S.texts shelf.old) (λ told. IsAsked told (session_said asked.now) session.old line
        tree.now (step_of t session.new))) }
    ensures spec { session.new.spec ≡ session.old.spec }
    ensures outside { IfErr result (λ e. IsDeterminedTrouble e → ⊥) }
    ensures read_fault { IsReadFault result → Rose (S.faults shelf.old) (S.faults shelf.new) }
    ensures unread { (n : List ℕ) → IsReadFaultOf result n
        → IfSome (S.texts shelf.old) (λ told. IsQuestionTableDue told session.old.spec.relations tree.now n) }
{
    match bind_question(alloc, session.spec(), tree, shelf) {
        Ok(question) => match replied(alloc, asked, session, line, &question, guides) {
            Ok(told) => Ok(told),
            Err(NoMemory) => Err(Trouble::NoMemory),
        },
        Err(fault) => question_refused(alloc, asked.script, line, fault),
    }
}

// ---- refusals

/// What is told of a question that is refused.
fn question_refused(
    alloc: Global,
    script: &str,
    line: u32,
    fault: BindFault,
) -> Result<Told, Trouble>
    ensures line { IfOk result (λ t. t ≡ record { text = trouble_line line (bind_trouble script.now fault); undecided = false }) }
    ensures determined { IfOk result (λ t. IsDeterminedTrouble (bind_trouble script.now fault)) }
    ensures outside { IfErr result (λ e. IsDeterminedTrouble e → ⊥) }
    ensures due { IfErr result (λ e. (e ≡ Trouble.NoMemory) ⊎ (e ≡ bind_trouble script.now fault)) }
{
    match of_binding(alloc, script, fault) {
        Trouble::NoMemory => Err(Trouble::NoMemory),
        Trouble::ReadFault(document) => Err(Trouble::ReadFault(document)),
        trouble => told_trouble(alloc, line, &trouble),
    }
}

/// What is told of a trouble.
fn told_trouble(alloc: Global, line: u32, trouble: &Trouble) -> Result<Told, Trouble>
    ensures line { IfOk result (λ t. t ≡ record { text = trouble_line line trouble.now; undecided = false }) }
    ensures memory { IfErr result (λ e. e ≡ Trouble.NoMemory) }
{
    match trouble_line(alloc, line, trouble) {
        Ok(text) => Ok(Told {
            text,
            undecided: false,
        }),
        Err(_) => Err(Trouble::NoMemory),
    }
}

// ---- replies

/// What is told of a question on the specification as it is now.
fn replied(
    alloc: Global,
    asked: &Asked<'_>,
    session: &mut Session,
    line: u32,
    question: &Question,
    guides: &mut Guides,
) -> Result<Told, NoMemory>
    requires { IsQuestionOn session.old.spec.relations question.now }
    ensures told { IfOk result (λ t. IsReplied (session_said asked.now) session.old line question.now (step_of t session.new)
        ⊎ HasTooManyAnswers (session_said asked.now) session.old line question.now (step_of t session.new)) }
    ensures spec { session.new.spec ≡ session.old.spec }
{
    match session.ask(alloc, question, asked.budget, guides) {
        Ok(reply) => {
            // What is kept can be written.
            let _ = session.kept();
            told_reply(alloc, session, asked.brief, line, &reply)
        }
        Err(fault) => told_fault(alloc, line, fault),
    }
}

/// What is told of a query that has more answers than are gone through.
fn told_fault(alloc: Global, line: u32, fault: AskFault) -> Result<Told, NoMemory>
    ensures line { IfOk result (λ t. t ≡ record { text = limit_line 3 line; undecided = false }) }
    ensures fault { IfOk result (λ t. IsTooMany fault) }
{
    match fault {
        AskFault::TooMany(_) => Ok(Told {
            text: limit_line(alloc, 3, line)?,
            undecided: false,
        }),
        AskFault::NoMemory => Err(NoMemory),
    }
}

/// What is told of a reply: its report, which is the kept one at its place, or the one that is handed out.
fn told_reply(
    alloc: Global,
    session: &Session,
    brief: bool,
    line: u32,
    reply: &Reply,
) -> Result<Told, NoMemory>
    requires { IsWritableReply session.now reply.now }
    ensures { IfOk result (IsReplyTold session.now brief line reply.now) }
{
    match reply {
        Reply::Kept(place) => told_kept(alloc, session, brief, line, *place),
        Reply::Open(report) => told_report(alloc, session.spec(), brief, line, report),
    }
}

/// What is told of the kept report at a place.
fn told_kept(
    alloc: Global,
    session: &Session,
    brief: bool,
    line: u32,
    place: usize,
) -> Result<Told, NoMemory>
    requires { IsWritableReply session.now (Reply.Kept place) }
    ensures { IfOk result (IsReplyTold session.now brief line (Reply.Kept place)) }
{
    told_report(alloc, session.spec(), brief, line, &session.kept()[place])
}

/// What is told of a report.
fn told_report(
    alloc: Global,
    spec: &Specification,
    brief: bool,
    line: u32,
    report: &Report,
) -> Result<Told, NoMemory>
    requires { IsWritableReport spec.now.relations report.now }
    ensures text { IfOk result (λ t. t.text ≡ reply_text line ++ answer_text spec.now.relations brief report.now) }
    ensures decided { IfOk result (λ t. t.undecided ≡ not (is_decided (kind_of report.now.verdict))) }
{
    let front = reply_text(alloc, line)?;
    let text = with_report(alloc, spec, brief, report, front)?;
    Ok(Told {
        text,
        undecided: !report.verdict.kind().is_decided(),
    })
}

/// These bytes and then the text of a report.
fn with_report(
    alloc: Global,
    spec: &Specification,
    brief: bool,
    report: &Report,
    front: ByteList,
) -> Result<ByteList, NoMemory>
    requires { IsWritableReport spec.now.relations report.now }
    ensures { IfOk result (λ text. text ≡ front ++ answer_text spec.now.relations brief report.now) }
{
    match printed_report(alloc, spec, brief, report) {
        Ok(Done { text, .. }) => {
            let mut all = front;
            append(&mut all, text.as_slice())?;
            Ok(all)
        }
        Err(_) => Err(NoMemory),
    }
}
