ghost use Rattle.std.specs.Prelude.{◌≡◌, [], Ok, IfErr, IfOk, OnErr, OnOk};
ghost use Rattle.currency_session.specs.Sessions.{AreKept, IsRightReply, NoneShows, Replies};
ghost use Rattle.search_logs.specs.SearchLogs.{IsWithin};
ghost use Rattle.spec_edits.specs.Edits.{IsDueOf, IsEditOf, IsRefused, IsWithdrawal, edited};
ghost use Rattle.spec_model.specs.Questions.{IsQuestionOn};

use crate::Reply;
use crate::asking::{first_shown, searched};
use crate::keeping::put;
use crate::knowing::edit_known;
use crate::start::Start;
use currency_ask::AskFault;
use currency_base::NoMemory;
use report_model::Report;
use report_verify::shown_is_right;
use solver_guides::Guides;
use spec_edits::{Edit, EditFault, EditedSpec};
use spec_model::{Question, Specification};
use std::alloc::Global;
use std::marker::Model;

/// A specification that is edited and asked, with up to four reports of decided answers, the oldest first, and how often one
/// of these was the reply.
#[derive(Drop)]
pub struct Session {
    edited: EditedSpec,
    kept: Vec<Report>,
    start: Start,
    reused: u64,
}

impl Model for Session {
    ghost use Rattle.currency_session.specs.Sessions.{IsHeld, Session as Sessions};

    ghost Value = { Sessions };

    ghost view = { λ s. record { spec = s.edited; kept = s.kept.items; reused = s.reused } };

    ghost invariant = { λ s. IsHeld s.edited s.kept.items s.start };
}

impl Session {
    /// A session over a specification within its limits: no report is kept, and none was the reply.
    pub fn new(alloc: Global, spec: Specification) -> Result<Session, NoMemory>
        requires { IsWithin spec }
        ensures { IfOk result (λ s. s ≡ record { spec = spec; kept = []; reused = 0 }) }
    {
        match EditedSpec::new(alloc, spec) {
            Ok(edited) => Ok(Session {
                edited,
                kept: Vec::new(alloc),
                start: Start {
                    known: None,
                    lost: None,
                    turned: None,
                },
                reused: 0,
            }),
            Err(error) => Err(error),
        }
    }

    /// The specification as it is now. Takes no memory.
    pub fn spec(&self) -> &Specification
        ensures value { result.now ≡ self.now.spec }
        ensures within { IsWithin self.now.spec }
    {
        is_within(&self.edited);
        self.edited.spec()
    }

    /// Does an edit of the specification, as `EditedSpec::edit` does, and leaves the kept reports and the count. A refusal
    /// changes nothing. A withdrawal takes no memory, and no limit refuses it. Of a known completion it is seen whether it
    /// has an added pair, or an added copied row in its source row's order, or satisfies an added rule, and a withdrawal
    /// keeps it; one that has not the pair or the row is put aside, to be mended, and one that does not satisfy the rule is
    /// dropped.
    pub fn edit(&mut self, alloc: Global, edit: Edit) -> Result<(), EditFault>
        requires { IsEditOf self.old.spec edit }
        ensures ok { OnOk result (edited self.old.spec edit ≡ Ok self.new.spec) }
        ensures due { IfErr result (IsRefused self.old.spec edit) }
        ensures withdrawal { IsWithdrawal edit → IfErr result (IsDueOf self.old.spec edit) }
        ensures err { OnErr result (self.new ≡ self.old) }
        ensures kept { self.new.kept ≡ self.old.kept }
        ensures reused { self.new.reused ≡ self.old.reused }
    {
        edit_known(alloc, &mut self.edited, &mut self.start, edit)
    }

    /// The reports that are kept, oldest first. Takes no memory.
    pub fn kept(&self) -> &[Report]
        ensures value { result.now ≡ self.now.kept }
        ensures facts { AreKept self.now.spec.relations self.now.kept }
    {
        self.kept.as_slice()
    }

    /// How often a kept report was the reply; 18446744073709551615 stands for that and more. Takes no memory.
    pub fn reused(&self) -> u64
        ensures { result ≡ self.now.reused }
    {
        self.reused
    }

    /// Answers a question about the specification as it is now: with the first kept report that shows its verdict for it, as
    /// `verify` sees, or else by a search within a budget, which begins from a consistent completion where one is known or
    /// one that an added pair or copied row broke can be mended within the budget. A
    /// decided reply of a search is kept, after the oldest was dropped where there are four. A refusal changes nothing.
    pub fn ask(
        &mut self,
        alloc: Global,
        question: &Question,
        budget: u64,
        guides: &mut Guides,
    ) -> Result<Reply, AskFault>
        requires { IsQuestionOn self.old.spec.relations question.now }
        ensures replies { Replies self.old self.new question.now budget result }
        ensures right { IfOk result (IsRightReply self.old.spec question.now self.new) }
    {
        shown_is_right();
        is_within(&self.edited);
        self.replied(alloc, question, budget, guides)
    }

    // The same, and nothing of what follows from it.
    fn replied(
        &mut self,
        alloc: Global,
        question: &Question,
        budget: u64,
        guides: &mut Guides,
    ) -> Result<Reply, AskFault>
        requires { IsQuestionOn self.old.spec.relations question.now }
        ensures { Replies self.old self.new question.now budget result }
    {
        match first_shown(
            alloc,
            self.edited.spec(),
            question,
            self.start.turned,
            self.kept.as_slice(),
        ) {
            Ok(Some(place)) => {
                self.reused = self.reused.saturating_add(1);
                Ok(Reply::Kept(place))
            }
            Ok(None) => self.newly(alloc, question, budget, guides),
            Err(_) => Err(AskFault::NoMemory),
        }
    }

    // The reply by a search, where no kept report shows its verdict.
    fn newly(
        &mut self,
        alloc: Global,
        question: &Question,
        budget: u64,
        guides: &mut Guides,
    ) -> Result<Reply, AskFault>
        requires question { IsQuestionOn self.old.spec.relations question.now }
        requires none { NoneShows self.old.spec question.now self.old.kept }
        ensures { Replies self.old self.new question.now budget result }
    {
        is_within(&self.edited);
        match searched(
            alloc,
            self.edited.spec(),
            question,
            &mut self.start,
            self.kept.as_slice(),
            budget,
            guides,
        ) {
            Ok(report) => match put(&mut self.kept, report) {
                Ok(reply) => Ok(reply),
                Err(_) => Err(AskFault::NoMemory),
            },
            Err(fault) => Err(fault),
        }
    }
}

// A law: the specification is within its limits.
fn is_within(edited: &EditedSpec)
    ensures { IsWithin edited.now }
{
    let spec = edited.spec();
    let _ = spec.relations();
    let _ = spec.rules();
    let _ = spec.copies();
}
