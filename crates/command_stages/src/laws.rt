ghost use Rattle.std.specs.Prelude.{◌≡◌, ℕ, List, Result};
ghost use Rattle.command_stages.specs.Stages.{IsSpecRead, IsQuestionRead, IsQuestionTree};
ghost use Rattle.command_stages.specs.declared.trouble.Trouble.{Trouble};
ghost use Rattle.question_syntax.specs.declared.trees.QuestionTree.{QuestionTree};
ghost use Rattle.spec_model.specs.Spec.{Spec};
ghost use Rattle.spec_model.specs.declared.question.Question.{Question};
ghost use Rattle.spec_model.specs.declared.relation.Relation.{Relation};

use question_bind::one_bound_question;
use question_syntax::one_question;
use spec_bind::one_outcome;
use spec_syntax::one_specification;

/// A law: a told document is read as one specification, and as one question on the relations of one; and the text of a question
/// has one tree.
pub fn one_read()
    ensures specs { (told : List (List ℕ × List ℕ)) (name : List ℕ) (a b : Result Spec Trouble)
        → IsSpecRead told name a → IsSpecRead told name b → a ≡ b }
    ensures trees { (name bytes : List ℕ) (a b : Result QuestionTree Trouble)
        → IsQuestionTree name bytes a → IsQuestionTree name bytes b → a ≡ b }
    ensures questions { (told : List (List ℕ × List ℕ)) (relations : List Relation) (name : List ℕ)
        (a b : Result Question Trouble)
        → IsQuestionRead told relations name a → IsQuestionRead told relations name b → a ≡ b }
{
    one_specification();
    one_question();
    one_outcome();
    one_bound_question();
}
