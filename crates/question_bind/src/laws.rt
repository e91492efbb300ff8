ghost use Rattle.std.specs.Prelude.{◌≡◌, ℕ, List, Result};
ghost use Rattle.bind_faults.specs.declared.fault.BindFault.{BindFault};
ghost use Rattle.spec_model.specs.declared.question.Question.{Question};
ghost use Rattle.spec_model.specs.declared.relation.Relation.{Relation};
ghost use Rattle.question_syntax.specs.declared.trees.QuestionTree.{QuestionTree};
ghost use Rattle.question_bind.specs.Bound.{IsQuestionBound};

use table_bind::one_table;

/// A law: documents, relations and a question's tree have one outcome at most.
pub fn one_bound_question()
    ensures { (told : List (List ℕ × List ℕ)) (relations : List Relation) (tree : QuestionTree) (a b : Result Question BindFault)
        → IsQuestionBound told relations tree a → IsQuestionBound told relations tree b → a ≡ b }
{
    one_table();
}
