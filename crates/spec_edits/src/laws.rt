ghost use Rattle.std.specs.Prelude.{◌≡◌, List, Ok};
ghost use Rattle.spec_model.specs.Completion.{HasShape, Rankings};
ghost use Rattle.spec_model.specs.Questions.{IsQuestionOn};
ghost use Rattle.spec_model.specs.Spec.{Spec};
ghost use Rattle.spec_model.specs.declared.question.Question.{Question};
ghost use Rattle.spec_model.specs.declared.relation.Relation.{Relation};
ghost use Rattle.spec_edits.specs.Kept.{AreSameButGiven};
ghost use Rattle.spec_edits.specs.Edits.{edited};
ghost use Rattle.spec_edits.specs.declared.edit.Edit.{Edit};

/// A law: an edit keeps the relations but for their given pairs, so what has their shape keeps it, and a question that can be
/// asked of them can still be asked.
pub fn shapes_are_kept()
    ensures kept { (s t : Spec) (edit : Edit) → edited s edit ≡ Ok t → AreSameButGiven s.relations t.relations }
    ensures shapes { (old new : List Relation) (c : Rankings) → AreSameButGiven old new → HasShape old c → HasShape new c }
    ensures questions { (old new : List Relation) (question : Question) → AreSameButGiven old new
        → IsQuestionOn old question → IsQuestionOn new question }
{}
