ghost use Rattle.std.specs.Prelude.{◌≡◌, ℕ, List};
ghost use Rattle.spec_syntax.specs.Texts.{ReadsSpec};
ghost use Rattle.spec_syntax.specs.declared.trees.SpecTree.{SpecTree};
ghost use Rattle.text_write.specs.Pieces.{text_of};
ghost use Rattle.spec_write.specs.Pieces.{spec_pieces};
ghost use Rattle.spec_write.specs.Unlined.{unlined_spec};

use text_write::{
    name_is_piece, name_is_read, pieces_are_tokens, string_is_piece, string_is_read,
    value_is_piece, value_is_read,
};

/// A law: what is written of a tree that some text is read as is read as the same tree, its lines aside.
pub fn written_is_read()
    ensures { (source : List ℕ) (tree : SpecTree) → ReadsSpec source tree
        → (read : SpecTree) × ReadsSpec (text_of (spec_pieces tree)) read × (unlined_spec read ≡ unlined_spec tree) }
{
    pieces_are_tokens();
    name_is_read();
    string_is_read();
    value_is_read();
    name_is_piece();
    string_is_piece();
    value_is_piece();
}
