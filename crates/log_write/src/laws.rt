ghost use Rattle.refutation_log.specs.declared.log.Log.{Log};
ghost use Rattle.text_grammar.specs.Texts.{ReadsText};
ghost use Rattle.text_write.specs.Pieces.{text_of};
ghost use Rattle.log_syntax.specs.Reads.{SpellsLogOrNothing};
ghost use Rattle.log_write.specs.Pieces.{log_pieces};
ghost use Rattle.refutation_log.specs.Writable.{IsWritable};

use currency_base::laws_of_literals;

/// A law: the text that is written of a log that can be written has tokens, and they spell the log.
pub fn written_is_read()
    ensures { (log : Log) → IsWritable log → ReadsText SpellsLogOrNothing (text_of (log_pieces log)) log }
{
    laws_of_literals();
}
