ghost use Rattle.std.specs.Prelude.{◌≡◌, ◌≤◌, ◌⊎◌, [], IfOk, IfErr, IsUtf8, MatchOption, drop, length, false, map, take};
ghost use Rattle.text_tokens.specs.Lexeme.{lexeme_of};
ghost use Rattle.text_tokens.specs.Next.{IsNext};
ghost use Rattle.text_tokens.specs.Tokens.{AreTokens, TokensOf, after_gap, first_wrong_line, line_after};

use crate::scan::{gap_len, kind_and_len, line_past, mark_len};
use crate::{TextFault, Token, TokenList};
use currency_base::NoMemory;
use std::alloc::Global;

/// The tokens of a text, faults included, in order and to the end of the source. One byte order mark
/// at its start is dropped; places count it.
pub fn tokens<'a>(alloc: Global, source: &'a [u8]) -> Result<TokenList<'a>, TextFault>
    ensures text { IfOk result (λ found. IsUtf8 source.now) }
    ensures all { IfOk result (λ found. TokensOf source.now (map lexeme_of found)) }
    ensures refused { IfErr result (λ e. (e ≡ TextFault.NoMemory)
        ⊎ ((e ≡ TextFault.NotUtf8 (first_wrong_line source.now)) × (IsUtf8 source.now → ⊥))) }
{
    if let Err(wrong) = std::str::from_utf8(source) {
        let line = line_past(1, &source[..wrong.valid_up_to()]);
        return Err(TextFault::NotUtf8 { line });
    }
    match tokens_from(alloc, source, mark_len(source)) {
        Ok(found) => Ok(found),
        Err(NoMemory) => Err(TextFault::NoMemory),
    }
}

/// The tokens from a place on.
fn tokens_from<'a>(alloc: Global, source: &'a [u8], start: usize) -> Result<TokenList<'a>, NoMemory>
    requires { start ≤ length source.now }
    ensures { IfOk result (λ found. AreTokens (take start source.now) (drop start source.now) (map lexeme_of found)) }
{
    let mut found = TokenList::new(alloc);
    let mut at = start;
    let mut line = line_past(1, &source[..start]);
    while let Some(token) = next_token(source, at, line) {
        at = token.start + token.text.len();
        line = line_past(token.line, token.text);
        found.push(token)?;
    }
    Ok(found)
}

/// The first token from a place on, which stands in the given line.
fn next_token<'a>(source: &'a [u8], at: usize, line: u32) -> Option<Token<'a>>
    requires within { at ≤ length source.now }
    requires line { line ≡ line_after (take at source.now) }
    ensures { MatchOption result (after_gap false (drop at source.now) ≡ []) (λ t. IsNext source.now at (lexeme_of t)) }
{
    let start = at + gap_len(&source[at..]);
    if start == source.len() {
        return None;
    }
    let (kind, more) = kind_and_len(source[start], &source[start + 1..]);
    Some(Token {
        kind,
        text: &source[start..start + 1 + more],
        start,
        line: line_past(line, &source[at..start]),
    })
}
