//! Reserved words, system names and names at the front of the tokens.

ghost use Rattle.std.specs.Prelude.{◌≡◌, Some, None};
ghost use Rattle.std.specs.Option.{option_map};
ghost use Rattle.vf_expression.specs.Reading.{Gives};
ghost use Rattle.vf_statement.specs.Words.{case_of, guard_of, guarded};
ghost use Rattle.vf_statement.specs.Reading.{is_word, after_word, is_system, after_system, name_by, name_at, label_at};

use vf_expression::{Stop, same, strip};
use vf_lex::{Token, TokenKind};
use vf_tree::{CaseWord, Name, Stmt, StmtForm, TreeExpr};

/// What an expression in parentheses is to the statement after it (clauses 9.6 and 9.7.6).
#[derive(Clone, Copy, Debug, PartialEq, Eq)]
pub enum Guard {
    While,
    Repeat,
    Wait,
}

/// The form of a statement after such an expression.
pub fn guarded(guard: Guard, cond: TreeExpr, body: Stmt) -> StmtForm
    ensures { result ≡ guarded guard cond body }
{
    match guard {
        Guard::While => StmtForm::While { cond, body },
        Guard::Repeat => StmtForm::Repeat { count: cond, body },
        Guard::Wait => StmtForm::Wait { cond, body },
    }
}

#[tactic(auto, unfolding(crate::specs::Words::guard_of))]
pub fn guard_of(text: &[u8]) -> Option<Guard>
    ensures { result ≡ guard_of text.now }
{
    if same(text, b"while") {
        Some(Guard::While)
    } else if same(text, b"repeat") {
        Some(Guard::Repeat)
    } else if same(text, b"wait") {
        Some(Guard::Wait)
    } else {
        None
    }
}

/// The comparison of a `case`, by its word (clause 9.5.1).
#[tactic(auto, unfolding(crate::specs::Words::case_of))]
pub fn case_of(text: &[u8]) -> Option<CaseWord>
    ensures { result ≡ case_of text.now }
{
    if same(text, b"case") {
        Some(CaseWord::Case)
    } else if same(text, b"casez") {
        Some(CaseWord::Casez)
    } else if same(text, b"casex") {
        Some(CaseWord::Casex)
    } else {
        None
    }
}

/// Whether a token is that reserved word.
pub fn is_word(text: &[u8], kind: &TokenKind) -> bool
    ensures { result ≡ is_word text.now kind.now }
{
    match kind {
        TokenKind::Word(own) => same(own.bytes(), text),
        TokenKind::Name(_)
        | TokenKind::System(_)
        | TokenKind::Sign(_)
        | TokenKind::Number(_)
        | TokenKind::Quoted(_) => false,
    }
}

/// The tokens after the reserved word, where it stands in front.
#[tactic(auto, unfolding(crate::specs::Reading::after_word))]
pub fn strip_word<'a>(text: &[u8], tokens: &'a [Token]) -> Option<&'a [Token]>
    ensures { option_map (λ rest. rest.now) result ≡ after_word text.now tokens.now }
{
    match tokens {
        [first, rest @ ..] if is_word(text, &first.kind) => Some(rest),
        _ => None,
    }
}

fn is_system(text: &[u8], kind: &TokenKind) -> bool
    ensures { result ≡ is_system text.now kind.now }
{
    match kind {
        TokenKind::System(own) => same(own.bytes(), text),
        TokenKind::Name(_)
        | TokenKind::Word(_)
        | TokenKind::Sign(_)
        | TokenKind::Number(_)
        | TokenKind::Quoted(_) => false,
    }
}

/// The tokens after the system name, where it stands in front.
#[tactic(auto, unfolding(crate::specs::Reading::after_system))]
pub fn strip_system<'a>(text: &[u8], tokens: &'a [Token]) -> Option<&'a [Token]>
    ensures { option_map (λ rest. rest.now) result ≡ after_system text.now tokens.now }
{
    match tokens {
        [first, rest @ ..] if is_system(text, &first.kind) => Some(rest),
        _ => None,
    }
}

fn name_by<'a>(first: &Token, rest: &'a [Token]) -> Result<(Name, &'a [Token]), Stop>
    ensures { Gives (λ x. (x.0, x.1.now)) result (name_by first.now.kind first.now.place rest.now) }
{
    match &first.kind {
        TokenKind::Name(text) => {
            let name = Name {
                text: text.copy()?,
                place: first.place,
            };
            Ok((name, rest))
        }
        TokenKind::System(_)
        | TokenKind::Word(_)
        | TokenKind::Sign(_)
        | TokenKind::Number(_)
        | TokenKind::Quoted(_) => Err(Stop::Unexpected(rest.len() + 1)),
    }
}

/// The name in front.
#[tactic(auto, unfolding(crate::specs::Reading::name_at))]
pub fn name(tokens: &[Token]) -> Result<(Name, &[Token]), Stop>
    ensures { Gives (λ x. (x.0, x.1.now)) result (name_at tokens.now) }
{
    match tokens {
        [first, rest @ ..] => name_by(first, rest),
        [] => Err(Stop::Unexpected(0)),
    }
}

/// The name of a block, where one follows its `begin` (clause 9.8.3).
#[tactic(auto, unfolding(crate::specs::Reading::label_at))]
pub fn label(tokens: &[Token]) -> Result<(Option<Name>, &[Token]), Stop>
    ensures { Gives (λ x. (x.0, x.1.now)) result (label_at tokens.now) }
{
    match strip(b":", tokens) {
        Some(rest) => {
            let (name, rest) = name(rest)?;
            Ok((Some(name), rest))
        }
        None => Ok((None, tokens)),
    }
}
