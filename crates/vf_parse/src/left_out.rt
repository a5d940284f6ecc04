//! Words that the language leaves out.

ghost use Rattle.std.specs.Prelude.{◌≡◌, ◌<◌, MatchOption};
ghost use Rattle.std.specs.List.{list_any};
ghost use Rattle.std.specs.Str.{bytes_eq};
ghost use Rattle.vf_lexeme.specs.Words.{left_out_words};
ghost use Rattle.vf_parse.specs.LeftOut.{system_names, is_left_out, is_right_after, is_power, begins_left_out, NoneLeftOut, IsLeftOutAt};

use vf_base::Place;
use vf_expression::{is_sign, same};
use vf_lex::{Token, TokenKind};

/// The words of the standard that the language leaves out.
#[rattlefmt::skip]
const WORDS: [&str; 62] = [
    "real", "realtime", "event", "fork", "join", "disable", "force", "release", "deassign",
    "defparam", "generate", "endgenerate", "genvar", "task", "endtask", "function", "endfunction",
    "automatic", "specify", "endspecify", "specparam", "primitive", "endprimitive", "table",
    "endtable", "config", "endconfig", "inout", "wand", "wor", "triand", "trior", "tri0", "tri1",
    "trireg", "supply0", "supply1", "macromodule", "nand", "nor", "xor", "xnor", "not", "buf",
    "bufif0", "bufif1", "notif0", "notif1", "nmos", "pmos", "cmos", "rnmos", "rpmos", "rcmos",
    "tran", "rtran", "tranif0", "tranif1", "rtranif0", "rtranif1", "pullup", "pulldown",
];

/// The system tasks and functions of the language.
#[rattlefmt::skip]
const SYSTEM_NAMES: [&str; 13] = [
    "$display", "$write", "$strobe", "$monitor", "$save", "$incsave", "$finish", "$stop", "$fgetc",
    "$time", "$feof", "$signed", "$unsigned",
];

fn is_among(name: &[u8], words: &[&str]) -> bool
    ensures { result ≡ list_any (λ listed. bytes_eq name.now listed.now) words.now }
{
    words.iter().any(|listed| same(name, listed.as_bytes()))
}

fn is_left_out_word(name: &[u8]) -> bool
    ensures { result ≡ list_any (bytes_eq name.now) left_out_words }
{
    is_among(name, &WORDS)
}

fn is_system_name(name: &[u8]) -> bool
    ensures { result ≡ list_any (bytes_eq name.now) system_names }
{
    is_among(name, &SYSTEM_NAMES)
}

/// Whether the language leaves a token out by itself.
fn is_left_out(kind: &TokenKind) -> bool
    ensures { result ≡ is_left_out kind.now }
{
    match kind {
        TokenKind::Word(text) => is_left_out_word(text.bytes()),
        TokenKind::System(text) => !is_system_name(text.bytes()),
        TokenKind::Name(_) | TokenKind::Sign(_) | TokenKind::Number(_) | TokenKind::Quoted(_) => {
            false
        }
    }
}

/// Whether the second place is right after a one-byte token at the first.
#[tactic(auto, using(crate::proofs::Counting::next_column))]
fn is_right_after(first: Place, second: Place) -> bool
    ensures { result ≡ is_right_after first second }
{
    if second.line != first.line {
        return false;
    }
    second.column.saturating_sub(first.column) == 1
}

/// Whether a token and those after it begin with the sign `**`.
fn is_power(first: &Token, rest: &[Token]) -> bool
    ensures { result ≡ is_power first.now rest.now }
{
    match rest {
        [] => false,
        [second, ..] => {
            if !is_sign(b"*", &first.kind) {
                return false;
            }
            if !is_sign(b"*", &second.kind) {
                return false;
            }
            is_right_after(first.place, second.place)
        }
    }
}

/// Whether what the language leaves out stands in front.
fn begins_left_out(tokens: &[Token]) -> bool
    ensures { result ≡ begins_left_out tokens.now }
{
    match tokens {
        [] => false,
        [first, rest @ ..] => {
            if is_left_out(&first.kind) {
                return true;
            }
            is_power(first, rest)
        }
    }
}

/// The place of the first token that the language leaves out.
pub fn left_out(tokens: &[Token]) -> Option<Place>
    ensures { MatchOption result (NoneLeftOut tokens.now) (λ place. IsLeftOutAt tokens.now place) }
{
    for index in 0..tokens.len() {
        if begins_left_out(&tokens[index..]) {
            return Some(tokens[index].place);
        }
    }
    None
}
