//! Names, reserved words, escaped names and system names.

ghost use Rattle.std.specs.Prelude.{◌≡◌, ◌+◌, length, Ok};
ghost use Rattle.std.specs.List.{list_any};
ghost use Rattle.std.specs.Str.{bytes_eq};
ghost use Rattle.vf_lexeme.specs.Words.{is_reserved, IsNameAt};
ghost use Rattle.vf_lexeme.specs.Reading.{Gives, name_kind, name_token, escaped_name, system_name};

use crate::classes::{Class, begins_name};
use crate::{Lexeme, LexemeFault, TokenKind};
use std::alloc::Global;
use vf_base::Text;
use vf_number::ByteClass;

/// The words that are not names: those of the language's grammar, and those of the standard that the language leaves out.
#[rattlefmt::skip]
const RESERVED: [&str; 94] = [
    "module", "parameter", "signed", "wire", "reg", "input", "output", "tri", "integer", "time",
    "localparam", "assign", "initial", "always", "begin", "end", "if", "else", "case", "casez",
    "casex", "endcase", "default", "while", "repeat", "forever", "for", "or", "posedge", "negedge",
    "wait", "endmodule", "real", "realtime", "event", "fork", "join", "disable", "force", "release",
    "deassign", "defparam", "generate", "endgenerate", "genvar", "task", "endtask", "function",
    "endfunction", "automatic", "specify", "endspecify", "specparam", "primitive", "endprimitive",
    "table", "endtable", "config", "endconfig", "inout", "wand", "wor", "triand", "trior", "tri0",
    "tri1", "trireg", "supply0", "supply1", "macromodule", "nand", "nor", "xor", "xnor", "not",
    "buf", "bufif0", "bufif1", "notif0", "notif1", "nmos", "pmos", "cmos", "rnmos", "rpmos", "rcmos",
    "tran", "rtran", "tranif0", "tranif1", "rtranif0", "rtranif1", "pullup", "pulldown",
];

fn same(name: &[u8], word: &[u8]) -> bool
    ensures { result ≡ bytes_eq name.now word.now }
{
    name == word
}

fn is_among(name: &[u8], words: &[&str]) -> bool
    ensures { result ≡ list_any (λ listed. bytes_eq name.now listed.now) words.now }
{
    words.iter().any(|listed| same(name, listed.as_bytes()))
}

/// Whether a plain name is a reserved word (clause 3.7.2).
#[tactic(auto, unfolding(crate::specs::Words::is_reserved))]
fn is_reserved(name: &[u8]) -> bool
    ensures { result ≡ is_reserved name.now }
{
    is_among(name, &RESERVED)
}

/// The bytes as a text of their own.
pub(crate) fn text_of(alloc: Global, bytes: &[u8]) -> Result<Text, LexemeFault>
    ensures { Gives (λ text. text) result (Ok bytes.now) }
{
    Ok(Text::new(Vec::from_slice(alloc, bytes)?))
}

fn name_kind(reserved: bool, name: Text) -> TokenKind
    ensures { result ≡ name_kind reserved name }
{
    if reserved {
        TokenKind::Word(name)
    } else {
        TokenKind::Name(name)
    }
}

/// The plain name or reserved word at the front of a text.
#[tactic(auto, unfolding(crate::specs::Reading::name_token))]
pub(crate) fn name_token<'a>(
    alloc: Global,
    text: &'a [u8],
) -> Result<(Lexeme, &'a [u8]), LexemeFault>
    ensures { Gives (λ r. (r.0, r.1.now)) result (name_token text.now) }
{
    let (name, rest) = Class::Name.split(text);
    let reserved = is_reserved(name);
    let name = text_of(alloc, name)?;
    Ok((Lexeme::Token(name_kind(reserved, name)), rest))
}

/// The escaped name after its `\` (clause 3.7.1).
#[tactic(auto, unfolding(crate::specs::Reading::escaped_name))]
pub(crate) fn escaped_name<'a>(
    alloc: Global,
    text: &'a [u8],
) -> Result<(Lexeme, &'a [u8]), LexemeFault>
    ensures { Gives (λ r. (r.0, r.1.now)) result (escaped_name text.now) }
{
    let (name, rest) = Class::NoBlank.split(text);
    let name = text_of(alloc, name)?;
    Ok((Lexeme::Token(TokenKind::Name(name)), rest))
}

/// The system name at the front of a text that begins with `$`; a `$` alone begins nothing (clause 3.7.3).
#[tactic(auto, unfolding(crate::specs::Reading::system_name))]
pub(crate) fn system_name<'a>(
    alloc: Global,
    text: &'a [u8],
) -> Result<(Lexeme, &'a [u8]), LexemeFault>
    ensures { Gives (λ r. (r.0, r.1.now)) result (system_name text.now) }
{
    let (name, rest) = Class::Name.split(text);
    if name.len() <= 1 {
        return Err(LexemeFault::BadCharacter);
    }
    let name = text_of(alloc, name)?;
    Ok((Lexeme::Token(TokenKind::System(name)), rest))
}

/// The plain name at the front of a text, which may be a reserved word, and the bytes after it; the empty name where none
/// begins there (clause 3.7). No memory is taken.
#[tactic(auto, using(crate::proofs::PlainNames::named_front, crate::proofs::PlainNames::unnamed_front))]
pub fn name<'a>(text: &'a [u8]) -> (&'a [u8], &'a [u8])
    ensures found { IsNameAt text.now result.0.now result.1.now }
    ensures shorter { length result.0.now + length result.1.now ≡ length text.now }
{
    let [first, ..] = text else {
        return (text, text);
    };
    if !begins_name(*first) {
        return text.split_at(0);
    }
    Class::Name.split(text)
}
