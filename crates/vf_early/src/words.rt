//! Words of the text: keywords, names and numbers.

ghost use Rattle.std.specs.Prelude.{◌≡◌, ℕ, ◌^◌, ◌<◌, ◌==◌, not, filter, IfOk};
ghost use Rattle.std.specs.List.{list_all, list_any};
ghost use Rattle.std.specs.Str.{bytes_eq};
ghost use Rattle.vf_early.specs.Tokens.{is_digit, is_letter, is_name_byte, is_word_byte};
ghost use Rattle.vf_early.specs.Words.{is_reserved, begins_name, is_name, is_number_byte, is_number, digits_of, number_of};
ghost use Rattle.vf_early.specs.Reading.{Gives, keyword_of};

use crate::EarlyFault;
use std::alloc::{AllocError, Global};
use vf_base::read_decimal;

/// The words that begin a statement.
#[derive(Clone, Copy, Debug, PartialEq, Eq)]
pub enum Keyword {
    Begin,
    While,
    If,
    Write,
    Save,
    IncSave,
    Finish,
}

/// The words that are no names: those of the language's grammar, and those of the standard that the
/// language leaves out.
#[rattlefmt::skip]
const RESERVED: [&str; 94] = [
    "module", "parameter", "signed", "wire", "reg", "input", "output", "tri", "integer", "time",
    "localparam", "assign", "initial", "always", "begin", "end", "if", "else", "case", "casez",
    "casex", "endcase", "default", "while", "repeat", "forever", "for", "or", "posedge", "negedge",
    "wait", "endmodule", "real", "realtime", "event", "fork", "join", "disable", "force", "release",
    "deassign", "defparam", "generate", "endgenerate", "genvar", "task", "endtask", "function",
    "endfunction", "automatic", "specify", "endspecify", "specparam", "primitive", "endprimitive",
    "table", "endtable", "config", "endconfig", "inout", "wand", "wor", "triand", "trior", "tri0",
    "tri1", "trireg", "supply0", "supply1", "macromodule", "nand", "nor", "xor", "xnor", "not",
    "buf", "bufif0", "bufif1", "notif0", "notif1", "nmos", "pmos", "cmos", "rnmos", "rpmos", "rcmos",
    "tran", "rtran", "tranif0", "tranif1", "rtranif0", "rtranif1", "pullup", "pulldown",
];

/// Whether a token is that word or sign.
pub fn same(token: &[u8], word: &[u8]) -> bool
    ensures { result ≡ bytes_eq token.now word.now }
{
    token == word
}

/// The keyword that a token is.
#[tactic(auto, unfolding(crate::specs::Reading::keyword_of))]
pub fn keyword_of(token: &[u8]) -> Option<Keyword>
    ensures { result ≡ keyword_of token.now }
{
    if same(token, b"begin") {
        Some(Keyword::Begin)
    } else if same(token, b"while") {
        Some(Keyword::While)
    } else if same(token, b"if") {
        Some(Keyword::If)
    } else if same(token, b"$write") {
        Some(Keyword::Write)
    } else if same(token, b"$save") {
        Some(Keyword::Save)
    } else if same(token, b"$incsave") {
        Some(Keyword::IncSave)
    } else if same(token, b"$finish") {
        Some(Keyword::Finish)
    } else {
        None
    }
}

fn is_among(word: &[u8], words: &[&str]) -> bool
    ensures { result ≡ list_any (λ listed. bytes_eq word.now listed.now) words.now }
{
    words.iter().any(|listed| same(word, listed.as_bytes()))
}

#[tactic(auto, unfolding(crate::specs::Words::is_reserved))]
fn is_reserved(word: &[u8]) -> bool
    ensures { result ≡ is_reserved word.now }
{
    is_among(word, &RESERVED)
}

fn is_letter(byte: u8) -> bool
    ensures { result ≡ is_letter byte }
{
    byte.is_ascii_alphabetic()
}

fn is_digit(byte: u8) -> bool
    ensures { result ≡ is_digit byte }
{
    byte.is_ascii_digit()
}

fn is_name_byte(byte: u8) -> bool
    ensures { result ≡ is_name_byte byte }
{
    is_letter(byte) || is_digit(byte) || byte == b'_' || byte == b'$'
}

/// Whether a byte may stand in a word of the text.
pub fn is_word_byte(byte: u8) -> bool
    ensures { result ≡ is_word_byte byte }
{
    is_name_byte(byte) || byte == b'\''
}

fn begins_name(byte: u8) -> bool
    ensures { result ≡ begins_name byte }
{
    is_letter(byte) || byte == b'_'
}

fn are_name_bytes(bytes: &[u8]) -> bool
    ensures { result ≡ list_all is_name_byte bytes.now }
{
    bytes.iter().all(|byte| is_name_byte(*byte))
}

/// Whether a word is a name.
#[tactic(auto, unfolding(crate::specs::Words::is_name))]
pub fn is_name(word: &[u8]) -> bool
    ensures { result ≡ is_name word.now }
{
    let [first, more @ ..] = word else {
        return false;
    };
    if !begins_name(*first) {
        return false;
    }
    if !are_name_bytes(more) {
        return false;
    }
    !is_reserved(word)
}

fn is_number_byte(byte: u8) -> bool
    ensures { result ≡ is_number_byte byte }
{
    is_digit(byte) || byte == b'_'
}

fn are_number_bytes(bytes: &[u8]) -> bool
    ensures { result ≡ list_all is_number_byte bytes.now }
{
    bytes.iter().all(|byte| is_number_byte(*byte))
}

#[tactic(auto, unfolding(crate::specs::Words::is_number))]
fn is_number(word: &[u8]) -> bool
    ensures { result ≡ is_number word.now }
{
    let [first, more @ ..] = word else {
        return false;
    };
    if !is_digit(*first) {
        return false;
    }
    are_number_bytes(more)
}

fn digits_of(alloc: Global, word: &[u8]) -> Result<Vec<u8>, AllocError>
    ensures { IfOk result (λ digits. digits.items ≡ digits_of word.now) }
{
    word.iter()
        .copied()
        .filter(|byte| *byte != b'_')
        .collect(alloc)
}

/// The value of a number: decimal digits and `_`, at most 2^31 - 1.
#[tactic(auto, unfolding(crate::specs::Words::number_of))]
pub fn number(alloc: Global, word: &[u8]) -> Result<u32, EarlyFault>
    ensures { Gives (λ n. n) result (number_of word.now) }
{
    if !is_number(word) {
        return Err(EarlyFault::NotBuilt);
    }
    let digits = digits_of(alloc, word)?;
    let Some(n) = read_decimal(digits.as_slice()) else {
        return Err(EarlyFault::NotBuilt);
    };
    if n >= 0x8000_0000 {
        return Err(EarlyFault::NotBuilt);
    }
    Ok(n as u32)
}
