//! Directives and their effects.

ghost use Rattle.std.specs.Prelude.{◌≡◌, ℕ, List, ◌≤◌, ◌==◌, length, not, if◌then◌else◌, IfOk, option_map};
ghost use Rattle.std.specs.Str.{bytes_eq};
ghost use Rattle.vf_lex.specs.Answers.{Gives, seen, left, Keeps};
ghost use Rattle.vf_lex.specs.Directives.{Goes, Defines, Uses, branching_of, directive_of, is_skipped, opened, next_branch, tested, ifdef_effect, elsif_effect, else_effect, endif_effect, condition_effect, define_effect, undef_effect, use_effect, other_effect, directive_effect};
ghost use Rattle.vf_lex.specs.Inner.{around};

use crate::LexKind;
use crate::names::{after_blanks, after_line_blanks, split_name};
use crate::reader::{Condition, Reader};
use std::alloc::Global;
use vf_base::Place;
use vf_lexeme::after_line;
use vf_number::begins_with;

/// The directives of conditions.
#[derive(Clone, Copy, Debug, PartialEq, Eq)]
pub(crate) enum Branching {
    Ifdef,
    Ifndef,
    Elsif,
    Else,
    Endif,
}

/// The other directives.
#[derive(Clone, Copy, Debug, PartialEq, Eq)]
pub(crate) enum Directive {
    Define,
    Undef,
    /// One that is skipped with the rest of its line.
    Skipped,
    Include,
    /// The use of a macro, if it is defined.
    Use,
}

/// What an element at the front of a text leads to.
#[derive(Debug, Drop)]
pub(crate) enum Step<'a> {
    /// Reading goes on with the rest.
    Goes(&'a [u8]),
    /// The name is defined by the macro text that the bytes begin with.
    Defines { name: &'a [u8], bytes: &'a [u8] },
    /// The text of a macro is read, and then the rest.
    Uses { body: Vec<u8>, rest: &'a [u8] },
}

/// Whether two names are the same. Most differ in length, which is looked at first, without a call.
#[tactic(auto, using(crate::proofs::NameLemmas::lengths_differ))]
fn same(a: &[u8], b: &[u8]) -> bool
    ensures { result ≡ bytes_eq a.now b.now }
{
    if a.len() != b.len() {
        return false;
    }
    a == b
}

#[tactic(auto, unfolding(crate::specs::Directives::branching_of))]
fn branching_of(name: &[u8]) -> Option<Branching>
    ensures { result ≡ branching_of name.now }
{
    if same(name, b"ifdef") {
        return Some(Branching::Ifdef);
    }
    if same(name, b"ifndef") {
        return Some(Branching::Ifndef);
    }
    if same(name, b"elsif") {
        return Some(Branching::Elsif);
    }
    if same(name, b"else") {
        return Some(Branching::Else);
    }
    if same(name, b"endif") {
        return Some(Branching::Endif);
    }
    None
}

fn is_skipped(name: &[u8]) -> bool
    ensures { result ≡ is_skipped name.now }
{
    same(name, b"timescale")
        || same(name, b"default_nettype")
        || same(name, b"resetall")
        || same(name, b"celldefine")
        || same(name, b"endcelldefine")
}

#[tactic(auto, unfolding(crate::specs::Directives::directive_of))]
fn directive_of(name: &[u8]) -> Directive
    ensures { result ≡ directive_of name.now }
{
    if same(name, b"define") {
        return Directive::Define;
    }
    if same(name, b"undef") {
        return Directive::Undef;
    }
    if same(name, b"include") {
        return Directive::Include;
    }
    if is_skipped(name) {
        return Directive::Skipped;
    }
    Directive::Use
}

/// A condition at its opening, in an outer text that is taken or not.
fn opened(place: Place, outer: bool, test: bool) -> Condition
    ensures { result ≡ opened place outer test }
{
    Condition {
        place,
        taken: outer && test,
        settled: !outer || test,
        closed: false,
    }
}

/// A condition at its next branch, which is or is not its `else`.
fn next_branch(condition: Condition, test: bool, last: bool) -> Condition
    ensures { result ≡ next_branch condition test last }
{
    Condition {
        place: condition.place,
        taken: !condition.settled && test,
        settled: condition.settled || test,
        closed: last,
    }
}

/// The test of a condition that opens.
fn tested(wanted: bool, defined: bool) -> bool
    ensures { result ≡ tested wanted defined }
{
    if wanted { defined } else { !defined }
}

/// The effect of an `ifdef`, or of an `ifndef`, which wants the name not to be defined; the bytes are those from the name on.
fn ifdef_effect<'a>(
    reader: &mut Reader,
    wanted: bool,
    place: Place,
    bytes: &'a [u8],
) -> Result<&'a [u8], LexKind>
    ensures effect { Gives (λ rest. Goes (around reader.new) rest.now) result (ifdef_effect wanted place (around reader.old) bytes.now) }
    ensures within { IfOk result (λ rest. length rest.now ≤ length bytes.now) }
{
    let (name, rest) = split_name(bytes);
    if name.is_empty() {
        return Err(LexKind::BadCondition);
    }
    let test = tested(wanted, reader.is_defined(name));
    reader.open(opened(place, reader.is_taken(), test))?;
    Ok(rest)
}

/// The effect of an `elsif`; the bytes are those from the name on.
fn elsif_effect<'a>(reader: &mut Reader, bytes: &'a [u8]) -> Result<&'a [u8], LexKind>
    ensures effect { Gives (λ rest. Goes (around reader.new) rest.now) result
        (elsif_effect (around reader.old) (around reader.old).conditions bytes.now) }
    ensures within { IfOk result (λ rest. length rest.now ≤ length bytes.now) }
{
    let Some(condition) = reader.close() else {
        return Err(LexKind::BadCondition);
    };
    let (name, rest) = split_name(bytes);
    if condition.closed || name.is_empty() {
        return Err(LexKind::BadCondition);
    }
    reader.open(next_branch(condition, reader.is_defined(name), false))?;
    Ok(rest)
}

/// The effect of an `else`.
fn else_effect<'a>(reader: &mut Reader, rest: &'a [u8]) -> Result<&'a [u8], LexKind>
    ensures effect { Gives (λ rest. Goes (around reader.new) rest.now) result
        (else_effect (around reader.old) (around reader.old).conditions rest.now) }
    ensures within { IfOk result (λ r. length r.now ≤ length rest.now) }
{
    let Some(condition) = reader.close() else {
        return Err(LexKind::BadCondition);
    };
    if condition.closed {
        return Err(LexKind::BadCondition);
    }
    reader.open(next_branch(condition, true, true))?;
    Ok(rest)
}

/// The effect of an `endif`.
fn endif_effect<'a>(reader: &mut Reader, rest: &'a [u8]) -> Result<&'a [u8], LexKind>
    ensures effect { Gives (λ rest. Goes (around reader.new) rest.now) result
        (endif_effect (around reader.old) (around reader.old).conditions rest.now) }
    ensures within { IfOk result (λ r. length r.now ≤ length rest.now) }
{
    match reader.close() {
        Some(_) => Ok(rest),
        None => Err(LexKind::BadCondition),
    }
}

/// The effect of a directive of a condition; the bytes are those after its name.
#[tactic(auto, unfolding(crate::specs::Directives::condition_effect))]
fn condition_effect<'a>(
    reader: &mut Reader,
    branching: Branching,
    place: Place,
    bytes: &'a [u8],
) -> Result<&'a [u8], LexKind>
    ensures effect { Gives (λ rest. Goes (around reader.new) rest.now) result
        (condition_effect branching place (around reader.old) bytes.now) }
    ensures within { IfOk result (λ rest. length rest.now ≤ length bytes.now) }
{
    match branching {
        Branching::Ifdef => ifdef_effect(reader, true, place, after_blanks(bytes)),
        Branching::Ifndef => ifdef_effect(reader, false, place, after_blanks(bytes)),
        Branching::Elsif => elsif_effect(reader, after_blanks(bytes)),
        Branching::Else => else_effect(reader, bytes),
        Branching::Endif => endif_effect(reader, bytes),
    }
}

/// The effect of a `define`; the bytes are those from the name on.
fn define_effect<'a>(bytes: &'a [u8]) -> Result<(&'a [u8], &'a [u8]), LexKind>
    ensures effect { Gives (λ x. Defines x.0.now x.1.now) result (define_effect bytes.now) }
    ensures within { IfOk result (λ x. length x.1.now ≤ length bytes.now) }
{
    let (name, rest) = split_name(bytes);
    if name.is_empty() {
        return Err(LexKind::UnknownDirective);
    }
    if begins_with(b'(', rest) {
        return Err(LexKind::LeftOut);
    }
    Ok((name, rest))
}

/// The effect of an `undef`; the bytes are those from the name on.
fn undef_effect<'a>(
    alloc: Global,
    reader: &mut Reader,
    bytes: &'a [u8],
) -> Result<&'a [u8], LexKind>
    ensures effect { Gives (λ rest. Goes (around reader.new) rest.now) result (undef_effect (around reader.old) bytes.now) }
    ensures within { IfOk result (λ rest. length rest.now ≤ length bytes.now) }
{
    let (name, rest) = split_name(bytes);
    if name.is_empty() {
        return Err(LexKind::UnknownDirective);
    }
    reader.define(alloc, name, None)?;
    Ok(rest)
}

/// The text of the macro of that name, for one use of it.
fn used_text(alloc: Global, reader: &Reader, name: &[u8]) -> Result<Vec<u8>, LexKind>
    ensures { (rest : List ℕ) → Gives (λ text. Uses text.items rest) result (use_effect ((around reader.now).macros name.now) rest) }
{
    match reader.find(name) {
        Some(text) => Ok(Vec::from_slice(alloc, text)?),
        None => Err(LexKind::UnknownDirective),
    }
}

/// The effect of a directive that is not one of a condition, by its name; the bytes are those after it.
#[tactic(auto, unfolding(crate::specs::Directives::other_effect))]
fn other_effect<'a>(
    alloc: Global,
    reader: &mut Reader,
    name: &'a [u8],
    bytes: &'a [u8],
) -> Result<Step<'a>, LexKind>
    ensures effect { Gives (seen (around reader.new)) result
        (other_effect (directive_of name.now) (around reader.old) name.now bytes.now) }
    ensures kept { IfOk result (Keeps (around reader.old) (around reader.new)) }
    ensures within { IfOk result (λ step. length (left step) ≤ length bytes.now) }
{
    match directive_of(name) {
        Directive::Define => {
            let (name, bytes) = define_effect(after_line_blanks(bytes))?;
            Ok(Step::Defines { name, bytes })
        }
        Directive::Undef => Ok(Step::Goes(undef_effect(alloc, reader, after_blanks(bytes))?)),
        Directive::Include => Err(LexKind::LeftOut),
        Directive::Skipped => Ok(Step::Goes(after_line(bytes))),
        Directive::Use => Ok(Step::Uses {
            body: used_text(alloc, reader, name)?,
            rest: bytes,
        }),
    }
}

/// The effect of what stands after a '`'. Where the text is not taken, only conditions count.
#[tactic(auto, unfolding(crate::specs::Directives::directive_effect))]
pub(crate) fn directive_effect<'a>(
    alloc: Global,
    reader: &mut Reader,
    taken: bool,
    place: Place,
    bytes: &'a [u8],
) -> Result<Step<'a>, LexKind>
    ensures effect { Gives (seen (around reader.new)) result (directive_effect taken place (around reader.old) bytes.now) }
    ensures kept { IfOk result (Keeps (around reader.old) (around reader.new)) }
    ensures within { IfOk result (λ step. length (left step) ≤ length bytes.now) }
{
    let (name, rest) = split_name(bytes);
    if let Some(branching) = branching_of(name) {
        return Ok(Step::Goes(condition_effect(reader, branching, place, rest)?));
    }
    if taken {
        return other_effect(alloc, reader, name, rest);
    }
    Ok(Step::Goes(rest))
}
