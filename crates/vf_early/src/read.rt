//! Reads the grammar over tokens, and writes the code.

ghost use Rattle.std.specs.Prelude.{◌≡◌, ℕ, ◌≤◌, ◌<◌, ◌+◌, List, [], length, IfOk, OnOk, IsErrOf, Ok};
ghost use Rattle.std.specs.Option.{option_map};
ghost use Rattle.vf_design.specs.Program.{Program};
ghost use Rattle.vf_early.specs.Early.{IsEarly};
ghost use Rattle.vf_early.specs.Reading.{Gives, after, next, name_at, number_at, string_after, minus_at, operand_at, comparison, condition_at, emitted, getc_at, show_at, save_at, finish_at, block_from, guarded_at, loop_at, guard_at, statement_by, statement_with, statement_at, header_at, closed_at, Source, source_of};

use crate::EarlyFault;
use crate::scan::tokens;
use crate::words::{Keyword, is_name, keyword_of, number, same};
use std::alloc::Global;
use vf_base::Text;
use vf_design::{Condition, Design, Instr};

/// The most instructions of a process.
const MOST_CODE: usize = 65_536;

/// How deep statements nest at most.
const MOST_DEPTH: u32 = 200;

/// The tokens after the one that is wanted, where it stands in front.
#[tactic(auto, unfolding(crate::specs::Reading::after))]
fn strip<'a>(word: &[u8], tokens: &'a [Text]) -> Option<&'a [Text]>
    ensures { option_map (λ rest. rest.now) result ≡ after word.now tokens.now }
{
    match tokens {
        [first, rest @ ..] if same(first.bytes(), word) => Some(rest),
        _ => None,
    }
}

/// The tokens after the one that is wanted.
fn after<'a>(word: &[u8], tokens: &'a [Text]) -> Result<&'a [Text], EarlyFault>
    ensures { Gives (λ rest. rest.now) result (after word.now tokens.now) }
{
    match strip(word, tokens) {
        Some(rest) => Ok(rest),
        None => Err(EarlyFault::NotBuilt),
    }
}

/// The first token, and those after it.
fn next(tokens: &[Text]) -> Result<(&Text, &[Text]), EarlyFault>
    ensures { Gives (λ x. (x.0.now, x.1.now)) result (next tokens.now) }
{
    match tokens {
        [first, rest @ ..] => Ok((first, rest)),
        [] => Err(EarlyFault::NotBuilt),
    }
}

/// The name at the front.
#[tactic(auto, unfolding(crate::specs::Reading::name_at))]
fn name(tokens: &[Text]) -> Result<(&Text, &[Text]), EarlyFault>
    ensures { Gives (λ x. (x.0.now, x.1.now)) result (name_at tokens.now) }
{
    let (first, rest) = next(tokens)?;
    if !is_name(first.bytes()) {
        return Err(EarlyFault::NotBuilt);
    }
    Ok((first, rest))
}

/// The number at the front.
#[tactic(auto, unfolding(crate::specs::Reading::number_at))]
fn number_at(alloc: Global, tokens: &[Text]) -> Result<(u32, &[Text]), EarlyFault>
    ensures { Gives (λ x. (x.0, x.1.now)) result (number_at tokens.now) }
{
    let (first, rest) = next(tokens)?;
    let value = number(alloc, first.bytes())?;
    Ok((value, rest))
}

/// The tokens after a string.
#[tactic(auto, unfolding(crate::specs::Reading::string_after))]
fn string(tokens: &[Text]) -> Result<&[Text], EarlyFault>
    ensures { Gives (λ rest. rest.now) result (string_after tokens.now) }
{
    let (first, rest) = next(tokens)?;
    match first.bytes() {
        [b'"', ..] => Ok(rest),
        _ => Err(EarlyFault::NotBuilt),
    }
}

/// The number after a minus, as 32 bits in two's complement.
#[tactic(auto, unfolding(crate::specs::Reading::minus_at))]
fn minus(alloc: Global, tokens: &[Text]) -> Result<(u32, &[Text]), EarlyFault>
    ensures { Gives (λ x. (x.0, x.1.now)) result (minus_at tokens.now) }
{
    let (value, rest) = number_at(alloc, tokens)?;
    Ok((value.wrapping_neg(), rest))
}

/// The number at the front, with a minus or without.
#[tactic(auto, unfolding(crate::specs::Reading::operand_at))]
fn operand(alloc: Global, tokens: &[Text]) -> Result<(u32, &[Text]), EarlyFault>
    ensures { Gives (λ x. (x.0, x.1.now)) result (operand_at tokens.now) }
{
    let (first, rest) = next(tokens)?;
    if same(first.bytes(), b"-") {
        return minus(alloc, rest);
    }
    number_at(alloc, tokens)
}

/// Whether a token is `==`; it is `!=` otherwise.
#[tactic(auto, unfolding(crate::specs::Reading::comparison))]
fn comparison(token: &[u8]) -> Result<bool, EarlyFault>
    ensures { Gives (λ equal. equal) result (comparison token.now) }
{
    if same(token, b"==") {
        return Ok(true);
    }
    if same(token, b"!=") {
        return Ok(false);
    }
    Err(EarlyFault::NotBuilt)
}

/// The condition in parentheses at the front.
#[tactic(auto, unfolding(crate::specs::Reading::condition_at, crate::specs::Reading::after_all))]
fn condition<'a>(
    alloc: Global,
    variable: &[u8],
    tokens: &'a [Text],
) -> Result<(Condition, &'a [Text]), EarlyFault>
    ensures { Gives (λ x. (x.0, x.1.now)) result (condition_at variable.now tokens.now) }
{
    let rest = after(b"(", tokens)?;
    let rest = after(variable, rest)?;
    let (sign, rest) = next(rest)?;
    let equal = comparison(sign.bytes())?;
    let (number, rest) = operand(alloc, rest)?;
    let rest = after(b")", rest)?;
    Ok((Condition { equal, number }, rest))
}

/// Adds an instruction, where it still fits.
#[tactic(auto, unfolding(crate::specs::Reading::emitted))]
fn emit(code: &mut Vec<Instr>, instr: Instr) -> Result<(), EarlyFault>
    ensures value { Gives (λ _. code.new.items) result (emitted code.old.items instr) }
    ensures room { OnOk result (length code.old.items < 65536) }
    ensures grows { OnOk result (length code.new.items ≡ length code.old.items + 1) }
{
    if code.len() >= MOST_CODE {
        return Err(EarlyFault::NotBuilt);
    }
    code.push(instr)?;
    Ok(())
}

/// The read of a byte after its variable.
#[tactic(auto, unfolding(crate::specs::Reading::getc_at, crate::specs::Reading::after_all))]
fn getc<'a>(tokens: &'a [Text], code: &mut Vec<Instr>) -> Result<&'a [Text], EarlyFault>
    ensures value { Gives (λ rest. (code.new.items, rest.now)) result (getc_at code.old.items tokens.now) }
    ensures grows { OnOk result ((length code.old.items ≤ length code.new.items) × (length code.new.items ≤ 65536)) }
{
    let rest = after(b"=", tokens)?;
    let rest = after(b"$fgetc", rest)?;
    let rest = after(b"(", rest)?;
    let rest = after(b"32'h8000_0000", rest)?;
    let rest = after(b")", rest)?;
    let rest = after(b";", rest)?;
    emit(code, Instr::Getc)?;
    Ok(rest)
}

/// The arguments of `$write`.
#[tactic(auto, unfolding(crate::specs::Reading::show_at, crate::specs::Reading::after_all))]
fn show<'a>(
    variable: &[u8],
    tokens: &'a [Text],
    code: &mut Vec<Instr>,
) -> Result<&'a [Text], EarlyFault>
    ensures value { Gives (λ rest. (code.new.items, rest.now)) result (show_at variable.now code.old.items tokens.now) }
    ensures grows { OnOk result ((length code.old.items ≤ length code.new.items) × (length code.new.items ≤ 65536)) }
{
    let rest = after(b"(", tokens)?;
    let rest = after(b"\"%c\"", rest)?;
    let rest = after(b",", rest)?;
    let rest = after(variable, rest)?;
    let rest = after(b")", rest)?;
    let rest = after(b";", rest)?;
    emit(code, Instr::Show)?;
    Ok(rest)
}

/// The argument of `$save` or `$incsave`.
#[tactic(auto, unfolding(crate::specs::Reading::save_at, crate::specs::Reading::after_all))]
fn save<'a>(
    instr: Instr,
    tokens: &'a [Text],
    code: &mut Vec<Instr>,
) -> Result<&'a [Text], EarlyFault>
    ensures value { Gives (λ rest. (code.new.items, rest.now)) result (save_at instr code.old.items tokens.now) }
    ensures grows { OnOk result ((length code.old.items ≤ length code.new.items) × (length code.new.items ≤ 65536)) }
{
    let rest = after(b"(", tokens)?;
    let rest = string(rest)?;
    let rest = after(b")", rest)?;
    let rest = after(b";", rest)?;
    emit(code, instr)?;
    Ok(rest)
}

/// The argument of `$finish`.
#[tactic(auto, unfolding(crate::specs::Reading::finish_at, crate::specs::Reading::after_all))]
fn finish<'a>(
    alloc: Global,
    tokens: &'a [Text],
    code: &mut Vec<Instr>,
) -> Result<&'a [Text], EarlyFault>
    ensures value { Gives (λ rest. (code.new.items, rest.now)) result (finish_at code.old.items tokens.now) }
    ensures grows { OnOk result ((length code.old.items ≤ length code.new.items) × (length code.new.items ≤ 65536)) }
{
    let rest = after(b"(", tokens)?;
    let (value, rest) = number_at(alloc, rest)?;
    let rest = after(b")", rest)?;
    let rest = after(b";", rest)?;
    emit(code, Instr::Finish(value))?;
    Ok(rest)
}

/// Statements up to `end`; each takes at least one token.
#[cycle(statements)]
#[tactic(auto, unfolding(crate::specs::Reading::block_from))]
fn block<'a>(
    alloc: Global,
    depth: u32,
    variable: &[u8],
    tokens: &'a [Text],
    code: &mut Vec<Instr>,
) -> Result<&'a [Text], EarlyFault>
    requires { length code.old.items ≤ 65536 }
    ensures value { Gives (λ rest. (code.new.items, rest.now)) result (block_from (statement_at variable.now depth) variable.now (length tokens.now) code.old.items tokens.now) }
    ensures grows { OnOk result ((length code.old.items ≤ length code.new.items) × (length code.new.items ≤ 65536)) }
{
    let mut rest = tokens;
    for _ in 0..tokens.len() {
        if let Some(behind) = strip(b"end", rest) {
            return Ok(behind);
        }
        rest = statement(alloc, depth, variable, rest, code)?;
    }
    Err(EarlyFault::NotBuilt)
}

/// A condition, and a statement after the jump over it, whose place is not known yet.
#[cycle(statements)]
#[tactic(auto, unfolding(crate::specs::Reading::guarded_at))]
fn guarded<'a>(
    alloc: Global,
    depth: u32,
    variable: &[u8],
    tokens: &'a [Text],
    code: &mut Vec<Instr>,
) -> Result<(Condition, &'a [Text]), EarlyFault>
    requires { length code.old.items ≤ 65536 }
    ensures value { Gives (λ x. (x.0, code.new.items, x.1.now)) result (guarded_at (statement_at variable.now depth) variable.now code.old.items tokens.now) }
    ensures grows { OnOk result ((length code.old.items < length code.new.items) × (length code.new.items ≤ 65536)) }
{
    let (condition, rest) = condition(alloc, variable, tokens)?;
    emit(code, Instr::Unless { condition, to: 0 })?;
    let rest = statement(alloc, depth, variable, rest, code)?;
    Ok((condition, rest))
}

/// The rest of a `while`.
#[cycle(statements)]
#[tactic(auto, unfolding(crate::specs::Reading::loop_at))]
fn while_loop<'a>(
    alloc: Global,
    depth: u32,
    variable: &[u8],
    tokens: &'a [Text],
    code: &mut Vec<Instr>,
) -> Result<&'a [Text], EarlyFault>
    requires { length code.old.items ≤ 65536 }
    ensures value { Gives (λ rest. (code.new.items, rest.now)) result (loop_at (statement_at variable.now depth) variable.now code.old.items tokens.now) }
    ensures grows { OnOk result ((length code.old.items ≤ length code.new.items) × (length code.new.items ≤ 65536)) }
{
    let top = code.len();
    let (condition, rest) = guarded(alloc, depth, variable, tokens, code)?;
    emit(code, Instr::Jump(top as u32))?;
    code[top] = Instr::Unless {
        condition,
        to: code.len() as u32,
    };
    Ok(rest)
}

/// The rest of an `if`.
#[cycle(statements)]
#[tactic(auto, unfolding(crate::specs::Reading::guard_at))]
fn if_guard<'a>(
    alloc: Global,
    depth: u32,
    variable: &[u8],
    tokens: &'a [Text],
    code: &mut Vec<Instr>,
) -> Result<&'a [Text], EarlyFault>
    requires { length code.old.items ≤ 65536 }
    ensures value { Gives (λ rest. (code.new.items, rest.now)) result (guard_at (statement_at variable.now depth) variable.now code.old.items tokens.now) }
    ensures grows { OnOk result ((length code.old.items ≤ length code.new.items) × (length code.new.items ≤ 65536)) }
{
    let top = code.len();
    let (condition, rest) = guarded(alloc, depth, variable, tokens, code)?;
    code[top] = Instr::Unless {
        condition,
        to: code.len() as u32,
    };
    Ok(rest)
}

/// A statement whose inner statements nest at most so deep.
#[cycle(statements)]
#[tactic(auto, unfolding(crate::specs::Reading::statement_with, crate::specs::Reading::statement_by))]
fn nested<'a>(
    alloc: Global,
    depth: u32,
    variable: &[u8],
    tokens: &'a [Text],
    code: &mut Vec<Instr>,
) -> Result<&'a [Text], EarlyFault>
    requires { length code.old.items ≤ 65536 }
    ensures value { Gives (λ rest. (code.new.items, rest.now)) result (statement_with (statement_at variable.now depth) variable.now code.old.items tokens.now) }
    ensures grows { OnOk result ((length code.old.items ≤ length code.new.items) × (length code.new.items ≤ 65536)) }
{
    let (first, rest) = next(tokens)?;
    match keyword_of(first.bytes()) {
        Some(Keyword::Begin) => block(alloc, depth, variable, rest, code),
        Some(Keyword::While) => while_loop(alloc, depth, variable, rest, code),
        Some(Keyword::If) => if_guard(alloc, depth, variable, rest, code),
        Some(Keyword::Write) => show(variable, rest, code),
        Some(Keyword::Save) => save(Instr::Save, rest, code),
        Some(Keyword::IncSave) => save(Instr::IncSave, rest, code),
        Some(Keyword::Finish) => finish(alloc, rest, code),
        None => {
            if !same(first.bytes(), variable) {
                return Err(EarlyFault::NotBuilt);
            }
            getc(rest, code)
        }
    }
}

/// A statement at most so deep: its code is added, and the tokens after it are returned.
#[cycle(statements)]
#[tactic(auto, using(crate::proofs::Depth::statement_never, crate::proofs::Depth::statement_deeper))]
fn statement<'a>(
    alloc: Global,
    depth: u32,
    variable: &[u8],
    tokens: &'a [Text],
    code: &mut Vec<Instr>,
) -> Result<&'a [Text], EarlyFault>
    requires { length code.old.items ≤ 65536 }
    ensures value { Gives (λ rest. (code.new.items, rest.now)) result (statement_at variable.now depth code.old.items tokens.now) }
    ensures grows { OnOk result ((length code.old.items ≤ length code.new.items) × (length code.new.items ≤ 65536)) }
{
    if depth == 0 {
        return Err(EarlyFault::NotBuilt);
    }
    nested(alloc, depth - 1, variable, tokens, code)
}

/// The names of the module and of its integer, up to the process's statement.
#[tactic(auto, unfolding(crate::specs::Reading::header_at, crate::specs::Reading::after_all))]
fn header(tokens: &[Text]) -> Result<(&Text, &Text, &[Text]), EarlyFault>
    ensures { Gives (λ x. (x.0.now, x.1.now, x.2.now)) result (header_at tokens.now) }
{
    let rest = after(b"module", tokens)?;
    let (top, rest) = name(rest)?;
    let rest = after(b";", rest)?;
    let rest = after(b"integer", rest)?;
    let (variable, rest) = name(rest)?;
    let rest = after(b";", rest)?;
    let rest = after(b"initial", rest)?;
    Ok((top, variable, rest))
}

/// The end of the module: nothing stands after it, and the process halts.
#[tactic(auto, unfolding(crate::specs::Reading::closed_at))]
fn close(tokens: &[Text], code: &mut Vec<Instr>) -> Result<(), EarlyFault>
    ensures { Gives (λ _. code.new.items) result (closed_at code.old.items tokens.now) }
{
    let rest = after(b"endmodule", tokens)?;
    if !rest.is_empty() {
        return Err(EarlyFault::NotBuilt);
    }
    emit(code, Instr::Halt)
}

/// The whole module.
#[tactic(auto, unfolding(crate::specs::Reading::source_of))]
fn source(alloc: Global, tokens: &[Text]) -> Result<(Text, Text, Vec<Instr>), EarlyFault>
    ensures { Gives (λ x. record { top = x.0; variable = x.1; code = x.2.items }) result (source_of tokens.now) }
{
    let (top, variable, rest) = header(tokens)?;
    let mut code = Vec::new(alloc);
    let rest = statement(alloc, MOST_DEPTH, variable.bytes(), rest, &mut code)?;
    close(rest, &mut code)?;
    Ok((top.copy()?, variable.copy()?, code))
}

/// The design that the bytes spell, with so many event slots. It is refused as `NotBuilt` exactly
/// where they spell none; `Memory` may come at any time.
pub fn early_design(alloc: Global, bytes: &[u8], slots: u32) -> Result<Design, EarlyFault>
    requires { (1 ≤ slots) × (slots ≤ 16384) }
    ensures found { IfOk result (λ design. IsEarly bytes.now slots design) }
    ensures only { IfOk result (λ design. (other : Program) → IsEarly bytes.now slots other → other ≡ design) }
    ensures not_built { IsErrOf result EarlyFault.NotBuilt → (other : Program) → IsEarly bytes.now slots other → ⊥ }
{
    let tokens = tokens(alloc, bytes)?;
    let (top, variable, code) = source(alloc, tokens.as_slice())?;
    Ok(Design {
        top,
        variable,
        code,
        slots,
    })
}
