//! Modules and designs.

ghost use Rattle.std.specs.Prelude.{◌≡◌, [], ◌∷◌, length};
ghost use Rattle.std.specs.Option.{option_map};
ghost use Rattle.vf_expression.specs.Reading.{Gives};
ghost use Rattle.vf_item.specs.Rows.{row_from};
ghost use Rattle.vf_item.specs.Reading.{item_at};
ghost use Rattle.vf_parse.specs.Reading.{before_end, after_end, module_from, module_at, some_tokens, source_of};

use sqlite_items::Items;
use std::alloc::Global;
use vf_base::Place;
use vf_expression::{Stop, after};
use vf_item::{Front, item, params, port_list};
use vf_lex::Token;
use vf_statement::{is_word, name, strip_word};
use vf_tree::{Item, Module, Source};

/// The tokens, where an item may begin: before anything but `endmodule`.
fn before_end(tokens: &[Token]) -> Option<&[Token]>
    ensures { option_map (λ rest. rest.now) result ≡ before_end tokens.now }
{
    match strip_word(b"endmodule", tokens) {
        Some(_) => None,
        None => Some(tokens),
    }
}

/// The items up to `endmodule`.
#[tactic(auto, unfolding(vf_item::specs::Rows::row_from))]
fn items(alloc: Global, tokens: &[Token]) -> Front<'_, Items<Item>>
    ensures { Gives (λ x. (x.0, x.1.now)) result (row_from before_end item_at (length tokens.now) [] tokens.now) }
{
    let mut items = Items::new(alloc);
    let mut rest = tokens;
    for _ in 0..tokens.len() {
        let Some(next) = before_end(rest) else {
            return Ok((items, rest));
        };
        let (tree, following) = item(alloc, next)?;
        items.push(tree)?;
        rest = following;
    }
    Ok((items, rest))
}

/// The tokens after `endmodule`.
fn after_end(tokens: &[Token]) -> Result<&[Token], Stop>
    ensures { Gives (λ rest. rest.now) result (after_end tokens.now) }
{
    match strip_word(b"endmodule", tokens) {
        Some(rest) => Ok(rest),
        None => Err(Stop::Unexpected(tokens.len())),
    }
}

/// A module, after its word `module`.
#[tactic(auto, unfolding(crate::specs::Reading::module_from))]
fn module_from(alloc: Global, place: Place, tokens: &[Token]) -> Front<'_, Module>
    ensures { Gives (λ x. (x.0, x.1.now)) result (module_from place tokens.now) }
{
    let (name, rest) = name(tokens)?;
    let (params, rest) = params(alloc, rest)?;
    let (ports, rest) = port_list(alloc, rest)?;
    let rest = after(b";", rest)?;
    let (items, rest) = items(alloc, rest)?;
    let rest = after_end(rest)?;
    let tree = Module {
        place,
        name,
        params,
        ports,
        items,
    };
    Ok((tree, rest))
}

/// A module (clause 12.1).
#[tactic(auto, unfolding(crate::specs::Reading::module_at))]
fn module(alloc: Global, tokens: &[Token]) -> Front<'_, Module>
    ensures { Gives (λ x. (x.0, x.1.now)) result (module_at tokens.now) }
{
    match tokens {
        [first, rest @ ..] => {
            if is_word(b"module", &first.kind) {
                return module_from(alloc, first.place, rest);
            }
            Err(Stop::Unexpected(tokens.len()))
        }
        [] => Err(Stop::Unexpected(0)),
    }
}

/// The tokens, where there are any.
fn some_tokens(tokens: &[Token]) -> Option<&[Token]>
    ensures { option_map (λ rest. rest.now) result ≡ some_tokens tokens.now }
{
    match tokens {
        [_, ..] => Some(tokens),
        [] => None,
    }
}

/// The modules after the first one.
#[tactic(auto, unfolding(vf_item::specs::Rows::row_from))]
fn modules(alloc: Global, first: Module, tokens: &[Token]) -> Front<'_, Items<Module>>
    ensures { Gives (λ x. (x.0, x.1.now)) result (row_from some_tokens module_at (length tokens.now) (first ∷ []) tokens.now) }
{
    let mut modules = Items::new(alloc);
    modules.push(first)?;
    let mut rest = tokens;
    for _ in 0..tokens.len() {
        let Some(next) = some_tokens(rest) else {
            return Ok((modules, rest));
        };
        let (tree, following) = module(alloc, next)?;
        modules.push(tree)?;
        rest = following;
    }
    Ok((modules, rest))
}

/// The design that all of the tokens are.
#[tactic(auto, unfolding(crate::specs::Reading::source_of))]
pub fn source(alloc: Global, tokens: &[Token]) -> Result<Source, Stop>
    ensures { Gives (λ tree. tree) result (source_of tokens.now) }
{
    let (first, rest) = module(alloc, tokens)?;
    let place = first.place;
    let (modules, rest) = modules(alloc, first, rest)?;
    if !rest.is_empty() {
        return Err(Stop::Unexpected(rest.len()));
    }
    Ok(Source { place, modules })
}
