//! Parameters and ports in the header of a module.

ghost use Rattle.std.specs.Prelude.{◌≡◌};
ghost use Rattle.vf_expression.specs.Reading.{Gives};
ghost use Rattle.vf_statement.specs.Reading.{name_at};
ghost use Rattle.vf_item.specs.Reading.{pparam_from, pparam_at, hport_at, declared_at, bare_at, aport_at, names_at, declarations_at, ports_at, some_ports, port_list_from, port_list_at, params_from, params_at};

use crate::Front;
use crate::rows::{Piece, more, series};
use crate::shapes::{PortShape, Shape, init, port_shape, read_shape};
use crate::words::is_name;
use sqlite_items::Items;
use std::alloc::Global;
use vf_base::Place;
use vf_expression::{Stop, after, strip};
use vf_lex::Token;
use vf_statement::{is_word, name};
use vf_tree::{Aport, AportForm, Hport, Name, Ports, PortsForm, Pparam};

/// A parameter that begins at the place, after its word `parameter`, if it has one.
#[tactic(auto, unfolding(crate::specs::Reading::pparam_from))]
fn pparam_from(alloc: Global, place: Place, parameter: bool, tokens: &[Token]) -> Front<'_, Pparam>
    ensures { Gives (λ x. (x.0, x.1.now)) result (pparam_from place parameter tokens.now) }
{
    let (shape, rest) = read_shape(alloc, tokens)?;
    let (name, rest) = name(rest)?;
    let (value, rest) = init(alloc, rest)?;
    let tree = Pparam {
        place,
        parameter,
        signed: shape.signed,
        range: shape.range,
        name,
        value,
    };
    Ok((tree, rest))
}

/// A parameter (clause 4.10.1).
#[tactic(auto, unfolding(crate::specs::Reading::pparam_at))]
fn pparam(alloc: Global, tokens: &[Token]) -> Front<'_, Pparam>
    ensures { Gives (λ x. (x.0, x.1.now)) result (pparam_at tokens.now) }
{
    match tokens {
        [first, rest @ ..] => {
            if is_word(b"parameter", &first.kind) {
                return pparam_from(alloc, first.place, true, rest);
            }
            pparam_from(alloc, first.place, false, tokens)
        }
        [] => Err(Stop::Unexpected(0)),
    }
}

impl Piece for Pparam {
    ghost reads = { pparam_at };

    fn read(alloc: Global, tokens: &[Token]) -> Front<'_, Pparam> {
        pparam(alloc, tokens)
    }
}

/// A declared port (clause 12.3.4).
#[tactic(auto, unfolding(crate::specs::Reading::hport_at))]
fn hport(alloc: Global, tokens: &[Token]) -> Front<'_, Hport>
    ensures { Gives (λ x. (x.0, x.1.now)) result (hport_at tokens.now) }
{
    let (port, rest) = port_shape(alloc, tokens)?;
    let (name, rest) = name(rest)?;
    let PortShape { dir, kind, shape } = port;
    let Shape { signed, range } = shape;
    let tree = Hport {
        place: dir.place,
        dir,
        word: kind,
        signed,
        range,
        name,
    };
    Ok((tree, rest))
}

#[tactic(auto, unfolding(crate::specs::Reading::declared_at))]
fn declared(alloc: Global, tokens: &[Token]) -> Front<'_, Aport>
    ensures { Gives (λ x. (x.0, x.1.now)) result (declared_at tokens.now) }
{
    let (port, rest) = hport(alloc, tokens)?;
    let place = port.place;
    let form = AportForm::Declared(port);
    Ok((Aport { place, form }, rest))
}

#[tactic(auto, unfolding(crate::specs::Reading::bare_at))]
fn bare(tokens: &[Token]) -> Front<'_, Aport>
    ensures { Gives (λ x. (x.0, x.1.now)) result (bare_at tokens.now) }
{
    let (name, rest) = name(tokens)?;
    let place = name.place;
    let form = AportForm::Name(name);
    Ok((Aport { place, form }, rest))
}

/// A port after a declared one.
#[tactic(auto, unfolding(crate::specs::Reading::aport_at))]
fn aport(alloc: Global, tokens: &[Token]) -> Front<'_, Aport>
    ensures { Gives (λ x. (x.0, x.1.now)) result (aport_at tokens.now) }
{
    match tokens {
        [first, ..] => {
            if is_name(&first.kind) {
                return bare(tokens);
            }
            declared(alloc, tokens)
        }
        [] => Err(Stop::Unexpected(0)),
    }
}

impl Piece for Aport {
    ghost reads = { aport_at };

    fn read(alloc: Global, tokens: &[Token]) -> Front<'_, Aport> {
        aport(alloc, tokens)
    }
}

impl Piece for Name {
    ghost reads = { name_at };

    fn read(_alloc: Global, tokens: &[Token]) -> Front<'_, Name> {
        name(tokens)
    }
}

/// Ports that are names alone, of which the first begins at the place.
#[tactic(auto, unfolding(crate::specs::Reading::names_at))]
fn names(alloc: Global, place: Place, tokens: &[Token]) -> Front<'_, Ports>
    ensures { Gives (λ x. (x.0, x.1.now)) result (names_at place tokens.now) }
{
    let (names, rest) = series(alloc, tokens)?;
    let form = PortsForm::Names(names);
    Ok((Ports { place, form }, rest))
}

/// Ports of which the first is declared.
#[tactic(auto, unfolding(crate::specs::Reading::declarations_at))]
fn declarations(alloc: Global, tokens: &[Token]) -> Front<'_, Ports>
    ensures { Gives (λ x. (x.0, x.1.now)) result (declarations_at tokens.now) }
{
    let (first, rest) = hport(alloc, tokens)?;
    let place = first.place;
    let none = Items::new(alloc);
    let (more, rest) = more(alloc, none, rest)?;
    let form = PortsForm::Declared { first, more };
    Ok((Ports { place, form }, rest))
}

/// The ports of a header (clause 12.3), of which there is one at least.
#[tactic(auto, unfolding(crate::specs::Reading::ports_at))]
fn ports(alloc: Global, tokens: &[Token]) -> Front<'_, Ports>
    ensures { Gives (λ x. (x.0, x.1.now)) result (ports_at tokens.now) }
{
    match tokens {
        [first, ..] => {
            if is_name(&first.kind) {
                return names(alloc, first.place, tokens);
            }
            declarations(alloc, tokens)
        }
        [] => Err(Stop::Unexpected(0)),
    }
}

/// Ports and the `)` after them.
#[tactic(auto, unfolding(crate::specs::Reading::some_ports))]
fn some_ports(alloc: Global, tokens: &[Token]) -> Front<'_, Option<Option<Ports>>>
    ensures { Gives (λ x. (x.0, x.1.now)) result (some_ports tokens.now) }
{
    let (ports, rest) = ports(alloc, tokens)?;
    let rest = after(b")", rest)?;
    Ok((Some(Some(ports)), rest))
}

/// The port list of a module, after its `(`.
#[tactic(auto, unfolding(crate::specs::Reading::port_list_from))]
fn port_list_from(alloc: Global, tokens: &[Token]) -> Front<'_, Option<Option<Ports>>>
    ensures { Gives (λ x. (x.0, x.1.now)) result (port_list_from tokens.now) }
{
    match strip(b")", tokens) {
        Some(rest) => Ok((Some(None), rest)),
        None => some_ports(alloc, tokens),
    }
}

/// The port list of a module (clause 12.3.1), where one stands in front.
#[tactic(auto, unfolding(crate::specs::Reading::port_list_at))]
pub fn port_list(alloc: Global, tokens: &[Token]) -> Front<'_, Option<Option<Ports>>>
    ensures { Gives (λ x. (x.0, x.1.now)) result (port_list_at tokens.now) }
{
    match strip(b"(", tokens) {
        Some(rest) => port_list_from(alloc, rest),
        None => Ok((None, tokens)),
    }
}

/// The parameters of a header, after their `#`.
#[tactic(auto, unfolding(crate::specs::Reading::params_from))]
fn params_from(alloc: Global, tokens: &[Token]) -> Front<'_, Option<Items<Pparam>>>
    ensures { Gives (λ x. (x.0, x.1.now)) result (params_from tokens.now) }
{
    let rest = after(b"(", tokens)?;
    let (params, rest) = series(alloc, rest)?;
    let rest = after(b")", rest)?;
    Ok((Some(params), rest))
}

/// The parameters of a header (clause 4.10.1), where a list of them stands in front.
#[tactic(auto, unfolding(crate::specs::Reading::params_at))]
pub fn params(alloc: Global, tokens: &[Token]) -> Front<'_, Option<Items<Pparam>>>
    ensures { Gives (λ x. (x.0, x.1.now)) result (params_at tokens.now) }
{
    match strip(b"#", tokens) {
        Some(rest) => params_from(alloc, rest),
        None => Ok((None, tokens)),
    }
}
