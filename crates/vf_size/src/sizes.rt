//! The shape of an expression, and the value of a constant one (IEEE Std 1364-2005, clause 5).
ghost use Rattle.std.specs.Prelude.{◌≡◌, ◌≤◌, ◌<◌, true, false, length, map, IfOk};
ghost use Rattle.vf_size.specs.Worths.{plain_worth, name_worth};
ghost use Rattle.vf_size.specs.Sizes.{size_of, sign_of, constant_of, width_of, total, owns, joined_worth, low_of, told_of, form_of, primary_of, choice_of, select_of, widths, count_of, bound, part_of, visit, ahead, settled, index_of, value_of, worth, unless_constant, name_shape, plain_shape, memory_shape, by_element, element_of, bits_of};

use crate::base::{Base, fault, look_up};
use crate::part::{Part, bit_of, down_of, range_of, up_of};
use crate::rules::{
    binary_size, binary_value, fitted, joined, left_at, marked_by, more, operand_at, right_at,
    times, unary_size, unary_value,
};
use crate::values::{below, constant_value, part_value, picked, repeated};
use crate::{Shape, SizeFault, SizeKind};
use vf_base::Place;
use vf_elaborated::Signal;
use vf_fours::Fours;
use vf_scope::Scope;
use vf_tree::{ExprForm, Name, PrimaryForm, Select, SelectForm, TreeExpr};

/// What is no constant.
fn unless_constant(place: Place, shape: Shape, constant: bool) -> Result<Shape, SizeFault>
    ensures { result ≡ unless_constant place shape constant }
{
    if constant {
        return Err(fault(SizeKind::NotConstant, place));
    }
    Ok(shape)
}

fn ahead(place: Place, part: &Result<Option<Part>, SizeFault>) -> Result<(), SizeFault>
    ensures { result ≡ ahead place part.now }
{
    match part {
        Ok(None) => Err(fault(SizeKind::Width, place)),
        _ => Ok(()),
    }
}

fn settled(place: Place, part: &Result<Option<Part>, SizeFault>) -> Result<Part, SizeFault>
    ensures { result ≡ settled place part.now }
{
    match part {
        Ok(None) => Err(fault(SizeKind::Width, place)),
        Ok(Some(part)) => Ok(*part),
        Err(fault) => Err(*fault),
    }
}

/// An element stands by one index.
#[tactic(auto, using(crate::proofs::Nodes::choice_one, crate::proofs::Nodes::choice_range, crate::proofs::Nodes::choice_up, crate::proofs::Nodes::choice_down))]
fn by_element(
    scope: &Scope,
    signals: &[Signal],
    place: Place,
    form: &SelectForm,
) -> Result<(), SizeFault>
    ensures { result ≡ by_element place (choice_of scope.now signals.now form.now) }
{
    match form {
        SelectForm::One(_) => Ok(()),
        SelectForm::Part { .. } => Err(fault(SizeKind::Width, place)),
        SelectForm::Up { .. } => Err(fault(SizeKind::Width, place)),
        SelectForm::Down { .. } => Err(fault(SizeKind::Width, place)),
    }
}

/// How often a replication repeats its parts.
#[cycle(sizes)]
fn count_of(
    scope: &Scope,
    signals: &[Signal],
    place: Place,
    count: &TreeExpr,
) -> Result<u32, SizeFault>
    ensures { result ≡ count_of place (told_of scope.now signals.now count.now).told }
{
    match times(own_value(scope, signals, count)?) {
        None => Err(fault(SizeKind::Width, place)),
        Some(n) => Ok(n),
    }
}

/// A constant of 64 bits.
#[cycle(sizes)]
#[tactic(auto, using(crate::proofs::Nodes::told_form))]
fn bound(scope: &Scope, signals: &[Signal], e: &TreeExpr) -> Result<i64, SizeFault>
    ensures { result ≡ bound (told_of scope.now signals.now e.now) }
{
    match own_value(scope, signals, e)?.to_i64() {
        None => Err(fault(SizeKind::Width, e.place)),
        Some(n) => Ok(n),
    }
}

/// Which bits a select takes; None where it does not fit the declaration.
#[cycle(sizes)]
#[tactic(auto, using(crate::proofs::Nodes::part_one, crate::proofs::Nodes::part_range, crate::proofs::Nodes::part_up, crate::proofs::Nodes::part_down))]
fn part_of(
    scope: &Scope,
    signals: &[Signal],
    base: &Base,
    form: &SelectForm,
) -> Result<Option<Part>, SizeFault>
    ensures { result ≡ part_of base.now (choice_of scope.now signals.now form.now) }
{
    match form {
        SelectForm::One(_) => Ok(bit_of(base)),
        SelectForm::Part { left, right } => {
            let first = bound(scope, signals, left)?;
            let last = bound(scope, signals, right)?;
            Ok(range_of(base, first, last))
        }
        SelectForm::Up { width, .. } => {
            let width = bound(scope, signals, width)?;
            Ok(up_of(base, width))
        }
        SelectForm::Down { width, .. } => {
            let width = bound(scope, signals, width)?;
            Ok(down_of(base, width))
        }
    }
}

/// The faults of the index of a select.
#[cycle(sizes)]
#[tactic(auto, using(crate::proofs::Nodes::choice_one, crate::proofs::Nodes::choice_range, crate::proofs::Nodes::choice_up, crate::proofs::Nodes::choice_down))]
fn visit(
    scope: &Scope,
    signals: &[Signal],
    constant: bool,
    form: &SelectForm,
) -> Result<(), SizeFault>
    ensures { result ≡ visit constant (index_of (choice_of scope.now signals.now form.now)) }
{
    match form {
        SelectForm::One(index) => {
            shape(scope, signals, constant, index)?;
            Ok(())
        }
        SelectForm::Part { .. } => Ok(()),
        SelectForm::Up { base, .. } => {
            shape(scope, signals, constant, base)?;
            Ok(())
        }
        SelectForm::Down { base, .. } => {
            shape(scope, signals, constant, base)?;
            Ok(())
        }
    }
}

/// The bits of the parts together, where 129 stands for any number above 128.
#[cycle(sizes)]
fn widths(
    scope: &Scope,
    signals: &[Signal],
    constant: bool,
    parts: &[TreeExpr],
) -> Result<u32, SizeFault>
    ensures is { result ≡ widths constant 0 (map (told_of scope.now signals.now) parts.now) }
    ensures small { IfOk result (λ n. n ≤ 129) }
{
    let mut bits = 0;
    for part in parts {
        bits = more(bits, shape(scope, signals, constant, part)?.width());
    }
    Ok(bits)
}

/// The shape of an expression by itself.
#[cycle(sizes)]
#[tactic(auto, using(crate::proofs::Nodes::told_form))]
fn shape(
    scope: &Scope,
    signals: &[Signal],
    constant: bool,
    e: &TreeExpr,
) -> Result<Shape, SizeFault>
    ensures { result ≡ (told_of scope.now signals.now e.now).told.shape constant }
{
    form_shape(scope, signals, constant, e.form.get())
}

#[cycle(sizes)]
#[tactic(auto, using(crate::proofs::Nodes::form_plain, crate::proofs::Nodes::shape_one, crate::proofs::Nodes::shape_two, crate::proofs::Nodes::shape_pick))]
fn form_shape(
    scope: &Scope,
    signals: &[Signal],
    constant: bool,
    form: &ExprForm,
) -> Result<Shape, SizeFault>
    ensures { result ≡ (form_of scope.now signals.now form.now).shape constant }
{
    match form {
        ExprForm::Plain(primary) => {
            primary_shape(scope, signals, constant, primary.place, &primary.form)
        }
        ExprForm::One { op, of } => Ok(unary_size(*op, shape(scope, signals, constant, of)?)),
        ExprForm::Two { op, left, right } => {
            let left = shape(scope, signals, constant, left)?;
            let right = shape(scope, signals, constant, right)?;
            Ok(binary_size(*op, left, right))
        }
        ExprForm::Pick { cond, yes, no } => {
            shape(scope, signals, constant, cond)?;
            let yes = shape(scope, signals, constant, yes)?;
            let no = shape(scope, signals, constant, no)?;
            Ok(yes.common(no))
        }
    }
}

#[cycle(sizes)]
#[tactic(auto, using(crate::proofs::Nodes::primary_number, crate::proofs::Nodes::shape_name, crate::proofs::Nodes::primary_paren, crate::proofs::Nodes::primary_concat, crate::proofs::Nodes::shape_repeat, crate::proofs::Nodes::primary_time, crate::proofs::Nodes::primary_feof, crate::proofs::Nodes::shape_sign))]
fn primary_shape(
    scope: &Scope,
    signals: &[Signal],
    constant: bool,
    place: Place,
    form: &PrimaryForm,
) -> Result<Shape, SizeFault>
    ensures { result ≡ (primary_of scope.now signals.now form.now place).shape constant }
{
    match form {
        PrimaryForm::Number(number) => Ok(Shape::of(number.value)),
        PrimaryForm::Name { name, selects } => {
            name_shape(scope, signals, constant, name, selects.as_slice())
        }
        PrimaryForm::Paren(of) => shape(scope, signals, constant, of),
        PrimaryForm::Concat(parts) => {
            joined(place, widths(scope, signals, constant, parts.as_slice())?)
        }
        PrimaryForm::Repeat { count, parts } => {
            let n = count_of(scope, signals, place, count)?;
            let bits = widths(scope, signals, constant, parts.as_slice())?;
            joined(place, n * bits)
        }
        PrimaryForm::Time => unless_constant(place, Shape::new(64, false), constant),
        PrimaryForm::Feof(of) => {
            let own = unless_constant(place, Shape::new(32, true), constant)?;
            shape(scope, signals, constant, of)?;
            Ok(own)
        }
        PrimaryForm::Sign { call, of } => {
            Ok(marked_by(*call, shape(scope, signals, constant, of)?))
        }
    }
}

#[cycle(sizes)]
fn name_shape(
    scope: &Scope,
    signals: &[Signal],
    constant: bool,
    name: &Name,
    selects: &[Select],
) -> Result<Shape, SizeFault>
    ensures { result ≡ name_shape scope.now signals.now name.now (map (select_of scope.now signals.now) selects.now) constant }
{
    let base = look_up(scope, signals, constant, name)?;
    if base.memory {
        memory_shape(scope, signals, constant, name.place, &base, selects)
    } else {
        plain_shape(scope, signals, constant, name.place, &base, selects)
    }
}

/// The bits that a select takes of a value.
#[cycle(sizes)]
fn bits(
    scope: &Scope,
    signals: &[Signal],
    constant: bool,
    place: Place,
    base: &Base,
    form: &SelectForm,
) -> Result<Part, SizeFault>
    ensures { result ≡ bits_of place base.now constant (choice_of scope.now signals.now form.now) }
{
    let part = part_of(scope, signals, base, form);
    ahead(place, &part)?;
    visit(scope, signals, constant, form)?;
    settled(place, &part)
}

/// An element of a memory.
#[cycle(sizes)]
fn element(
    scope: &Scope,
    signals: &[Signal],
    constant: bool,
    place: Place,
    form: &SelectForm,
) -> Result<(), SizeFault>
    ensures { result ≡ element_of place constant (choice_of scope.now signals.now form.now) }
{
    by_element(scope, signals, place, form)?;
    visit(scope, signals, constant, form)
}

/// A name that is no memory, or bits of it.
#[cycle(sizes)]
#[tactic(auto, using(crate::proofs::Nodes::plain_one, crate::proofs::Nodes::plain_many))]
fn plain_shape(
    scope: &Scope,
    signals: &[Signal],
    constant: bool,
    place: Place,
    base: &Base,
    selects: &[Select],
) -> Result<Shape, SizeFault>
    ensures { result ≡ plain_shape place base.now constant (map (select_of scope.now signals.now) selects.now) }
{
    match selects {
        [] => Ok(base.shape),
        [select] => {
            let part = bits(scope, signals, constant, place, base, &select.form)?;
            Ok(part.shape)
        }
        [_, _, ..] => Err(fault(SizeKind::Width, place)),
    }
}

/// A memory by one element, or bits of one.
#[cycle(sizes)]
#[tactic(auto, using(crate::proofs::Nodes::memory_one, crate::proofs::Nodes::memory_two, crate::proofs::Nodes::memory_many))]
fn memory_shape(
    scope: &Scope,
    signals: &[Signal],
    constant: bool,
    place: Place,
    base: &Base,
    selects: &[Select],
) -> Result<Shape, SizeFault>
    ensures { result ≡ memory_shape place base.now constant (map (select_of scope.now signals.now) selects.now) }
{
    match selects {
        [] => Err(fault(SizeKind::Width, place)),
        [index] => {
            element(scope, signals, constant, place, &index.form)?;
            Ok(base.shape)
        }
        [index, select] => {
            by_element(scope, signals, place, &index.form)?;
            let part = part_of(scope, signals, base, &select.form);
            ahead(place, &part)?;
            visit(scope, signals, constant, &index.form)?;
            visit(scope, signals, constant, &select.form)?;
            let part = settled(place, &part)?;
            Ok(part.shape)
        }
        [_, _, _, ..] => Err(fault(SizeKind::Width, place)),
    }
}

/// The value of a constant, sized by itself.
#[cycle(sizes)]
fn own_value(scope: &Scope, signals: &[Signal], e: &TreeExpr) -> Result<Fours, SizeFault>
    ensures is { result ≡ value_of (told_of scope.now signals.now e.now).told }
    ensures width { IfOk result (λ v. length v.bits ≡ width_of ((told_of scope.now signals.now e.now).told.shape true)) }
{
    let own = shape(scope, signals, true, e)?;
    value(scope, signals, e, own)
}

/// The value of a constant as its context wants it.
#[cycle(sizes)]
#[tactic(auto, using(crate::proofs::ValueLemmas::value_told))]
fn value(scope: &Scope, signals: &[Signal], e: &TreeExpr, to: Shape) -> Result<Fours, SizeFault>
    ensures is { result ≡ worth ((told_of scope.now signals.now e.now).told.typed true to) }
    ensures width { IfOk result (λ v. length v.bits ≡ to.width) }
{
    form_value(scope, signals, e.form.get(), to)
}

#[cycle(sizes)]
#[tactic(auto, using(crate::proofs::ValueLemmas::value_plain, crate::proofs::ValueLemmas::value_one, crate::proofs::ValueLemmas::value_two, crate::proofs::ValueLemmas::value_pick, crate::proofs::ValueLemmas::operand_wide, crate::proofs::ValueLemmas::operands_same, crate::proofs::ValueLemmas::left_wide))]
fn form_value(
    scope: &Scope,
    signals: &[Signal],
    form: &ExprForm,
    to: Shape,
) -> Result<Fours, SizeFault>
    ensures is { result ≡ worth ((form_of scope.now signals.now form.now).typed true to) }
    ensures width { IfOk result (λ v. length v.bits ≡ to.width) }
{
    match form {
        ExprForm::Plain(primary) => {
            primary_value(scope, signals, primary.place, &primary.form, to)
        }
        ExprForm::One { op, of } => {
            let own = shape(scope, signals, true, of)?;
            let operand = value(scope, signals, of, operand_at(*op, own, to))?;
            Ok(unary_value(*op, operand, to))
        }
        ExprForm::Two { op, left, right } => {
            let a = shape(scope, signals, true, left)?;
            let b = shape(scope, signals, true, right)?;
            let x = value(scope, signals, left, left_at(*op, a, b, to))?;
            let y = value(scope, signals, right, right_at(*op, a, b, to))?;
            Ok(binary_value(*op, x, y, to))
        }
        ExprForm::Pick { cond, yes, no } => {
            let cond = own_value(scope, signals, cond)?;
            let yes = value(scope, signals, yes, to)?;
            let no = value(scope, signals, no, to)?;
            Ok(picked(cond, yes, no))
        }
    }
}

#[cycle(sizes)]
#[tactic(auto, using(crate::proofs::ValueLemmas::value_number, crate::proofs::ValueLemmas::value_name, crate::proofs::ValueLemmas::value_paren, crate::proofs::ValueLemmas::value_concat, crate::proofs::ValueLemmas::value_repeat, crate::proofs::ValueLemmas::value_time, crate::proofs::ValueLemmas::value_feof, crate::proofs::ValueLemmas::value_sign))]
fn primary_value(
    scope: &Scope,
    signals: &[Signal],
    place: Place,
    form: &PrimaryForm,
    to: Shape,
) -> Result<Fours, SizeFault>
    ensures is { result ≡ worth ((primary_of scope.now signals.now form.now place).typed true to) }
    ensures width { IfOk result (λ v. length v.bits ≡ to.width) }
{
    match form {
        PrimaryForm::Number(number) => Ok(fitted(Shape::of(number.value), to, number.value)),
        PrimaryForm::Name { name, selects } => {
            name_value(scope, signals, name, selects.as_slice(), to)
        }
        PrimaryForm::Paren(of) => value(scope, signals, of, to),
        PrimaryForm::Concat(parts) => {
            let parts = parts.as_slice();
            let bits = widths(scope, signals, true, parts)?;
            let own = joined(place, bits)?;
            let value = parts_value(scope, signals, parts)?;
            Ok(fitted(own, to, value))
        }
        PrimaryForm::Repeat { count, parts } => {
            let parts = parts.as_slice();
            let n = count_of(scope, signals, place, count)?;
            let bits = widths(scope, signals, true, parts)?;
            let own = joined(place, n * bits)?;
            let value = parts_value(scope, signals, parts)?;
            Ok(fitted(own, to, repeated(n, value)))
        }
        PrimaryForm::Time => Err(fault(SizeKind::NotConstant, place)),
        PrimaryForm::Feof(_) => Err(fault(SizeKind::NotConstant, place)),
        PrimaryForm::Sign { call, of } => {
            let own = shape(scope, signals, true, of)?;
            let marked = marked_by(*call, own);
            let value = value(scope, signals, of, own)?;
            Ok(fitted(marked, to, fitted(own, marked, value)))
        }
    }
}

/// The value of a parameter, or of bits of it, as its context wants it.
#[cycle(sizes)]
fn name_value(
    scope: &Scope,
    signals: &[Signal],
    name: &Name,
    selects: &[Select],
    to: Shape,
) -> Result<Fours, SizeFault>
    ensures is { result ≡ name_worth scope.now signals.now name.now (map (select_of scope.now signals.now) selects.now) to }
    ensures width { IfOk result (λ v. length v.bits ≡ to.width) }
{
    let base = look_up(scope, signals, true, name)?;
    let value = constant_value(scope, name)?;
    parameter_value(scope, signals, name.place, &base, value, selects, to)
}

#[cycle(sizes)]
fn parameter_value(
    scope: &Scope,
    signals: &[Signal],
    place: Place,
    base: &Base,
    value: Fours,
    selects: &[Select],
    to: Shape,
) -> Result<Fours, SizeFault>
    ensures is { result ≡ plain_worth place base.now value (map (select_of scope.now signals.now) selects.now) to }
    ensures width { IfOk result (λ v. length v.bits ≡ to.width) }
{
    match selects {
        [] => Ok(fitted(Shape::of(value), to, value)),
        [select] => {
            let part = bits(scope, signals, true, place, base, &select.form)?;
            let index = low_value(scope, signals, &select.form)?;
            Ok(fitted(part.shape, to, part_value(value, &part, index)))
        }
        [_, _, ..] => Err(fault(SizeKind::Width, place)),
    }
}

/// The value of the index of the least bit.
#[cycle(sizes)]
#[tactic(auto, using(crate::proofs::ValueLemmas::low_one, crate::proofs::ValueLemmas::low_range, crate::proofs::ValueLemmas::low_up, crate::proofs::ValueLemmas::low_down))]
fn low_value(scope: &Scope, signals: &[Signal], form: &SelectForm) -> Result<Fours, SizeFault>
    ensures { result ≡ worth (low_of true (choice_of scope.now signals.now form.now)) }
{
    match form {
        SelectForm::One(index) => own_value(scope, signals, index),
        SelectForm::Part { right, .. } => own_value(scope, signals, right),
        SelectForm::Up { base, .. } => own_value(scope, signals, base),
        SelectForm::Down { base, .. } => own_value(scope, signals, base),
    }
}

/// The values of the parts of a concatenation in one.
#[cycle(sizes)]
fn parts_value(scope: &Scope, signals: &[Signal], parts: &[TreeExpr]) -> Result<Fours, SizeFault>
    ensures is { 0 < length parts.now → total (map (told_of scope.now signals.now) parts.now) ≤ 128 → result ≡ joined_worth (owns true (map (told_of scope.now signals.now) parts.now)) }
    ensures width { 1 ≤ total (map (told_of scope.now signals.now) parts.now) → total (map (told_of scope.now signals.now) parts.now) ≤ 128 → IfOk result (λ v. length v.bits ≡ total (map (told_of scope.now signals.now) parts.now)) }
{
    let mut all = Fours::all_x(1, false);
    let mut some = false;
    for part in parts {
        let value = own_value(scope, signals, part)?;
        all = below(some, all, value);
        some = true;
    }
    Ok(all)
}

/// How many bits the value of an expression has by itself, from 1 to 128 (IEEE Std 1364-2005, 5.4.1). It is refused exactly where a
/// name is not declared or a width cannot be, with the first such fault in the text. It takes no memory.
pub fn size_of(scope: &Scope, signals: &[Signal], e: &TreeExpr) -> Result<u32, SizeFault>
    ensures { result ≡ size_of scope.now signals.now e.now }
{
    let own = shape(scope, signals, false, e)?;
    Ok(own.width())
}

/// Whether an expression by itself is signed (clause 5.5.1). It is refused exactly where [`size_of`] is, with the same fault. It takes
/// no memory.
pub fn sign_of(scope: &Scope, signals: &[Signal], e: &TreeExpr) -> Result<bool, SizeFault>
    ensures { result ≡ sign_of scope.now signals.now e.now }
{
    let own = shape(scope, signals, false, e)?;
    Ok(own.is_signed())
}

/// The value of a constant expression, sized by itself (clause 4.10). It is refused exactly where a name is not declared, is a signal,
/// or `$time` or `$feof` stands there, or where a width cannot be, with the first such fault in the text. It takes no memory.
pub fn constant(scope: &Scope, signals: &[Signal], e: &TreeExpr) -> Result<Fours, SizeFault>
    ensures { result ≡ constant_of scope.now signals.now e.now }
{
    own_value(scope, signals, e)
}
