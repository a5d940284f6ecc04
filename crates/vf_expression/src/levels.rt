//! Where a tree is too deep. In this module a level counts from 0, which is the tree itself; what stands directly in an expression of one
//! level has the next.

use sqlite_items::Items;
use vf_base::Place;
use vf_lex::Token;
use vf_tree::{ExprForm, PrimaryForm, Select, SelectForm, TreeExpr};

/// The first of two expressions that has one of the level in it.
#[cycle(levels)]
fn in_pair(level: u32, left: &TreeExpr, right: &TreeExpr) -> Option<Place> {
    match first_at(level, left) {
        Some(place) => Some(place),
        None => first_at(level, right),
    }
}

#[cycle(levels)]
fn in_select(level: u32, select: &Select) -> Option<Place> {
    match &select.form {
        SelectForm::One(index) => first_at(level, index),
        SelectForm::Part { left, right } => in_pair(level, left, right),
        SelectForm::Up { base, width } => in_pair(level, base, width),
        SelectForm::Down { base, width } => in_pair(level, base, width),
    }
}

#[cycle(levels)]
fn in_selects(level: u32, selects: &[Select]) -> Option<Place> {
    for select in selects {
        if let Some(place) = in_select(level, select) {
            return Some(place);
        }
    }
    None
}

#[cycle(levels)]
fn in_all(level: u32, trees: &[TreeExpr]) -> Option<Place> {
    for tree in trees {
        if let Some(place) = first_at(level, tree) {
            return Some(place);
        }
    }
    None
}

#[cycle(levels)]
fn in_repeat(level: u32, count: &TreeExpr, parts: &Items<TreeExpr>) -> Option<Place> {
    match first_at(level, count) {
        Some(place) => Some(place),
        None => in_all(level, parts.as_slice()),
    }
}

#[cycle(levels)]
fn in_primary(level: u32, form: &PrimaryForm) -> Option<Place> {
    match form {
        PrimaryForm::Number(_) | PrimaryForm::Time => None,
        PrimaryForm::Name { name: _, selects } => in_selects(level, selects.as_slice()),
        PrimaryForm::Paren(of) | PrimaryForm::Feof(of) => first_at(level, of),
        PrimaryForm::Concat(parts) => in_all(level, parts.as_slice()),
        PrimaryForm::Repeat { count, parts } => in_repeat(level, count, parts),
        PrimaryForm::Sign { call: _, of } => first_at(level, of),
    }
}

#[cycle(levels)]
fn in_pick(level: u32, cond: &TreeExpr, yes: &TreeExpr, no: &TreeExpr) -> Option<Place> {
    match first_at(level, cond) {
        Some(place) => Some(place),
        None => in_pair(level, yes, no),
    }
}

#[cycle(levels)]
fn in_form(level: u32, form: &ExprForm) -> Option<Place> {
    match form {
        ExprForm::Plain(primary) => in_primary(level, &primary.form),
        ExprForm::One { op: _, of } => first_at(level, of),
        ExprForm::Two { op: _, left, right } => in_pair(level, left, right),
        ExprForm::Pick { cond, yes, no } => in_pick(level, cond, yes, no),
    }
}

/// The place of the first expression of the level, in the order of the text.
#[cycle(levels)]
fn first_at(level: u32, tree: &TreeExpr) -> Option<Place> {
    if level == 0 {
        return Some(tree.place);
    }
    in_form(level - 1, tree.form.get())
}

/// How many tokens there are from the first one at the place on.
fn left_from(place: Place, tokens: &[Token]) -> usize {
    let mut rest = tokens;
    for _ in 0..tokens.len() {
        let Some((first, more)) = rest.split_first() else {
            return 0;
        };
        if first.place == place {
            return rest.len();
        }
        rest = more;
    }
    0
}

/// How many tokens there are from the first expression of the level on, in a tree whose tokens are in front.
pub fn left_at(level: u32, tree: &TreeExpr, tokens: &[Token]) -> usize {
    match first_at(level, tree) {
        Some(place) => left_from(place, tokens),
        None => tokens.len(),
    }
}
