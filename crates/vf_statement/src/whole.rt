//! Tokens that are one statement.

ghost use Rattle.std.specs.Prelude.{◌≡◌, ◌≢◌, IfOk, IfErr};
ghost use Rattle.vf_tree.specs.declared.statements.Stmt.{Stmt};
ghost use Rattle.vf_expression.specs.declared.stop.Stop.TheVariants as stops;
ghost use Rattle.vf_expression.specs.Reading.{Gives};
ghost use Rattle.vf_statement.specs.Grammar.{IsStatement};
ghost use Rattle.vf_statement.specs.Reading.{whole_of};

use crate::read::stmt;
use std::alloc::Global;
use vf_expression::{MOST_DEPTH, Stop};
use vf_lex::Token;
use vf_tree::Stmt;

#[tactic(auto, unfolding(crate::specs::Reading::whole_of))]
fn whole(alloc: Global, tokens: &[Token]) -> Result<Stmt, Stop>
    ensures { Gives (λ tree. tree) result (whole_of tokens.now) }
{
    let (tree, _, rest) = stmt(alloc, MOST_DEPTH, tokens)?;
    if !rest.is_empty() {
        return Err(Stop::Unexpected(rest.len()));
    }
    Ok(tree)
}

/// The tree of the statement that all of the tokens are (clause 9; Annex A.6.4). It is refused with `Unexpected` exactly where they
/// are none, or only one of a depth above [`MOST_DEPTH`].
pub fn statement(alloc: Global, tokens: &[Token]) -> Result<Stmt, Stop>
    ensures found { IfOk result (λ tree. IsStatement tokens.now tree) }
    ensures none { IfErr result (λ stop. stop ≢ stops.Memory → (other : Stmt) → IsStatement tokens.now other → ⊥) }
{
    whole(alloc, tokens)
}
