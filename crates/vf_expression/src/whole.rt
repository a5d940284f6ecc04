//! Tokens that are one expression.

ghost use Rattle.std.specs.Prelude.{◌≡◌, ◌≢◌, IfOk, IfErr};
ghost use Rattle.vf_tree.specs.declared.expressions.TreeExpr.{TreeExpr};
ghost use Rattle.vf_expression.specs.declared.stop.Stop.TheVariants as stops;
ghost use Rattle.vf_expression.specs.Grammar.{IsExpression};
ghost use Rattle.vf_expression.specs.Reading.{Gives, whole_of};

use crate::Stop;
use crate::read::expr;
use std::alloc::Global;
use vf_lex::Token;
use vf_tree::TreeExpr;

/// The greatest depth of an expression or a statement.
pub const MOST_DEPTH: u32 = 200;

#[tactic(auto, unfolding(crate::specs::Reading::whole_of))]
fn whole(alloc: Global, tokens: &[Token]) -> Result<TreeExpr, Stop>
    ensures { Gives (λ tree. tree) result (whole_of tokens.now) }
{
    let (tree, _, rest) = expr(alloc, MOST_DEPTH, 1, tokens)?;
    if !rest.is_empty() {
        return Err(Stop::Unexpected(rest.len()));
    }
    Ok(tree)
}

/// The tree of the expression that all of the tokens are (clause 5; Annex A.8.3). It is refused with `Unexpected` exactly where
/// they are none, or only one of a depth above [`MOST_DEPTH`].
pub fn expression(alloc: Global, tokens: &[Token]) -> Result<TreeExpr, Stop>
    ensures found { IfOk result (λ tree. IsExpression tokens.now tree) }
    ensures none { IfErr result (λ stop. stop ≢ stops.Memory → (other : TreeExpr) → IsExpression tokens.now other → ⊥) }
{
    whole(alloc, tokens)
}
