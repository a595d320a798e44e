// The tree of a text's words.
ghost use Rattle.source_words.specs.{Tokens.tokens, Expression.FindsCode, Expression.FindsTree};

use crate::depex::fault::ExpressionFault;
use crate::depex::token::next_token;
use crate::depex::walk::Walk;
use depex_code::{Opcode, Tree};
use pi_base::Seq;
use std::alloc::Global;

// The postfix opcodes of the tree whose words a text has.
fn code_of(alloc: Global, text: &[u8]) -> Result<Seq<Opcode>, ExpressionFault>
    ensures { FindsCode (tokens text.now) result }
{
    let mut walk = Walk::new(alloc);
    let mut rest = text;
    'words: while let Some((token, behind)) = next_token(rest) {
        walk.take(token)?;
        rest = behind;
    }
    walk.finish()
}

/// The tree whose words a text has, with END behind them or not.
pub(crate) fn tree_of(alloc: Global, text: &[u8]) -> Result<Tree, ExpressionFault>
    ensures { FindsTree (tokens text.now) result }
{
    let code = code_of(alloc, text)?;
    Ok(Tree::from_code(code).unwrap())
}
