//! The tokens of a whole text.

ghost use Rattle.std.specs.Prelude.{◌≢◌, ◌+◌, ◌<◌, ◌^◌, length, IfErr, IfOk};
ghost use Rattle.vf_lex.specs.declared.fault.LexKind.TheVariants as kinds;
ghost use Rattle.vf_lex.specs.Tokens.{IsTokens, IsFirstFault};

use crate::read::read;
use crate::reader::Reader;
use crate::spot::Spot;
use crate::{LexFault, Token};
use std::alloc::Global;
use vf_base::Place;

/// The tokens of a design's text of fewer than 2^32 - 1 bytes, with its directives carried out (IEEE Std 1364-2005, clauses 3
/// and 19). Every refusal but out of memory is the text's first fault, of several at one place the one with the smallest
/// number. Time is linear in the text and the texts of macros that it reads, of which there are at most 2^26 bytes.
pub fn tokens(alloc: Global, text: &[u8]) -> Result<Vec<Token>, LexFault>
    requires { length text.now + 1 < 2 ^ 32 }
    ensures tokens { IfOk result (λ tokens. IsTokens text.now tokens.items) }
    ensures fault { IfErr result (λ fault. fault.kind ≢ kinds.Memory → IsFirstFault text.now fault) }
{
    let mut reader = Reader::new(alloc);
    let first = Spot {
        place: Place { line: 1, column: 1 },
        depth: 0,
    };
    read(alloc, &mut reader, first, text)?;
    reader.finish()
}
