ghost use Rattle.std.specs.Prelude.{◌≡◌, ◌++◌, ◌<◌, true, length, slice_get, OnOk};
ghost use Rattle.vf_elaborated.specs.Layout.{HoldsValues, scene_at};
ghost use Rattle.vf_elaborated.specs.Printing.{piece_text, text_of};
ghost use Rattle.vf_elaborated.specs.WellFormed.{is_part};

use vf_base::{Memory, Text};
use vf_elaborated::{Design, Piece};
use vf_expr::eval;
use vf_format::print;
use vf_machine::Words;

/// Appends one part of what a task prints.
fn print_piece<W: Words>(
    design: &Design,
    words: &W,
    piece: &Piece,
    into: &mut Text,
) -> Result<(), Memory>
    requires part { is_part design.now.signals piece.now ≡ true }
    requires held { HoldsValues design.now (W.contents words.now) }
    ensures { OnOk result (into.new ≡ into.old ++ piece_text design.now.signals (scene_at design.now (W.past_end words.now) (W.contents words.now)) piece.now) }
{
    match piece {
        Piece::Plain(text) => into.push_all(text.bytes()),
        Piece::Value { form, least, value } => print(
            *form,
            *least,
            eval(design, words, value),
            into,
        ),
    }
}

/// Appends what the show of a number prints (IEEE Std 1364-2005, 17.1). Each value in the words has its width. The only refusal is that
/// it is out of memory; the text then has a part of it at most.
pub fn print_show<W: Words>(
    design: &Design,
    words: &W,
    show: usize,
    into: &mut Text,
) -> Result<(), Memory>
    requires show { show < length design.now.shows }
    requires held { HoldsValues design.now (W.contents words.now) }
    ensures { OnOk result (into.new ≡ into.old ++ text_of design.now.signals (scene_at design.now (W.past_end words.now) (W.contents words.now)) (slice_get design.now.shows show)) }
{
    let show = &design.shows.as_slice()[show];
    for piece in show.pieces.as_slice() {
        print_piece(design, words, piece, into)?;
    }
    if show.line {
        into.push_all(b"\n")?;
    }
    Ok(())
}
