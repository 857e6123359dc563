//! The pieces of a line, and the writing of them.

ghost use Rattle.std.specs.Prelude.{◌≡◌, ◌++◌, OnOk, map, codes, decimal, flat_map};
ghost use Rattle.ov_model.specs.Replies.{line, numbers};
ghost use Rattle.ov_reply.specs.Pieces.{piece_text, pieces_text};

use itoa::Buffer;
use std::alloc::AllocError;

/// A piece of a line: a text, a number that is written in decimal, or such numbers with commas between them.
#[derive(Clone, Copy)]
pub(crate) enum Piece<'a> {
    Text(&'a [u8]),
    Number(u64),
    Numbers(&'a [u32]),
}

pub(crate) fn write_number(n: u64, out: &mut Vec<u8>) -> Result<(), AllocError>
    ensures { OnOk result (out.new.items ≡ out.old.items ++ piece_text (Piece.Number n)) }
{
    let mut number = Buffer::new();
    out.extend_from_slice(number.format(n).as_bytes())
}

fn write_piece(piece: &Piece, out: &mut Vec<u8>) -> Result<(), AllocError>
    ensures { OnOk result (out.new.items ≡ out.old.items ++ piece_text piece.now) }
{
    match piece {
        Piece::Text(text) => out.extend_from_slice(text),
        Piece::Number(n) => write_number(*n, out),
        Piece::Numbers(ns) => write_numbers(ns, out),
    }
}

/// Writes the pieces one after another.
pub(crate) fn write_pieces(pieces: &[Piece], out: &mut Vec<u8>) -> Result<(), AllocError>
    ensures { OnOk result (out.new.items ≡ out.old.items ++ pieces_text pieces.now) }
{
    for piece in pieces {
        write_piece(piece, out)?;
    }
    Ok(())
}

/// Writes the pieces one after another, and a line feed.
pub(crate) fn write_line(pieces: &[Piece], out: &mut Vec<u8>) -> Result<(), AllocError>
    ensures { OnOk result (out.new.items ≡ out.old.items ++ line (map piece_text pieces.now)) }
{
    write_pieces(pieces, out)?;
    out.push(b'\n')?;
    Ok(())
}

fn write_numbers(ns: &[u32], out: &mut Vec<u8>) -> Result<(), AllocError>
    ensures { OnOk result (out.new.items ≡ out.old.items ++ numbers ns.now) }
{
    match ns {
        [] => Ok(()),
        [first, rest @ ..] => {
            write_number(*first as u64, out)?;
            write_more(rest, out)
        }
    }
}

fn write_more(ns: &[u32], out: &mut Vec<u8>) -> Result<(), AllocError>
    ensures { OnOk result (out.new.items ≡ out.old.items ++ flat_map (λ n. codes "," ++ decimal n) ns.now) }
{
    for n in ns {
        out.push(b',')?;
        write_number(*n as u64, out)?;
    }
    Ok(())
}
