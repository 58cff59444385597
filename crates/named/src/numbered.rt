//! Writing a value with names as one of numbers.
ghost use Rattle.std.specs.Prelude.{◌≡◌, ◌++◌, map, IfOk, OnOk};
ghost use Rattle.json.specs.Print.{print};
ghost use Rattle.json.specs.Value.{value_view};
ghost use Rattle.named.specs.Views.{names_of, piece_view, tokens_of};
ghost use Rattle.named.specs.Written.{filled, levels, together, written};

use crate::names::Names;
use crate::piece::{Piece, pieces_of};
use crate::scalar::Scalar;
use crate::sort::{Object, Sort};
use json::{Value, Writer};
use std::alloc::{AllocError, Global};

/// How many levels of a script are looked at: no value that is read has more, with those of an action's own object.
pub(crate) const LEVELS: u32 = 160;

/// A script as one of numbers.
pub(crate) fn numbered_text(
    alloc: Global,
    names: &Names<'_>,
    script: &Value<'_>,
) -> Result<Vec<u8>, AllocError>
    ensures { IfOk result (λ bytes. bytes.items ≡ print (written levels (names_of names.now) (Sort.An Object.Script) (value_view script.now))) }
{
    let mut writer = Writer::new(Vec::new(alloc));
    let sort = Sort::An(Object::Script);
    write(alloc, names, sort, script, LEVELS, &mut writer)?;
    Ok(writer.into_inner())
}

/// Writes a value; so many levels of it are looked at.
#[cycle(write)]
#[tactic(auto, using(crate::proofs::Levels::written_step, crate::proofs::Levels::written_none))]
fn write(
    alloc: Global,
    names: &Names<'_>,
    sort: Sort,
    value: &Value<'_>,
    levels: u32,
    writer: &mut Writer,
) -> Result<(), AllocError>
    ensures tokens { OnOk result (writer.new.tokens ≡ writer.old.tokens ++ written levels (names_of names.now) sort (value_view value.now)) }
    ensures before { OnOk result (writer.new.before ≡ writer.old.before) }
{
    if levels == 0 {
        return writer.null();
    }
    let pieces = pieces_of(alloc, names, sort, value)?;
    write_each(alloc, names, pieces.as_slice(), levels - 1, writer)
}

/// Writes each piece of a value as a script of numbers has it.
#[cycle(write)]
fn write_each(
    alloc: Global,
    names: &Names<'_>,
    pieces: &[Piece<'_, '_>],
    levels: u32,
    writer: &mut Writer,
) -> Result<(), AllocError>
    ensures tokens { OnOk result (writer.new.tokens ≡ writer.old.tokens ++ together (filled (written levels (names_of names.now))) (map piece_view pieces.now)) }
    ensures before { OnOk result (writer.new.before ≡ writer.old.before) }
{
    for piece in pieces {
        write_piece(alloc, names, piece, levels, writer)?;
    }
    Ok(())
}

/// Writes a piece: a token as it is, and a value with names as one of numbers.
#[cycle(write)]
fn write_piece(
    alloc: Global,
    names: &Names<'_>,
    piece: &Piece<'_, '_>,
    levels: u32,
    writer: &mut Writer,
) -> Result<(), AllocError>
    ensures tokens { OnOk result (writer.new.tokens ≡ writer.old.tokens ++ filled (written levels (names_of names.now)) (piece_view piece.now)) }
    ensures before { OnOk result (writer.new.before ≡ writer.old.before) }
{
    match piece {
        Piece::BeginArray => writer.begin_array(),
        Piece::EndArray => writer.end_array(),
        Piece::BeginObject => writer.begin_object(),
        Piece::EndObject => writer.end_object(),
        Piece::Key(word) => writer.key(word.text()),
        Piece::Text(word) => writer.string(word.text()),
        Piece::Scalar(scalar) => write_scalar(scalar, writer),
        Piece::Inner(inner) => write(alloc, names, inner.sort, inner.value, levels, writer),
    }
}

/// Writes a value without parts.
fn write_scalar(scalar: &Scalar<'_>, writer: &mut Writer) -> Result<(), AllocError>
    ensures tokens { OnOk result (writer.new.tokens ≡ writer.old.tokens ++ tokens_of scalar.now) }
    ensures before { OnOk result (writer.new.before ≡ writer.old.before) }
{
    match scalar {
        Scalar::Nothing => Ok(()),
        Scalar::Null => writer.null(),
        Scalar::Bool(truth) => writer.boolean(*truth),
        Scalar::Whole(number) => writer.u64(*number),
        Scalar::Digits(text) => if json::is_number(text) {
            writer.number(text)
        } else {
            Err(AllocError)
        },
    }
}
