//! The faults of a script with names, gathered place by place through all of it.
ghost use Rattle.std.specs.Prelude.{◌≡◌, ◌++◌, ◌∷◌, [], map, IfOk, OnOk};
ghost use Rattle.json.specs.Value.{value_view};
ghost use Rattle.named.specs.Faults.{found_at, faults_in, together, within, own};
ghost use Rattle.named.specs.Views.{names_of, step_view, piece_view, found_of};
ghost use Rattle.named.specs.Written.{levels};

use crate::fault::Fault;
use crate::names::Names;
use crate::numbered::LEVELS;
use crate::own::own_causes;
use crate::piece::{Piece, Step, pieces_of};
use crate::sort::{Object, Sort};
use json::Value;
use std::alloc::{AllocError, Global};

/// The faults of a script: of each value its own, then those of the values in it.
pub(crate) fn script_faults<'a>(
    alloc: Global,
    names: &Names<'_>,
    script: &Value<'a>,
) -> Result<Vec<Fault<'a>>, AllocError>
    ensures { IfOk result (λ faults. map found_of faults.items ≡ faults_in levels (names_of names.now) [] (Sort.An Object.Script) (value_view script.now)) }
{
    let mut place = Vec::new(alloc);
    let mut faults = Vec::new(alloc);
    check(
        alloc,
        names,
        Sort::An(Object::Script),
        script,
        LEVELS,
        &mut place,
        &mut faults,
    )?;
    Ok(faults)
}

/// Adds the faults of a value at a place; so many levels of it are looked at.
#[cycle(check)]
fn check<'a>(
    alloc: Global,
    names: &Names<'_>,
    sort: Sort,
    value: &Value<'a>,
    levels: u32,
    place: &mut Vec<Step<'a>>,
    faults: &mut Vec<Fault<'a>>,
) -> Result<(), AllocError>
    ensures faults { OnOk result (map found_of faults.new.items ≡ map found_of faults.old.items ++ faults_in levels (names_of names.now) (map step_view place.old.items) sort (value_view value.now)) }
    ensures place { OnOk result (map step_view place.new.items ≡ map step_view place.old.items) }
{
    if levels == 0 {
        return Ok(());
    }
    push_own(alloc, names, sort, value, place, faults)?;
    let pieces = pieces_of(alloc, names, sort, value)?;
    check_each(alloc, names, pieces.as_slice(), levels - 1, place, faults)
}

/// Gathers the faults of the values with names that these pieces hold, each at its place.
#[cycle(check)]
fn check_each<'a>(
    alloc: Global,
    names: &Names<'_>,
    pieces: &[Piece<'_, 'a>],
    levels: u32,
    place: &mut Vec<Step<'a>>,
    faults: &mut Vec<Fault<'a>>,
) -> Result<(), AllocError>
    ensures faults { OnOk result (map found_of faults.new.items ≡ map found_of faults.old.items ++ together (within (λ step. faults_in levels (names_of names.now) (map step_view place.old.items ++ step ∷ []))) (map piece_view pieces.now)) }
    ensures place { OnOk result (map step_view place.new.items ≡ map step_view place.old.items) }
{
    for piece in pieces {
        check_piece(alloc, names, piece, levels, place, faults)?;
    }
    Ok(())
}

/// Gathers the faults of the value with names that a piece holds; a token has none.
#[cycle(check)]
fn check_piece<'a>(
    alloc: Global,
    names: &Names<'_>,
    piece: &Piece<'_, 'a>,
    levels: u32,
    place: &mut Vec<Step<'a>>,
    faults: &mut Vec<Fault<'a>>,
) -> Result<(), AllocError>
    ensures faults { OnOk result (map found_of faults.new.items ≡ map found_of faults.old.items ++ within (λ step. faults_in levels (names_of names.now) (map step_view place.old.items ++ step ∷ [])) (piece_view piece.now)) }
    ensures place { OnOk result (map step_view place.new.items ≡ map step_view place.old.items) }
{
    let Piece::Inner(inner) = piece else {
        return Ok(());
    };
    place.push(inner.step)?;
    check(alloc, names, inner.sort, inner.value, levels, place, faults)?;
    let _ = place.pop();
    Ok(())
}

/// Adds the faults that a value with names itself has, the values in it apart, at its place.
fn push_own<'a>(
    alloc: Global,
    names: &Names<'_>,
    sort: Sort,
    value: &Value<'a>,
    place: &Vec<Step<'a>>,
    faults: &mut Vec<Fault<'a>>,
) -> Result<(), AllocError>
    ensures { OnOk result (map found_of faults.new.items ≡ map found_of faults.old.items ++ found_at (map step_view place.now.items) sort (own sort (names_of names.now) (value_view value.now))) }
{
    let causes = own_causes(alloc, names, sort, value)?;
    for cause in causes.as_slice() {
        faults.push(Fault {
            place: Vec::from_slice(alloc, place.as_slice())?,
            sort,
            cause: *cause,
        })?;
    }
    Ok(())
}
