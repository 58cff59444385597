//! What a value is made of in a script of numbers: tokens, and values with names in their places.
ghost use Rattle.std.specs.Prelude.{◌≡◌, ◌∷◌, ◌++◌, [], Some, map, option_map, IfOk, OnOk};
ghost use Rattle.std.specs.List.{list_any};
ghost use Rattle.json.specs.Value.{value_view, items_view, members_view};
ghost use Rattle.named.specs.Names.{items_in, members_in};
ghost use Rattle.named.specs.Pieces.{step_of, found, stands, only, spelt, chosen, part_piece, part_pieces, absent_pieces, field_piece, field_pieces, item_pieces, member_pieces, word_pieces, listed_pieces, pieces, in_list, in_object, or_null};
ghost use Rattle.named.specs.Leaf.{leaf};
ghost use Rattle.named.specs.Tables.{fields, pair};
ghost use Rattle.named.specs.Views.{names_of, seen, step_view, piece_view};

use crate::field::{Absent, Field, each, fields, pair};
use crate::names::Names;
use crate::scalar::{Scalar, scalar_of};
use crate::sort::{Choice, Leaf, Object, Sort};
use crate::table::{At, Part, numbered_word, parts, words};
use crate::word::Word;
use json::Value;
use std::alloc::{AllocError, Global};

/// A step into a value.
#[derive(Clone, Copy, Debug)]
pub enum Step<'a> {
    /// To what an object has under a key.
    Key(&'a str),
    /// To an item of a list, from 0.
    Item(usize),
    /// None: the value says more than one thing.
    Same,
}

/// A value of the form in its place.
#[derive(Clone, Copy)]
pub(crate) struct Inner<'v, 'a> {
    pub step: Step<'a>,
    pub sort: Sort,
    pub value: &'v Value<'a>,
}

#[derive(Clone, Copy)]
pub(crate) enum Piece<'v, 'a> {
    BeginArray,
    EndArray,
    BeginObject,
    EndObject,
    Key(Word),
    Text(Word),
    Scalar(Scalar<'a>),
    Inner(Inner<'v, 'a>),
}

impl At {
    /// The step into a value to what stands there.
    pub(crate) fn step<'a>(self) -> Step<'a>
        ensures { step_view result ≡ step_of self }
    {
        match self {
            At::Key(word) => Step::Key(word.text()),
            At::Item(n) => Step::Item(n),
            At::Same => Step::Same,
        }
    }

    /// What stands there.
    pub(crate) fn find<'v, 'a>(self, value: &'v Value<'a>) -> Option<&'v Value<'a>>
        ensures { seen result ≡ found self (value_view value.now) }
    {
        match self {
            At::Key(word) => value.get(word.text()),
            At::Item(n) => value.at(n),
            At::Same => Some(value),
        }
    }
}

/// The word that chooses: in a tree the first item is one, elsewhere one alone stands as a key.
pub fn chosen(choice: Choice, value: &Value<'_>) -> Option<Word>
    ensures { result ≡ chosen choice (value_view value.now) }
{
    match choice {
        Choice::Tree => spelt(words(choice), value.at(0)?.as_str()?),
        _ => only(words(choice), value),
    }
}

/// The only one of some words that stands as a key.
fn only(words: &[Word], value: &Value<'_>) -> Option<Word>
    ensures { result ≡ only words.now (value_view value.now) }
{
    for (n, word) in words.iter().enumerate() {
        if stands(value, *word) {
            return if stands_any(value, &words[n + 1..]) {
                None
            } else {
                Some(*word)
            };
        }
    }
    None
}

/// Whether a word stands as a key of a value.
fn stands(value: &Value<'_>, word: Word) -> bool
    ensures { result ≡ stands (value_view value.now) word }
{
    value.get(word.text()).is_some()
}

/// Whether one of some words stands as a key of a value.
fn stands_any(value: &Value<'_>, words: &[Word]) -> bool
    ensures { result ≡ list_any (stands (value_view value.now)) words.now }
{
    words.iter().any(|word| stands(value, *word))
}

/// The one of some words that a text is.
fn spelt(words: &[Word], text: &str) -> Option<Word>
    ensures { result ≡ spelt words.now text.now }
{
    for word in words {
        if word.text() == text {
            return Some(*word);
        }
    }
    None
}

/// The pieces of a value, in order.
pub(crate) fn pieces_of<'v, 'a>(
    alloc: Global,
    names: &Names<'_>,
    sort: Sort,
    value: &'v Value<'a>,
) -> Result<Vec<Piece<'v, 'a>>, AllocError>
    ensures { IfOk result (λ found. map piece_view found.items ≡ pieces sort (names_of names.now) (value_view value.now)) }
{
    let mut found = Vec::new(alloc);
    push_pieces(names, sort, value, &mut found)?;
    Ok(found)
}

/// Adds the pieces of a value with names, by its sort.
fn push_pieces<'v, 'a>(
    names: &Names<'_>,
    sort: Sort,
    value: &'v Value<'a>,
    found: &mut Vec<Piece<'v, 'a>>,
) -> Result<(), AllocError>
    ensures { OnOk result (map piece_view found.new.items ≡ map piece_view found.old.items ++ pieces sort (names_of names.now) (value_view value.now)) }
{
    match sort {
        Sort::Leaf(leaf) => push_piece(scalar_piece(names, leaf, value), found),
        Sort::OneOf(choice) => push_word(choice, value, chosen(choice, value), found),
        Sort::An(object) => push_object(object, value, found),
        _ => push_list(sort, value, found),
    }
}

/// Adds a piece behind the others.
fn push_piece<'v, 'a>(
    piece: Piece<'v, 'a>,
    found: &mut Vec<Piece<'v, 'a>>,
) -> Result<(), AllocError>
    ensures { OnOk result (map piece_view found.new.items ≡ map piece_view found.old.items ++ piece_view piece.entry ∷ []) }
{
    found.push(piece)?;
    Ok(())
}

/// The piece of a value without parts; null where it is not what it should be.
fn scalar_piece<'v, 'a>(names: &Names<'_>, asked: Leaf, value: &Value<'a>) -> Piece<'v, 'a>
    ensures { piece_view result ≡ or_null (leaf asked (names_of names.now) (value_view value.now)) }
{
    match scalar_of(names, asked, value) {
        Some(scalar) => Piece::Scalar(scalar),
        None => Piece::Scalar(Scalar::Null),
    }
}

/// Adds the list that a script of numbers has for an action, a source or a tree: its word and its parts; null where no word was
/// chosen.
fn push_word<'v, 'a>(
    choice: Choice,
    value: &'v Value<'a>,
    word: Option<Word>,
    found: &mut Vec<Piece<'v, 'a>>,
) -> Result<(), AllocError>
    ensures { OnOk result (map piece_view found.new.items ≡ map piece_view found.old.items ++ word_pieces choice (value_view value.now) word) }
{
    let Some(word) = word else {
        return push_piece(Piece::Scalar(Scalar::Null), found);
    };
    found.extend_from_slice(&[Piece::BeginArray, Piece::Text(numbered_word(word))])?;
    push_parts(parts(choice, word), value, found)?;
    push_piece(Piece::EndArray, found)
}

/// Adds the piece of each part behind a word.
fn push_parts<'v, 'a>(
    parts: &[Part],
    value: &'v Value<'a>,
    found: &mut Vec<Piece<'v, 'a>>,
) -> Result<(), AllocError>
    ensures { OnOk result (map piece_view found.new.items ≡ map piece_view found.old.items ++ part_pieces parts.now (value_view value.now)) }
{
    for part in parts {
        push_piece(part_piece(part, part.at.find(value)), found)?;
    }
    Ok(())
}

/// The piece of a part: the value with names in its place, or null where it is missing.
fn part_piece<'v, 'a>(part: &Part, value: Option<&'v Value<'a>>) -> Piece<'v, 'a>
    ensures { piece_view result ≡ part_piece part.now (seen value.entry) }
{
    match value {
        Some(value) => Piece::Inner(Inner {
            step: part.at.step(),
            sort: part.sort,
            value,
        }),
        None => Piece::Scalar(Scalar::Null),
    }
}

/// Adds an object with its fields, between its brackets.
fn push_object<'v, 'a>(
    object: Object,
    value: &'v Value<'a>,
    found: &mut Vec<Piece<'v, 'a>>,
) -> Result<(), AllocError>
    ensures { OnOk result (map piece_view found.new.items ≡ map piece_view found.old.items ++ in_object (field_pieces (fields object) (value_view value.now))) }
{
    push_piece(Piece::BeginObject, found)?;
    push_fields(fields(object), value, found)?;
    push_piece(Piece::EndObject, found)
}

/// Adds each field of an object, with its key.
fn push_fields<'v, 'a>(
    fields: &[Field],
    value: &'v Value<'a>,
    found: &mut Vec<Piece<'v, 'a>>,
) -> Result<(), AllocError>
    ensures { OnOk result (map piece_view found.new.items ≡ map piece_view found.old.items ++ field_pieces fields.now (value_view value.now)) }
{
    for field in fields {
        push_field(field, field.at.find(value), found)?;
    }
    Ok(())
}

/// Adds the key of a field and its value, or the number that stands for one that is absent, where there is such a number.
fn push_field<'v, 'a>(
    field: &Field,
    value: Option<&'v Value<'a>>,
    found: &mut Vec<Piece<'v, 'a>>,
) -> Result<(), AllocError>
    ensures { OnOk result (map piece_view found.new.items ≡ map piece_view found.old.items ++ field_piece field.now (seen value.entry)) }
{
    let piece = match (value, field.absent) {
        (Some(value), _) => Piece::Inner(Inner {
            step: field.at.step(),
            sort: field.sort,
            value,
        }),
        (None, Absent::Number(n)) => Piece::Scalar(Scalar::Whole(n)),
        (None, _) => return Ok(()),
    };
    found.extend_from_slice(&[Piece::Key(field.key), piece])
}

/// Adds a list with what stands in it, between its brackets.
fn push_list<'v, 'a>(
    sort: Sort,
    value: &'v Value<'a>,
    found: &mut Vec<Piece<'v, 'a>>,
) -> Result<(), AllocError>
    ensures { OnOk result (map piece_view found.new.items ≡ map piece_view found.old.items ++ in_list (listed_pieces sort (value_view value.now))) }
{
    push_piece(Piece::BeginArray, found)?;
    push_listed(sort, value, found)?;
    push_piece(Piece::EndArray, found)
}

/// Adds what stands in a list: a tick and bits, the items of a list or the members of an object.
fn push_listed<'v, 'a>(
    sort: Sort,
    value: &'v Value<'a>,
    found: &mut Vec<Piece<'v, 'a>>,
) -> Result<(), AllocError>
    ensures { OnOk result (map piece_view found.new.items ≡ map piece_view found.old.items ++ listed_pieces sort (value_view value.now)) }
{
    match sort {
        Sort::Pair => push_parts(pair(), value, found),
        Sort::Actions | Sort::Levels => push_items(each(sort), value, found),
        _ => push_members(each(sort), value, found),
    }
}

/// Adds the items of a list, where the value is one.
fn push_items<'v, 'a>(
    sort: Sort,
    value: &'v Value<'a>,
    found: &mut Vec<Piece<'v, 'a>>,
) -> Result<(), AllocError>
    ensures { OnOk result (map piece_view found.new.items ≡ map piece_view found.old.items ++ item_pieces 0 sort (items_in (Some (value_view value.now)))) }
{
    match value {
        Value::Array(items) => push_each_item(sort, items.as_slice(), found),
        _ => Ok(()),
    }
}

/// Adds each of these items as a value of one sort, with the step to it.
fn push_each_item<'v, 'a>(
    sort: Sort,
    items: &'v [Value<'a>],
    found: &mut Vec<Piece<'v, 'a>>,
) -> Result<(), AllocError>
    ensures { OnOk result (map piece_view found.new.items ≡ map piece_view found.old.items ++ item_pieces 0 sort (items_view items.now)) }
{
    for (n, value) in items.iter().enumerate() {
        let step = Step::Item(n);
        push_piece(Piece::Inner(Inner { step, sort, value }), found)?;
    }
    Ok(())
}

/// Adds the values of the members of an object, where the value is one: its keys are names, whose order gives the numbers.
fn push_members<'v, 'a>(
    sort: Sort,
    value: &'v Value<'a>,
    found: &mut Vec<Piece<'v, 'a>>,
) -> Result<(), AllocError>
    ensures { OnOk result (map piece_view found.new.items ≡ map piece_view found.old.items ++ member_pieces sort (members_in (Some (value_view value.now)))) }
{
    match value {
        Value::Object(members) => push_each_member(sort, members.as_slice(), found),
        _ => Ok(()),
    }
}

/// Adds the value of each of these members as one of a sort, with the step to it.
fn push_each_member<'v, 'a>(
    sort: Sort,
    members: &'v [(&'a str, Value<'a>)],
    found: &mut Vec<Piece<'v, 'a>>,
) -> Result<(), AllocError>
    ensures { OnOk result (map piece_view found.new.items ≡ map piece_view found.old.items ++ member_pieces sort (members_view members.now)) }
{
    for member in members {
        let step = Step::Key(member.0);
        let value = &member.1;
        push_piece(Piece::Inner(Inner { step, sort, value }), found)?;
    }
    Ok(())
}
