ghost use Rattle.std.specs.Prelude.{◌≡◌, ◌<◌, ◌∷◌, [], IfOk, MatchBool, MatchOption, OnErr, OnOk, None, Some, false, slice_get, true};
ghost use Rattle.indexmap.specs.IndexMap.{IsUnchanged, index_map_len, keys};
ghost use Rattle.mv_cover.specs.Literal.{Lit as a_lit};
ghost use Rattle.mv_meets.specs.Search.{Improves, Saves};
ghost use Rattle.mv_gains.specs.Answers.{Forgets, IsBehindBest, IsLed, IsSymbolAt, IsSettled, Notes, answer_for, known_of};

use indexmap::IndexMap;
use mv_base::Memory;
use mv_cover::{Cube, Lit};
use mv_meets::{Found, is_ahead};
use std::alloc::Global;

/// What came of a search among the parts of lines that begin with a symbol.
#[derive(Drop)]
pub struct Searched {
    /// None of them is better than this one.
    pub best: Option<Found>,
    /// It is one of them, and not only better.
    pub is_here: bool,
}

/// For each symbol what is known of the parts that begin with it, if something is.
#[derive(Drop)]
pub struct Answers {
    pub known: IndexMap<Lit, Option<Searched>>,
}

/// No symbols.
pub fn no_answers(alloc: Global) -> Answers
    ensures keys { keys result.known ≡ [] }
    ensures none { (l : a_lit) → known_of result l ≡ None }
{
    Answers {
        known: IndexMap::new(alloc),
    }
}

/// What was known of the symbols of the cubes isn't any more.
pub fn forget_all(answers: &mut Answers, cubes: &[Cube]) -> Result<(), Memory>
    ensures { OnOk result (Forgets cubes.now answers.old answers.new) }
{
    for cube in cubes {
        forget_each(answers, cube.lits())?;
    }
    Ok(())
}

/// What was known of the symbols isn't any more.
fn forget_each(answers: &mut Answers, symbols: &[Lit]) -> Result<(), Memory>
    ensures { OnOk result (Forgets (symbols.now ∷ []) answers.old answers.new) }
{
    for symbol in symbols {
        forget(answers, symbol)?;
    }
    Ok(())
}

/// What was known of the symbol isn't any more.
fn forget(answers: &mut Answers, symbol: &Lit) -> Result<(), Memory>
    ensures { OnOk result (Forgets ((symbol.now ∷ []) ∷ []) answers.old answers.new) }
{
    answers.known.insert(symbol.copy()?, None)?;
    Ok(())
}

/// The best of the parts that are known.
pub fn leader_of(answers: &Answers) -> Result<Option<Found>, Memory>
    ensures { IfOk result (IsLed answers.now None) }
{
    let mut best = None;
    for place in 0..answers.known.len() {
        best = led_by(answers, place, best)?;
    }
    Ok(best)
}

/// The part at the place, where one is known there that is better than the best so far, which else stays.
fn led_by(answers: &Answers, place: usize, best: Option<Found>) -> Result<Option<Found>, Memory>
    ensures { IfOk result (IsLed answers.now best) }
{
    let Some((_symbol, Some(searched))) = answers.known.get_index(place) else {
        return Ok(best);
    };
    let Some(found) = &searched.best else {
        return Ok(best);
    };
    if !searched.is_here || !is_ahead(&best, found.saved, &found.cube) {
        return Ok(best);
    }
    Ok(Some(copied(found)?))
}

/// The symbol at the place, unless it is known that none of its parts is better than the best so far.
pub fn unsettled(
    answers: &Answers,
    place: usize,
    best: &Option<Found>,
) -> Result<Option<Lit>, Memory>
    requires place { place < index_map_len answers.now.known }
    requires best { Saves best.now }
    ensures { IfOk result (λ found. MatchOption found
        (IsSettled answers.now place best.now)
        (IsSymbolAt answers.now place)) }
{
    let (symbol, known) = answers.known.get_index(place).unwrap();
    if is_settled(known, best) {
        return Ok(None);
    }
    Ok(Some(symbol.copy()?))
}

/// Whether what is known tells that no part is better than the best so far.
fn is_settled(known: &Option<Searched>, best: &Option<Found>) -> bool
    requires { Saves best.now }
    ensures { result ≡ true → IsBehindBest known.now best.now }
{
    match known {
        Some(searched) => !is_better(&searched.best, best),
        None => false,
    }
}

/// Whether the one is better than the other.
fn is_better(one: &Option<Found>, other: &Option<Found>) -> bool
    requires { Saves other.now }
    ensures { result ≡ false → Improves one.now other.now }
{
    match one {
        None => false,
        Some(found) => is_ahead(other, found.saved, &found.cube),
    }
}

/// Notes what was found among the parts that begin with the symbol, where this one was given.
pub fn note_answer(
    answers: &mut Answers,
    symbol: Lit,
    given: &Option<Found>,
    found: &Option<Found>,
) -> Result<(), Memory>
    ensures ok { OnOk result
        (Notes symbol (answer_for given.now found.now) answers.old answers.new) }
    ensures err { OnErr result (IsUnchanged answers.old.known answers.new.known) }
{
    let searched = answer_of(given, found)?;
    answers.known.insert(symbol, Some(searched))?;
    Ok(())
}

/// What is known where this was found, or else this was given.
fn answer_of(given: &Option<Found>, found: &Option<Found>) -> Result<Searched, Memory>
    ensures { IfOk result (λ searched. searched ≡ answer_for given.now found.now) }
{
    match found {
        Some(found) => Ok(Searched {
            best: Some(copied(found)?),
            is_here: true,
        }),
        None => Ok(Searched {
            best: copied_given(given)?,
            is_here: false,
        }),
    }
}

/// A copy of the best part, if there is one.
fn copied_given(given: &Option<Found>) -> Result<Option<Found>, Memory>
    ensures { IfOk result (λ copy. copy ≡ given.now) }
{
    match given {
        Some(found) => Ok(Some(copied(found)?)),
        None => Ok(None),
    }
}

/// A copy of the part.
fn copied(found: &Found) -> Result<Found, Memory>
    ensures { IfOk result (λ copy. copy ≡ found.now) }
{
    Ok(Found {
        cube: found.cube.copy()?,
        saved: found.saved,
    })
}
