ghost use Rattle.std.specs.Prelude.{◌≡◌, ◌<◌, ◌≤◌, ◌^◌, Ok, length, IfOk, IfSome};
ghost use Rattle.mv_base.specs.declared.limits.TheConstants.{MAX_VALUES as most_values};
ghost use Rattle.mv_fault.specs.Tells.{Tells};
ghost use Rattle.mv_base.specs.Names.{place_of};
ghost use Rattle.mv_word.specs.Entries.{word_set};
ghost use Rattle.mv_table.specs.Entries.{AreLookedUp, places_of, same_at, out_word, entry_faults, ins_faults, ins_said, outs_faults, outs_said};

use mv_base::{Memory, Name, PackedSet};
use mv_decl::Decls;
use mv_design::{Entries, Entry, Sets};
use mv_fault::ParseFault;
use mv_word::{EntryFault, begins_with, byte_set, word_set};
use smallvec::SmallVec;
use std::alloc::Global;

/// Where the nets of columns are declared. Those of eight columns take no memory.
type Places = SmallVec<Option<usize>, 8>;

/// The columns of a table, each with the place at which its net is declared, which is looked up once.
#[derive(Drop)]
pub struct Columns<'a> {
    pub ins: &'a [Name],
    pub in_places: Places,
    pub outs: &'a [Name],
    pub out_places: Places,
}

impl<'a> Columns<'a> {
    /// These columns, whose nets are looked up.
    pub fn placed(
        alloc: Global,
        decls: &Decls,
        ins: &'a [Name],
        outs: &'a [Name],
    ) -> Result<Columns<'a>, Memory>
        ensures placed { IfOk result (λ columns. AreLookedUp decls.now columns) }
        ensures ins { IfOk result (λ columns. columns.ins.now ≡ ins.now) }
        ensures outs { IfOk result (λ columns. columns.outs.now ≡ outs.now) }
    {
        Ok(Columns {
            ins,
            in_places: places(alloc, decls, ins)?,
            outs,
            out_places: places(alloc, decls, outs)?,
        })
    }
}

/// Where the nets of columns are declared.
fn places(alloc: Global, decls: &Decls, nets: &[Name]) -> Result<Places, Memory>
    ensures { IfOk result (λ places. places.items ≡ places_of decls.now nets.now) }
{
    let mut places = SmallVec::with_capacity(alloc, nets.len())?;
    for net in nets {
        places.push(decls.place(net))?;
    }
    Ok(places)
}

/// What the word says as a set of values, to be kept. Most words are of one byte, which is looked at first.
fn entry_set(
    alloc: Global,
    number: u32,
    values: &[Name],
    word: &[u8],
) -> Result<PackedSet, ParseFault>
    requires { length values.now ≤ most_values }
    ensures fault { Tells result (entry_faults number (word_set values.now word.now)) }
    ensures ok { IfOk result (λ set. word_set values.now word.now ≡ Ok set) }
{
    match byte_set(alloc, values, word) {
        Some(set) => Ok(set),
        None => long_set(alloc, number, values, word),
    }
}

/// The same of any word.
fn long_set(
    alloc: Global,
    number: u32,
    values: &[Name],
    word: &[u8],
) -> Result<PackedSet, ParseFault>
    requires { length values.now ≤ most_values }
    ensures fault { Tells result (entry_faults number (word_set values.now word.now)) }
    ensures ok { IfOk result (λ set. word_set values.now word.now ≡ Ok set) }
{
    match word_set(alloc, values, word) {
        Ok(set) => Ok(set),
        Err(EntryFault::Unknown(word)) => Err(ParseFault::UnknownValue { line: number, word }),
        Err(EntryFault::Equal(name)) => Err(ParseFault::BadEqual { line: number, name }),
        Err(EntryFault::Memory) => Err(ParseFault::Memory),
    }
}

/// The place of the first of the columns with this name.
fn place(columns: &[Name], name: &Name) -> Option<usize>
    ensures place { result ≡ place_of name.now columns.now }
    ensures within { IfSome result (λ place. place < length columns.now) }
{
    columns.iter().position(|column| name == column)
}

/// The input column that an output entry `=x` names, where the columns' nets are declared at these places.
fn same_entry(
    alloc: Global,
    number: u32,
    decls: &Decls,
    ins: &[Name],
    places: &[Option<usize>],
    values: &[Name],
    name: &[u8],
) -> Result<Entry, ParseFault>
    requires few { length ins.now < 2 ^ 32 }
    requires places { places.now ≡ places_of decls.now ins.now }
    ensures fault { Tells result
        (entry_faults number (same_at decls.now values.now name.now (place_of name.now ins.now))) }
    ensures ok { IfOk result
        (λ entry. same_at decls.now values.now name.now (place_of name.now ins.now) ≡ Ok entry) }
{
    let name = Name::new(alloc, name)?;
    let Some(place) = place(ins, &name) else {
        return Err(ParseFault::BadEqual { line: number, name });
    };
    if decls.values_at(places[place]).len() != values.len() {
        return Err(ParseFault::BadEqual { line: number, name });
    }
    Ok(Entry::Same(place as u32))
}

/// What an output entry says of a column with these values.
#[tactic(auto, unfolding(crate::specs::Entries::out_word))]
fn out_entry(
    alloc: Global,
    number: u32,
    decls: &Decls,
    ins: &[Name],
    places: &[Option<usize>],
    values: &[Name],
    word: &[u8],
) -> Result<Entry, ParseFault>
    requires few { length ins.now < 2 ^ 32 }
    requires places { places.now ≡ places_of decls.now ins.now }
    requires within { length values.now ≤ most_values }
    ensures fault { Tells result
        (entry_faults number (out_word decls.now ins.now values.now word.now)) }
    ensures ok { IfOk result (λ entry. out_word decls.now ins.now values.now word.now ≡ Ok entry) }
{
    if begins_with(word, b'=') {
        let (_equal, name) = word.split_at(1);
        return same_entry(alloc, number, decls, ins, places, values, name);
    }
    match entry_set(alloc, number, values, word) {
        Ok(set) => Ok(Entry::Set(set)),
        Err(fault) => Err(fault),
    }
}

/// What the entries of input columns say.
#[tactic(auto, using(crate::proofs::Ended::ends))]
pub fn in_entries(
    alloc: Global,
    number: u32,
    decls: &Decls,
    columns: &Columns,
    words: &[Name],
) -> Result<Sets, ParseFault>
    requires { AreLookedUp decls.now columns.now }
    ensures fault { Tells result (ins_faults number decls.now columns.now.ins.now words.now) }
    ensures ok { IfOk result (λ sets. sets ≡ ins_said decls.now columns.now.ins.now words.now) }
{
    let count = columns.ins.len().min(words.len());
    let places = columns.in_places.as_slice();
    let mut sets = Sets::with_room(alloc, count)?;
    for at in 0..count {
        let (values, word) = (decls.values_at(places[at]), words[at].bytes());
        match entry_set(alloc, number, values, word) {
            Ok(set) => sets.push(alloc, set)?,
            Err(fault) => return Err(fault),
        }
    }
    Ok(sets)
}

/// What the entries of output columns say, where the nets of input columns and theirs are declared at these places.
#[tactic(auto, using(crate::proofs::Ended::ends))]
pub fn out_entries(
    alloc: Global,
    number: u32,
    decls: &Decls,
    columns: &Columns,
    words: &[Name],
) -> Result<Entries, ParseFault>
    requires few { length columns.now.ins.now < 2 ^ 32 }
    requires placed { AreLookedUp decls.now columns.now }
    ensures fault { Tells result
        (outs_faults number decls.now columns.now.ins.now columns.now.outs.now words.now) }
    ensures ok { IfOk result
        (λ entries. entries
        ≡ outs_said decls.now columns.now.ins.now columns.now.outs.now words.now) }
{
    let count = columns.outs.len().min(words.len());
    let places = columns.out_places.as_slice();
    let mut entries = Entries::with_room(alloc, count)?;
    for at in 0..count {
        let (values, word) = (decls.values_at(places[at]), words[at].bytes());
        match out_entry(
            alloc,
            number,
            decls,
            columns.ins,
            columns.in_places.as_slice(),
            values,
            word,
        ) {
            Ok(entry) => entries.push(alloc, entry)?,
            Err(fault) => return Err(fault),
        }
    }
    Ok(entries)
}
