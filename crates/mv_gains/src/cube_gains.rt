ghost use Rattle.std.specs.Prelude.{◌≡◌, ◌<◌, ◌≤◌, ◌++◌, ◌∷◌, ◌⊎◌, [], All, IfOk, IsSome, MatchOption, OnOk, length, map, slice_set};
ghost use Rattle.mv_base.specs.declared.number.NetId.{NetId};
ghost use Rattle.mv_cover.specs.Cubes.{IsCube};
ghost use Rattle.mv_graph.specs.Nets.{IsAscending};
ghost use Rattle.mv_net.specs.Nets.{net_reads, slot};
ghost use Rattle.indexmap.specs.IndexMap.{index_map_len, keys};
ghost use Rattle.mv_cover.specs.declared.line.Line.{Line as a_line};
ghost use Rattle.mv_meets.specs.Search.{IsFound};
ghost use Rattle.mv_gains.specs.Answers.{AreAnswers, IsBestIn, IsFoundIn, SettlesIn, all_cubes, all_with, better_of, known_of, with_symbol};
ghost use Rattle.mv_gains.specs.Candidates.{IsBest, IsCubeCandidate, NoneSaves};
ghost use Rattle.mv_gains.specs.Gains.{AreTablesBut, cubes_at};
ghost use Rattle.mv_gains.specs.Renewing.{AreSameTables};

use crate::answers::{Answers, forget_all, leader_of, no_answers, note_answer, unsettled};
use crate::best::{alone, best_candidate, best_cube};
use crate::cubes::{add_lines, has_symbol};
use crate::gains::all_numbers;
use crate::tables::lines_of;
use mv_base::{Items, Memory, NetId};
use mv_cover::{Cube, Line, Lit};
use mv_meets::{Found, Sought, better_meet, is_ahead};
use mv_net::Network;
use std::alloc::Global;
use std::marker::Model;

/// Where no more lines than these have a symbol, the best of the parts that begin with it is found whatever is known of others.
const FEW_LINES: usize = 64;

/// The cubes of the lines of each table, by number of net, and for each symbol what is known of the parts that begin with it.
#[derive(Drop)]
struct Kept {
    tables: Vec<Items<Cube>>,
    answers: Answers,
}

/// The cubes of the lines of the tables of a network, by number of net, with the best of their common parts that begin with each
/// symbol. It is kept from one divisor to the next: only for the symbols of a table that changes is it searched for again.
#[derive(Drop)]
pub struct CubeGains {
    kept: Kept,
}

impl Model for CubeGains {
    ghost use Rattle.std.specs.Prelude.{List};
    ghost use Rattle.mv_cover.specs.Literal.{Lit as a_lit};

    ghost Value = { List (List (List a_lit)) };

    ghost use Rattle.mv_gains.specs.Answers.{AreAnswers};

    ghost view = { λ g. g.kept.tables.items };

    ghost invariant = { λ g. AreAnswers g.kept.tables.items g.kept.answers };
}

impl CubeGains {
    /// The cubes of the tables of the network. Nothing is searched for yet.
    pub fn of(alloc: Global, net: &Network) -> Result<CubeGains, Memory>
        ensures { IfOk result (λ gains. gains ≡ map cubes_at net.now.nets) }
    {
        let nothing = Kept {
            tables: Vec::new(alloc),
            answers: no_answers(alloc),
        };
        let kept = renewed(alloc, net, nothing, all_numbers(alloc, net)?.as_slice())?;
        Ok(CubeGains { kept })
    }

    /// The cubes of the tables of the network, of which those of these nets may have changed, and some of these may have come.
    pub fn update(
        self,
        alloc: Global,
        net: &Network,
        waiting: &[NetId],
    ) -> Result<CubeGains, Memory>
        requires more { length self ≤ length net.now.nets }
        requires below { All (λ (n : NetId). n.0 < length net.now.nets) waiting.now }
        requires others { AreTablesBut cubes_at waiting.now net.now.nets self }
        ensures { IfOk result (λ gains. gains ≡ map cubes_at net.now.nets) }
    {
        let kept = renewed(alloc, net, self.kept, waiting)?;
        Ok(CubeGains { kept })
    }

    /// The cube that is best taken out of the tables of the network: the least of those that save the most, or None where none
    /// saves. Where one table has most of the lines, nothing is kept, and it is searched for among all sets of symbols. Where a
    /// search among the parts that begin with a symbol takes more visits than there are pairs of lines with it, all candidates are
    /// worked out.
    pub fn best(&mut self, alloc: Global, net: &Network) -> Result<Option<Items<Cube>>, Memory>
        requires { self.old ≡ map cubes_at net.now.nets }
        ensures best { IfOk result (λ best. MatchOption best
            (NoneSaves IsCubeCandidate net.now.nets)
            (IsBest IsCubeCandidate net.now.nets)) }
        ensures same { self.new ≡ self.old }
    {
        best_in(alloc, net, &mut self.kept)
    }
}

/// Whether one table has more than half of all lines. Each step changes it then, and with it what is known of nearly all symbols.
fn has_main_table(tables: &[Items<Cube>]) -> bool {
    let mut all = 0u64;
    let mut most = 0u64;
    for table in tables {
        let lines = table.len() as u64;
        all = all.saturating_add(lines);
        most = most.max(lines);
    }
    most > all / 2
}

/// The best of the cubes, if one saves.
fn best_in(alloc: Global, net: &Network, kept: &mut Kept) -> Result<Option<Items<Cube>>, Memory>
    requires tables { kept.old.tables.items ≡ map cubes_at net.now.nets }
    requires answers { AreAnswers kept.old.tables.items kept.old.answers }
    ensures best { IfOk result (λ best. MatchOption best
        (NoneSaves IsCubeCandidate net.now.nets)
        (IsBest IsCubeCandidate net.now.nets)) }
    ensures same { kept.new.tables.items ≡ kept.old.tables.items }
    ensures answers { AreAnswers kept.new.tables.items kept.new.answers }
{
    net.well_formed();
    if has_main_table(kept.tables.as_slice()) {
        return best_cube(alloc, net);
    }
    let sought = searched(alloc, net, kept)?;
    match sought {
        Sought::Ended(Some(found)) => Ok(Some(alone(alloc, found.cube)?)),
        Sought::Ended(None) => Ok(None),
        Sought::Broken => best_candidate(alloc, net),
    }
}

/// The best of all common parts, if one saves: each symbol of which it isn't known that its parts are no better than the best so
/// far is searched.
fn searched(alloc: Global, net: &Network, kept: &mut Kept) -> Result<Sought, Memory>
    requires tables { kept.old.tables.items ≡ map cubes_at net.now.nets }
    requires answers { AreAnswers kept.old.tables.items kept.old.answers }
    ensures found { IfOk result (IsBestIn (all_cubes kept.old.tables.items)) }
    ensures same { kept.new.tables.items ≡ kept.old.tables.items }
    ensures answers { AreAnswers kept.new.tables.items kept.new.answers }
{
    let mut best = leader_of(&kept.answers)?;
    for place in 0..kept.answers.known.len() {
        match settled(alloc, net, kept, place, best)? {
            Sought::Ended(found) => best = found,
            Sought::Broken => return Ok(Sought::Broken),
        }
    }
    Ok(Sought::Ended(best))
}

/// The best so far and of the parts that begin with the symbol at the place, which are searched where it has to be.
fn settled(
    alloc: Global,
    net: &Network,
    kept: &mut Kept,
    place: usize,
    best: Option<Found>,
) -> Result<Sought, Memory>
    requires tables { kept.old.tables.items ≡ map cubes_at net.now.nets }
    requires answers { AreAnswers kept.old.tables.items kept.old.answers }
    requires place { place < index_map_len kept.old.answers.known }
    requires found { IsFound (all_cubes kept.old.tables.items) best }
    ensures found { IfOk result (SettlesIn
        (all_cubes kept.old.tables.items) (keys kept.old.answers.known) place best) }
    ensures same { kept.new.tables.items ≡ kept.old.tables.items }
    ensures keys { OnOk result (keys kept.new.answers.known ≡ keys kept.old.answers.known) }
    ensures answers { AreAnswers kept.new.tables.items kept.new.answers }
{
    let waiting = unsettled(&kept.answers, place, &best)?;
    match waiting {
        None => Ok(Sought::Ended(best)),
        Some(symbol) => found_with(alloc, net, kept, symbol, best),
    }
}

/// The best so far and of the parts that begin with the symbol, which are searched.
fn found_with(
    alloc: Global,
    net: &Network,
    kept: &mut Kept,
    symbol: Lit,
    best: Option<Found>,
) -> Result<Sought, Memory>
    requires tables { kept.old.tables.items ≡ map cubes_at net.now.nets }
    requires answers { AreAnswers kept.old.tables.items kept.old.answers }
    requires listed { IsSome (known_of kept.old.answers symbol) }
    requires found { IsFound (all_cubes kept.old.tables.items) best }
    ensures found { IfOk result (IsFoundIn (all_cubes kept.old.tables.items) symbol best) }
    ensures same { kept.new.tables.items ≡ kept.old.tables.items }
    ensures keys { OnOk result (keys kept.new.answers.known ≡ keys kept.old.answers.known) }
    ensures answers { AreAnswers kept.new.tables.items kept.new.answers }
{
    let cubes = holding(alloc, net, kept.tables.as_slice(), &symbol)?;
    let nothing = None;
    let given = given_for(cubes.len(), &best, &nothing);
    let visits = visits_for(cubes.len());
    match better_meet(alloc, cubes.as_slice(), &symbol, given, visits)? {
        Sought::Broken => Ok(Sought::Broken),
        Sought::Ended(found) => {
            note_answer(&mut kept.answers, symbol, given, &found)?;
            Ok(Sought::Ended(better(best, found)))
        }
    }
}

/// The best so far where so many lines have a symbol, and nothing where they are few: what is found then is the best of the parts
/// that begin with the symbol, and stays known whatever becomes of the others.
fn given_for<'a>(
    lines: usize,
    best: &'a Option<Found>,
    nothing: &'a Option<Found>,
) -> &'a Option<Found>
    ensures { (result.now ≡ best.now) ⊎ (result.now ≡ nothing.now) }
{
    if lines > FEW_LINES { best } else { nothing }
}

/// The part that was found, where it is better than the best so far, which else stays.
fn better(best: Option<Found>, found: Option<Found>) -> Option<Found>
    ensures { result ≡ better_of best found }
{
    match found {
        None => best,
        Some(new) => {
            if is_ahead(&best, new.saved, &new.cube) {
                Some(new)
            } else {
                best
            }
        }
    }
}

/// How many sets of symbols a search among so many lines may visit.
fn visits_for(lines: usize) -> u64 {
    let count = lines as u64;
    count.saturating_mul(count).saturating_add(10_000)
}

/// The cubes of the tables that have the symbol.
fn holding(
    alloc: Global,
    net: &Network,
    tables: &[Items<Cube>],
    symbol: &Lit,
) -> Result<Vec<Cube>, Memory>
    requires { tables.now ≡ map cubes_at net.now.nets }
    ensures { IfOk result
        (λ cubes. cubes.items ≡ with_symbol symbol.now (all_cubes tables.now)) }
{
    let readers = readers_of(net, symbol.net());
    cubes_with(alloc, tables, readers, symbol)
}

/// The nets whose tables have literals on the net, ascending.
fn readers_of(net: &Network, n: NetId) -> &[NetId]
    ensures { IsAscending (λ m. net_reads (slot net.now.nets m) n.0) result.now }
{
    net.well_formed();
    if !net.holds(n) {
        return &[];
    }
    net.readers(n)
}

/// The cubes of these tables that have the symbol.
fn cubes_with(
    alloc: Global,
    tables: &[Items<Cube>],
    nets: &[NetId],
    symbol: &Lit,
) -> Result<Vec<Cube>, Memory>
    requires { All (λ (n : NetId). n.0 < length tables.now) nets.now }
    ensures { IfOk result (λ cubes. cubes.items ≡ all_with symbol.now tables.now nets.now) }
{
    let mut cubes = Vec::new(alloc);
    for net in nets {
        add_with(&mut cubes, tables[net.0 as usize].as_slice(), symbol)?;
    }
    Ok(cubes)
}

/// Adds those of the cubes that have the symbol.
fn add_with(list: &mut Vec<Cube>, cubes: &[Cube], symbol: &Lit) -> Result<(), Memory>
    ensures { OnOk result (list.new.items ≡ list.old.items ++ with_symbol symbol.now cubes.now) }
{
    for cube in cubes {
        if has_symbol(cube.lits(), symbol) {
            list.push(cube.copy()?)?;
        }
    }
    Ok(())
}

/// The cubes of the tables of the network, where those of these nets are put anew.
fn renewed(alloc: Global, net: &Network, kept: Kept, waiting: &[NetId]) -> Result<Kept, Memory>
    requires answers { AreAnswers kept.tables.items kept.answers }
    requires more { length kept.tables.items ≤ length net.now.nets }
    requires below { All (λ (n : NetId). n.0 < length net.now.nets) waiting.now }
    requires others { AreTablesBut cubes_at waiting.now net.now.nets kept.tables.items }
    ensures tables { IfOk result (λ new. new.tables.items ≡ map cubes_at net.now.nets) }
    ensures answers { IfOk result (λ new. AreAnswers new.tables.items new.answers) }
{
    let mut kept = grown(alloc, kept, net.next_number() as usize)?;
    put_tables(alloc, net, waiting, &mut kept)?;
    Ok(kept)
}

/// So many tables: those that come are empty.
fn grown(alloc: Global, kept: Kept, count: usize) -> Result<Kept, Memory>
    requires answers { AreAnswers kept.tables.items kept.answers }
    requires more { length kept.tables.items ≤ count }
    ensures answers { IfOk result (λ new. AreAnswers new.tables.items new.answers) }
    ensures long { IfOk result (λ new. length new.tables.items ≡ count) }
    ensures same { IfOk result (λ new. AreSameTables kept.tables.items new.tables.items) }
{
    let mut kept = kept;
    for _number in kept.tables.len()..count {
        grow(alloc, &mut kept)?;
    }
    Ok(kept)
}

/// An empty table comes.
fn grow(alloc: Global, kept: &mut Kept) -> Result<(), Memory>
    requires { AreAnswers kept.old.tables.items kept.old.answers }
    ensures tables { OnOk result (kept.new.tables.items ≡ kept.old.tables.items ++ [] ∷ []) }
    ensures answers { OnOk result (AreAnswers kept.new.tables.items kept.new.answers) }
{
    kept.tables.push(Items::new(alloc))?;
    Ok(())
}

/// Puts the cubes of the tables of these nets anew.
fn put_tables(
    alloc: Global,
    net: &Network,
    waiting: &[NetId],
    kept: &mut Kept,
) -> Result<(), Memory>
    requires answers { AreAnswers kept.old.tables.items kept.old.answers }
    requires long { length kept.old.tables.items ≡ length net.now.nets }
    requires below { All (λ (n : NetId). n.0 < length net.now.nets) waiting.now }
    requires others { AreTablesBut cubes_at waiting.now net.now.nets kept.old.tables.items }
    ensures tables { OnOk result (kept.new.tables.items ≡ map cubes_at net.now.nets) }
    ensures answers { OnOk result (AreAnswers kept.new.tables.items kept.new.answers) }
{
    for n in waiting {
        put_cubes(alloc, net, *n, kept)?;
    }
    Ok(())
}

/// Puts the cubes of the net's table anew, and forgets what was known of the symbols that it had or has.
fn put_cubes(alloc: Global, net: &Network, n: NetId, kept: &mut Kept) -> Result<(), Memory>
    requires answers { AreAnswers kept.old.tables.items kept.old.answers }
    requires below { n.0 < length kept.old.tables.items }
    requires long { length kept.old.tables.items ≡ length net.now.nets }
    ensures tables { OnOk result (kept.new.tables.items
        ≡ slice_set kept.old.tables.items n.0 (cubes_at (slot net.now.nets n.0))) }
    ensures answers { OnOk result (AreAnswers kept.new.tables.items kept.new.answers) }
{
    net.well_formed();
    let place = n.0 as usize;
    let cubes = Items::of(cubes_of(alloc, lines_of(&net.parts().nets.as_slice()[place]))?);
    forget_all(&mut kept.answers, kept.tables[place].as_slice())?;
    forget_all(&mut kept.answers, cubes.as_slice())?;
    kept.tables[place] = cubes;
    Ok(())
}

/// The cubes of the lines.
fn cubes_of(alloc: Global, lines: &[Line]) -> Result<Vec<Cube>, Memory>
    ensures { IfOk result (λ cubes. cubes.items ≡ map (λ (l : a_line). l.cube) lines.now) }
{
    let mut cubes = Vec::new(alloc);
    add_lines(&mut cubes, lines)?;
    Ok(cubes)
}
