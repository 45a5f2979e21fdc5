ghost use Rattle.std.specs.Prelude.{◌≡◌, false, OnOk, length};
ghost use Rattle.mv_base.specs.Meaning.{Refines, SameMeaning};
ghost use Rattle.mv_division.specs.Divisors.{IsDivisorOver};
ghost use Rattle.mv_entry.specs.declared.note.Command.TheVariants.{Cube as cube_command, Kernel as kernel_command};
ghost use Rattle.mv_extract.specs.Dividing.{behind_of, behind_some, candidates_of};
ghost use Rattle.mv_extract.specs.Extracts.{CubesAll, CubesSome, EndsBy, Extracts, ExtractsSome, KernelsAll, KernelsSome};
ghost use Rattle.mv_extract.specs.Steps.{TakesDivisor, TakesDivisorSome};
ghost use Rattle.mv_gains.specs.Candidates.{IsBest, NoneSaves};
ghost use Rattle.mv_net.specs.Allowed.{of_net};
ghost use Rattle.mv_net.specs.Nets.{literals_in};
ghost use Rattle.mv_pass.specs.Courses.{Perhaps};
ghost use Rattle.mv_pass.specs.Going.{Begun, Does};
ghost use Rattle.mv_pass.specs.Passing.{Passes};
ghost use Rattle.mv_plans.specs.Checks.{HasRoom};

use crate::Stop;
use crate::adding::add_divisor;
use crate::dividing::divide_each;
use crate::kind::{Divisors, begin, best, follow};
use crate::noting::{note_behind, note_full};
use mv_base::{MAX_NETS, NetId};
use mv_cover::Cube;
use mv_entry::{Command, Journal, Note};
use mv_net::Network;
use mv_pass::end;
use mv_rules::Terms;
use std::alloc::Global;

/// Takes the divisor out: it comes as a net, and each other table, ascending, is divided by it.
fn take_out<J: Journal>(
    alloc: Global,
    net: &mut Network,
    divisor: &[Cube],
    terms: Terms,
    journal: &mut J,
) -> Result<(), Stop>
    requires over { IsDivisorOver net.old.nets divisor.now }
    requires room { HasRoom net.old.nets }
    ensures passes { Passes terms.free (TakesDivisor terms.free divisor.now)
        (TakesDivisorSome terms.free divisor.now)
        net.old net.new (J.state journal.old) (J.state journal.new) result }
    ensures means { SameMeaning (of_net net.new) (of_net net.old) }
{
    net.well_formed();
    let d = NetId(net.next_number());
    match add_divisor(alloc, net, divisor, terms, journal) {
        Ok(()) => {}
        Err(stop) => return Err(stop),
    }
    match divide_each(alloc, net, divisor, d, terms, journal) {
        Ok(()) => Ok(()),
        Err(stop) => Err(stop),
    }
}

/// Takes the best divisor out until none saves, or no number is left for the next net, and notes how it ends. Each step leaves
/// fewer literals.
fn take_out_each<J: Journal>(
    alloc: Global,
    net: &mut Network,
    divisors: Divisors,
    terms: Terms,
    journal: &mut J,
) -> Result<(), Stop>
    ensures passes { Passes terms.free
        (Extracts (candidates_of divisors) (behind_of divisors) terms.free)
        (ExtractsSome (candidates_of divisors) (behind_some divisors) terms.free)
        net.old net.new (J.state journal.old) (J.state journal.new) result }
    ensures means { SameMeaning (of_net net.new) (of_net net.old) }
{
    let mut search = match begin(alloc, net, divisors) {
        Ok(search) => search,
        Err(_memory) => return Err(Stop::Memory),
    };
    'extracting: loop {
        net.well_formed();
        let divisor = match best(alloc, net, divisors, &mut search) {
            Ok(Some(divisor)) => divisor,
            Ok(None) => return note_behind(alloc, net, divisors, terms, journal),
            Err(_memory) => return Err(Stop::Memory),
        };
        if net.next_number() as u64 >= MAX_NETS {
            return note_full(net, divisors, divisor.as_slice(), terms, journal);
        }
        let d = NetId(net.next_number());
        match take_out(alloc, net, divisor.as_slice(), terms, journal) {
            Ok(()) => {}
            Err(stop) => return Err(stop),
        }
        search = match follow(alloc, net, divisors, search, d) {
            Ok(search) => search,
            Err(_memory) => return Err(Stop::Memory),
        };
    }
}

/// The command `kernel`: takes the kernel that saves most out of all tables, again and again, until none saves, and then notes
/// each net of whose table a cover has more than `MAX_KERNELS` kernels. What the network means stays, also where the command
/// stops. (Brayton and McMullen, "The decomposition and factorization of Boolean expressions", 1982; SIS's `gkx`.)
pub fn kernel<J: Journal>(
    alloc: Global,
    net: &mut Network,
    journal: &mut J,
    terms: Terms,
) -> Result<(), Stop>
    ensures passes { Passes terms.free (Does (KernelsAll terms.free) kernel_command)
        (Begun (KernelsAll terms.free) (KernelsSome terms.free) kernel_command) net.old net.new
        (J.state journal.old) (J.state journal.new) result }
    ensures refines { Refines false (of_net net.new) (of_net net.old) }
{
    match journal.note(&Note::Begin(Command::Kernel)) {
        Ok(()) => {}
        Err(_failed) => return Err(Stop::Note),
    }
    match take_out_each(alloc, net, Divisors::Kernels, terms, journal) {
        Ok(()) => end(net, journal),
        Err(stop) => Err(stop),
    }
}

/// The command `cube`: takes the cube that saves most out of all tables, again and again, until none saves. The cubes are the
/// symbols that two lines have in common. What the network means stays, also where the command stops. (SIS's `gcx`.)
pub fn cube<J: Journal>(
    alloc: Global,
    net: &mut Network,
    journal: &mut J,
    terms: Terms,
) -> Result<(), Stop>
    ensures passes { Passes terms.free (Does (CubesAll terms.free) cube_command)
        (Begun (CubesAll terms.free) (CubesSome terms.free) cube_command) net.old net.new
        (J.state journal.old) (J.state journal.new) result }
    ensures refines { Refines false (of_net net.new) (of_net net.old) }
{
    match journal.note(&Note::Begin(Command::Cube)) {
        Ok(()) => {}
        Err(_failed) => return Err(Stop::Note),
    }
    match take_out_each(alloc, net, Divisors::Cubes, terms, journal) {
        Ok(()) => end(net, journal),
        Err(stop) => Err(stop),
    }
}
