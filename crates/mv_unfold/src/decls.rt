//! The nets of all places, with their values.
ghost use Rattle.std.specs.Prelude.{◌≡◌, ◌≤◌, ◌++◌, All, map, length, IfOk, OnOk};
ghost use Rattle.std.specs.List.{flat_map};
ghost use Rattle.mv_design.specs.Values.{declared_of, two_values, values_of};
ghost use Rattle.mv_tree.specs.Places.{own_nets};
ghost use Rattle.mv_tree.specs.Unfolded.{decls_in, placed_decl};
ghost use Rattle.mv_unfold.specs.ByName.{FindsFirst};
ghost use Rattle.mv_unfold.specs.Joined.{AreDeclared, decl_under};
ghost use Rattle.mv_unfold.specs.Laid.{IsLaid, places_of};
ghost use Rattle.mv_unfold.specs.Locals.{IsSpan, cut};
ghost use Rattle.mv_unfold.specs.Placed.{place_at};

use crate::by_name::FirstPlaces;
use crate::layout::Layout;
use crate::naming::name_under;
use crate::spans::Span;
use mv_base::{Items, Memory, Name};
use mv_design::{Decl, FileModel};
use std::alloc::Global;

/// The nets that are at home in each place, with their values, in unfolding order.
pub fn decls(alloc: Global, layout: &Layout<'_>) -> Result<Items<Decl>, Memory>
    requires { IsLaid layout.now }
    ensures { IfOk result (λ decls. decls ≡ decls_in (places_of layout.now)) }
{
    let declared = declared(alloc, layout.design.models.as_slice())?;
    let mut decls = Items::new(alloc);
    for number in 0..layout.models.len() {
        add_decls(alloc, layout, declared.as_slice(), number, &mut decls)?;
    }
    Ok(decls)
}

/// The nets that each model declares, by name.
fn declared(alloc: Global, models: &[FileModel]) -> Result<Items<FirstPlaces>, Memory>
    ensures { IfOk result (λ all. AreDeclared models.now all) }
{
    let mut all = Items::with_room(alloc, models.len())?;
    for model in models {
        all.push(FirstPlaces::of_decls(alloc, model.decls.as_slice())?)?;
    }
    Ok(all)
}

/// Adds the nets that are at home in a place, with their values.
fn add_decls(
    alloc: Global,
    layout: &Layout<'_>,
    declared: &[FirstPlaces],
    number: usize,
    decls: &mut Items<Decl>,
) -> Result<(), Memory>
    requires laid { IsLaid layout.now }
    requires declared { AreDeclared layout.now.design.now.models declared.now }
    requires number { number ≤ length layout.now.opened.now }
    ensures { let p =
        place_at (places_of layout.now) number in OnOk result (decls.new
        ≡ decls.old ++ map (placed_decl p) (own_nets p)) }
{
    let own = layout.own(number);
    if own.is_empty() {
        return Ok(());
    }
    let mut path = Vec::new(alloc);
    layout.add_path(&mut path, number)?;
    let model = layout.model(number);
    let values = Values {
        decls: layout.design.models.as_slice()[model].decls.as_slice(),
        places: &declared[model],
    };
    let nets = layout.nets(number).as_slice();
    add_spans(alloc, path.as_slice(), &values, nets, own, decls)
}

/// The declarations of a model, and their places by name.
#[derive(Clone, Copy)]
struct Values<'a> {
    decls: &'a [Decl],
    places: &'a FirstPlaces,
}

/// Adds the nets of these spans under a path, with their values.
fn add_spans(
    alloc: Global,
    path: &[u8],
    values: &Values<'_>,
    nets: &[Name],
    spans: &[Span],
    decls: &mut Items<Decl>,
) -> Result<(), Memory>
    requires within { All (IsSpan (length nets.now)) spans.now }
    requires places { FindsFirst values.now.places.now (declared_of values.now.decls.now) }
    ensures { OnOk result
        (decls.new ≡ decls.old
        ++ map (decl_under path.now values.now.decls.now) (flat_map (cut nets.now) spans.now)) }
{
    for span in spans {
        add_nets(alloc, path, values, &nets[span.start..span.end], decls)?;
    }
    Ok(())
}

/// Adds these nets under a path, with their values.
fn add_nets(
    alloc: Global,
    path: &[u8],
    values: &Values<'_>,
    nets: &[Name],
    decls: &mut Items<Decl>,
) -> Result<(), Memory>
    requires { FindsFirst values.now.places.now (declared_of values.now.decls.now) }
    ensures { OnOk result
        (decls.new ≡ decls.old ++ map (decl_under path.now values.now.decls.now) nets.now) }
{
    for net in nets {
        decls.push(Decl {
            net: name_under(alloc, path, net)?,
            values: values_of(alloc, values, net)?,
        })?;
    }
    Ok(())
}

/// The values of a net.
fn values_of(alloc: Global, values: &Values<'_>, net: &Name) -> Result<Items<Name>, Memory>
    requires { FindsFirst values.now.places.now (declared_of values.now.decls.now) }
    ensures { IfOk result (λ names. names ≡ values_of values.now.decls.now net.now) }
{
    match values.places.place(net) {
        Some(place) => values.decls[place].values.copy_names(),
        None => zero_and_one(alloc),
    }
}

/// The values of a net without a declaration.
fn zero_and_one(alloc: Global) -> Result<Items<Name>, Memory>
    ensures { IfOk result (λ two. two ≡ two_values) }
{
    let mut two = Items::new(alloc);
    two.push(Name::new(alloc, b"0")?)?;
    two.push(Name::new(alloc, b"1")?)?;
    Ok(two)
}
