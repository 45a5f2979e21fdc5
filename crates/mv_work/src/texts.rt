ghost use Rattle.std.specs.Prelude.{◌≡◌, ◌+◌, ◌-◌, ◌<◌, ◌≤◌, ◌^◌, ◌++◌, OnOk, decimal};
ghost use Rattle.std.specs.List.{range_with_len};
ghost use Rattle.mv_work.specs.Work.{net_name, names_text};

use itoa::Buffer;
use mv_base::Memory;

/// How many inputs a work network has. Their nets come before those of the tables.
pub const INPUTS: u32 = 16;

/// Adds a number to the text.
pub fn add_number(number: u32, text: &mut Vec<u8>) -> Result<(), Memory>
    ensures { OnOk result (text.new.items ≡ text.old.items ++ decimal number) }
{
    let mut buffer = Buffer::new();
    text.extend_from_slice(buffer.format(number).as_bytes())?;
    Ok(())
}

/// Adds the name of the net at this place.
#[tactic(auto, unfolding(crate::specs::Work::net_name))]
pub fn add_name(place: u32, text: &mut Vec<u8>) -> Result<(), Memory>
    ensures { OnOk result (text.new.items ≡ text.old.items ++ net_name place) }
{
    if place < INPUTS {
        text.extend_from_slice(b"i")?;
        return add_number(place, text);
    }
    text.extend_from_slice(b"g")?;
    add_number(place - INPUTS, text)
}

/// Adds the names of the nets at these places, each behind a blank.
pub fn add_names(places: &[u32], text: &mut Vec<u8>) -> Result<(), Memory>
    ensures { OnOk result (text.new.items ≡ text.old.items ++ names_text places.now) }
{
    for place in places {
        text.extend_from_slice(b" ")?;
        add_name(*place, text)?;
    }
    Ok(())
}

/// Adds the names of so many nets from this place on, each behind a blank.
pub fn add_range(first: u32, count: u32, text: &mut Vec<u8>) -> Result<(), Memory>
    requires { first + count < 2 ^ 32 }
    ensures { OnOk result
        (text.new.items ≡ text.old.items ++ names_text (range_with_len first count)) }
{
    for i in 0..count {
        text.extend_from_slice(b" ")?;
        add_name(first + i, text)?;
    }
    Ok(())
}
