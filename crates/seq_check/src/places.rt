//! The places of events in an order.
ghost use Rattle.std.specs.Prelude.{◌≡◌, ◌==◌, ◌<◌, ◌^◌, All, length, position, IfOk};
ghost use Rattle.std.specs.List.{list_all};
ghost use Rattle.seq_check.specs.EventSets.{is_lower, places};
ghost use Rattle.seq_check.specs.believed.Orders.{place};

use std::alloc::Global;
use value_text::NoMemory;

// The first place of an event in an order.
fn first_place(order: &[u16], event: u16) -> Option<usize>
    ensures { result ≡ position (λ other. other == event) order.now }
{
    order.iter().position(|other| *other == event)
}

// The place of an event in an order; the length of the order where it isn't there.
fn place_of(order: &[u16], event: u16) -> u16
    requires { length order.now < 2 ^ 16 }
    ensures { result ≡ place order.now event }
{
    match first_place(order, event) {
        Some(place) => place as u16,
        None => order.len() as u16,
    }
}

/// The places in an order of the events below a number.
///
/// # Errors
///
/// `NoMemory` where memory was refused.
pub fn places_of(alloc: Global, order: &[u16], count: u16) -> Result<Vec<u16>, NoMemory>
    requires { length order.now < 2 ^ 16 }
    ensures { IfOk result (λ at. at.items ≡ places count order.now) }
{
    let mut places = Vec::new(alloc);
    for event in 0..count {
        places.push(place_of(order, event))?;
    }
    Ok(places)
}

/// Whether the first event of each pair has a lower place than the second.
pub(crate) fn are_lower(places: &[u16], pairs: &[(u16, u16)]) -> bool
    requires { All (λ pair. (pair.0 < length places.now) × (pair.1 < length places.now)) pairs.now }
    ensures { result ≡ list_all (is_lower places.now) pairs.now }
{
    for pair in pairs {
        if places[pair.0 as usize] >= places[pair.1 as usize] {
            return false;
        }
    }
    true
}
