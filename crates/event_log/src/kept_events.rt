//! Events that stay of a list, in the memory of all.

ghost use Rattle.std.specs.Prelude.{◌≡◌, ◌<◌, ℕ, Some, length, map, slice_get, slice_index};
ghost use Rattle.std.specs.List.Sorted.{IsStrictlyIncreasing};

use timed_events::Event;

/// The events at these places, which rise, in their order. Takes no memory.
pub(crate) fn kept_at(events: Vec<Event>, places: &[u32]) -> Vec<Event>
    requires inside { (k : ℕ) → k < length places.now
        → slice_index places.now k < length events.items }
    requires rising { IsStrictlyIncreasing places.now }
    ensures { map Some result.items ≡ map (slice_get events.items) places.now }
{
    let mut kept = events;
    for k in 0..places.len() {
        kept.swap(k, places[k] as usize);
    }
    kept.truncate(places.len());
    kept
}
