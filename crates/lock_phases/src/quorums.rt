//! What an owner finds in the lists and acknowledgements that it hears.

ghost use Rattle.std.specs.Prelude.{◌≡◌, ◌==◌, IsTrue, false, fold, filter};
ghost use Rattle.std.specs.List.{list_any};
ghost use Rattle.lock_phases.specs.Messages.{listed_values};
ghost use Rattle.lock_phases.specs.Quorums.{has_quorum, lesser, least_listed, acks};

use crate::bodies::Body;

/// The least value that is in at least `quorum` of the lists heard; none if there is none.
pub(crate) fn least_listed(quorum: u64, heard: &[(u64, Body)]) -> Option<u64>
    ensures { result ≡ least_listed quorum heard.now }
{
    let mut least = None;
    for (_, body) in heard {
        least = lesser_of_list(quorum, heard, least, body.listed_values());
    }
    least
}

/// The least of a value so far and the values of a list that are in at least `quorum` of the lists heard.
fn lesser_of_list(
    quorum: u64,
    heard: &[(u64, Body)],
    so_far: Option<u64>,
    values: &[u64],
) -> Option<u64>
    ensures { result ≡ fold lesser so_far (filter (has_quorum quorum heard.now) values.now) }
{
    let mut least = so_far;
    for v in values {
        if is_below(*v, least) && has_quorum(quorum, heard, *v) {
            least = Some(*v);
        }
    }
    least
}

fn is_below(v: u64, least: Option<u64>) -> bool
    ensures below { IsTrue result → lesser least v ≡ Some v }
    ensures other { result ≡ false → lesser least v ≡ least }
{
    match least {
        None => true,
        Some(u) => v < u,
    }
}

fn has_quorum(quorum: u64, heard: &[(u64, Body)], v: u64) -> bool
    ensures { result ≡ has_quorum quorum heard.now v }
{
    heard.iter().filter(|(_, body)| lists(body, v)).count() as u64 >= quorum
}

fn lists(body: &Body, v: u64) -> bool
    ensures { result ≡ list_any (λ x. x == v) (listed_values body.now.kind) }
{
    body.listed_values().contains(&v)
}

/// How many acknowledgements are heard.
pub(crate) fn acks(heard: &[(u64, Body)]) -> u64
    ensures { result ≡ acks heard.now }
{
    heard.iter().filter(|(_, body)| body.is_ack()).count() as u64
}
