//! The lanes of a picture that a command line lists.

ghost use Rattle.std.specs.Prelude.{◌≡◌, ◌≤◌, IfErr, IfOk, map};
ghost use Rattle.step_trace.specs.declared.processors.TheConstants.{MAX_MEMBER};
ghost use Rattle.text_commands.specs.Drawings.{AreLanesIn, IsLanesFault, lanes_fault};

use command_faults::{Fault, MemberOutside, PictureOption, SetOption};
use run_words::{LanesError, lanes_of};
use std::alloc::Global;
use step_trace::ProcSet;

/// The processors whose lanes are listed, by these names or by numbers up to `count`; all if none are listed.
pub(crate) fn lanes_for(
    alloc: Global,
    list: &Option<String>,
    names: &[&str],
    count: u64,
) -> Result<ProcSet, Fault>
    requires { count ≤ MAX_MEMBER }
    ensures lanes { IfOk result (AreLanesIn list.now (map (λ name. name.now) names.now) count) }
    ensures refused { IfErr result
        (IsLanesFault list.now (map (λ name. name.now) names.now) count) }
{
    let Some(list) = list else {
        return Ok(ProcSet::all_to(count));
    };
    match lanes_of(alloc, list.as_str(), names, count) {
        Ok(lanes) => Ok(lanes),
        Err(why) => Err(lanes_fault(why, count)),
    }
}

/// The fault of lanes that there aren't, of so many processors.
fn lanes_fault(why: LanesError, count: u64) -> Fault
    ensures { result ≡ lanes_fault count why }
{
    match why {
        LanesError::NoLane(place) => Fault::Picture(PictureOption::NoLane(place)),
        LanesError::Above(member) => Fault::Set(SetOption::Lanes, MemberOutside { member, count }),
        LanesError::Memory => Fault::Memory,
    }
}
