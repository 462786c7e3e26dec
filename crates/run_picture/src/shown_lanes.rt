//! Which lane of a picture is whose.

ghost use Rattle.std.specs.Prelude.{◌≡◌, ◌≤◌, if◌then◌else◌};
ghost use Rattle.step_trace.specs.declared.processors.TheConstants.{MAX_MEMBER};
ghost use Rattle.run_picture.specs.ShownLanes.{lane_number};

use step_trace::{MAX_MEMBER, ProcSet};

/// Which lane from the top is that of a processor, if these processors have lanes: as many of them have no greater
/// number.
pub(crate) fn lane_number(lanes: ProcSet, processor: u64) -> u64
    ensures value { result ≡ lane_number lanes processor }
    ensures limit { result ≤ MAX_MEMBER }
{
    let mut number = 0;
    for i in 0..processor.min(MAX_MEMBER) {
        number += one_if(lanes.contains(i + 1));
    }
    number
}

fn one_if(test: bool) -> u64
    ensures value { result ≡ (if test then 1 else 0) }
    ensures limit { result ≤ 1 }
{
    if test { 1 } else { 0 }
}
