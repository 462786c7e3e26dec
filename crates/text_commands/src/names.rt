//! The names of processors that a command line lists.

ghost use Rattle.std.specs.Prelude.{◌≡◌, IfErr, IfOk, OnOk, map};
ghost use Rattle.text_commands.specs.Drawings.{IsNamesFault, are_names_in, names_fault, names_of_list};

use command_faults::{Fault, PictureOption};
use run_words::{NamesError, names_of};
use std::alloc::Global;

/// The names of so many processors; none if none are listed.
pub(crate) fn names_for(
    alloc: Global,
    list: &Option<String>,
    count: u64,
) -> Result<Vec<&str>, Fault>
    ensures fit { OnOk result (are_names_in list.now count) }
    ensures names { IfOk result
        (λ names. map (λ name. name.now) names.items ≡ names_of_list list.now) }
    ensures refused { IfErr result (λ why. IsNamesFault list.now count why) }
{
    let Some(list) = list else {
        return Ok(Vec::new(alloc));
    };
    match names_of(alloc, list.as_str(), count) {
        Ok(names) => Ok(names),
        Err(why) => Err(names_fault(why, count)),
    }
}

/// The fault of names that aren't so many processors'.
fn names_fault(why: NamesError, count: u64) -> Fault
    ensures { result ≡ names_fault count why }
{
    match why {
        NamesError::WrongCount(given) => Fault::Picture(PictureOption::NameCount(given, count)),
        NamesError::BadName(place) => Fault::Picture(PictureOption::BadName(place)),
        NamesError::SameName(place) => Fault::Picture(PictureOption::SameName(place)),
        NamesError::Memory => Fault::Memory,
    }
}
