// Where in the script the fault of a strand came from.

ghost use Rattle.std.specs.Prelude.{◌≤◌, length, map, string_bytes, IfSome};
ghost use Rattle.ped_words.specs.Commands.{AreLawful};
ghost use Rattle.ped_words.specs.Reading.{reading};
ghost use Rattle.engine.specs.FaultPlaces.{IsPlaceBy, IsPlaceIn, IsPlaceUnder};
ghost use Rattle.engine.specs.Promise.{most_bytes};

use crate::run::plan_script;
use ped_path::Pedigree;
use ped_words::{Command, Settings, read_words};
use script_grammar::NameText;
use serial_meaning::Plan;
use std::alloc::Global;

// A script has at most this many bytes.
const MOST_BYTES: usize = 1048576;

/// Where in the script an instance met a fault of its own.
#[derive(Drop)]
pub struct FaultPlace {
    /// The function's name.
    pub function: NameText,
    /// The offset in the text of the statement that met the fault, or of the word `return`.
    pub at: u32,
}

// The place at offset `at`, in the script's function with this index.
fn place_in(plan: &Plan, function: u32, at: u32) -> Option<FaultPlace>
    ensures { IfSome result (IsPlaceIn plan.now function at) }
{
    let function = plan.functions().get(function as usize)?;
    Some(FaultPlace {
        function: function.name.bytes.copy(),
        at,
    })
}

// The place where the strand with this pedigree met its fault.
fn place_under(alloc: Global, settings: Settings, at: &Pedigree, bytes: &[u8]) -> Option<FaultPlace>
    requires lawful { AreLawful settings }
    requires within { length bytes.now ≤ most_bytes }
    ensures { IfSome result (IsPlaceUnder settings at.now bytes.now) }
{
    let Ok(plan) = plan_script(alloc, settings, bytes) else {
        return None;
    };
    match replay::fault_place(alloc, &plan, at) {
        Ok(Some(met)) => place_in(&plan, met.place.function, met.place.at),
        _ => None,
    }
}

/// Where the fault of a strand came from. The words are those of a `replay` call, which name the strand, and the bytes
/// are the script's text. `None` where the words aren't such a call, the script isn't valid, there is no such strand or
/// it has no fault of its own, and where memory ran out.
///
/// It takes as long as the replay and one more run of the strand's instance.
pub fn fault_place(alloc: Global, words: &[String], bytes: &[u8]) -> Option<FaultPlace>
    ensures { IfSome result (IsPlaceBy (reading (map string_bytes words.now)) bytes.now) }
{
    if bytes.len() > MOST_BYTES {
        return None;
    }
    match read_words(alloc, words) {
        Ok(Command::Replay { settings, at }) => place_under(alloc, settings, &at, bytes),
        _ => None,
    }
}
