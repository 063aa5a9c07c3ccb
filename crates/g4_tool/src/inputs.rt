// The files of a run, fetched in order.
ghost use Rattle.std.specs.Prelude.{◌≡◌, All, IfOk, Some, length};
ghost use Rattle.g4_load.specs.Counting.{Counts};
ghost use Rattle.g4_fetch.specs.Files.{Files};
ghost use Rattle.g4_outcome.specs.Inputs.{IsSmall};
ghost use Rattle.g4_tool.specs.Inputs.{inputs_of, GivesInputs};

use g4_base::Text;
use g4_load::{Halt, Stop};
use g4_outcome::Input;
use g4_ports::{Got, Shelf};
use std::alloc::Global;

/// All the files in order, or the first that is absent.
pub fn fetch_all<S: Shelf>(alloc: Global, shelf: &mut S, names: &[Text]) -> Result<Vec<Input>, Halt>
    ensures keeps { S.told shelf.new ≡ S.told shelf.old }
    ensures content { (files : Files) → S.told shelf.old ≡ Some files
        → GivesInputs (λ v. v.items) (inputs_of files names.now) result }
    ensures paired { IfOk result (λ inputs. length names.now ≡ length inputs.items) }
    ensures small { IfOk result (λ inputs. All IsSmall inputs.items) }
    ensures counts { Counts ⊥ (S.faults shelf.old) (S.faults shelf.new) (S.misses shelf.old) (S.misses shelf.new) result }
{
    let mut inputs = Vec::new(alloc);
    for name in names {
        let input = match shelf.fetch(alloc, name.as_str()) {
            Got::Bytes(octets) => Input::Bytes(octets),
            Got::TooLarge(size) => Input::TooLarge(size),
            Got::Absent => return Err(Halt::Stop(Stop::Absent(Text::copy_of(
                alloc,
                name.as_str(),
            )?))),
            Got::Failed => return Err(Halt::Failed),
            Got::NoMemory => return Err(Halt::NoMemory),
        };
        inputs.push(input)?;
    }
    Ok(inputs)
}
