// All kinds: the effective kinds of every relation, as places, and how many declarations were read for them.
ghost use Rattle.std.specs.Prelude.{◌≡◌, length, map};
ghost use Rattle.definitions.specs.Answers.{Answered};
ghost use Rattle.chains.specs.Settle.{Placeable};
ghost use Rattle.chains.specs.PackDirectory.{Sized};
ghost use Rattle.kinds.specs.KindsPromises.{place_by};
ghost use Rattle.definitions.specs.Operations.{all_kinds_answer, all_kinds_buffer};

use chains::settle::{Mark, settle_all};
use checking::check::{check_directory, names_said};
use definitions::answer::{Answer, Given, Number};
use pack::refusal::refused;
use records::directory::Directory;

// The place of each relation's list, by the relations' names. These are looked up by index: of a slice that is written through a zip a
// proof knows the length alone.
fn places(names: &[u32], marks: &[u32], out: &mut [u32])
    requires { (length out.old ≡ length names.now) × Placeable marks.now names.now }
    ensures { out.new ≡ map (place_by marks.now) names.now }
{
    for (j, place) in out.iter_mut().enumerate() {
        *place = Mark::from(marks[names[j] as usize]).answer();
    }
}

// The kinds of all relations, by a directory and marks for so many names.
fn kinds_sized<const WORDS: usize, const NAMES: usize>(pack: &[u32], out: &mut [u32]) -> Answer
    requires { Sized pack.now WORDS NAMES }
    ensures { Answered all_kinds_answer all_kinds_buffer pack.now out.old result out.new }
{
    let mut dir = [0u32; WORDS];
    let l = check_directory(pack, &mut dir)?;
    let count = l.relations as usize;
    if out.len() < count {
        return Err(refused(Number::NoRoom, 0));
    }
    let dir = &dir[..];
    let names = &dir[..count];
    let mut marks = [0u32; NAMES];
    let steps = settle_all(dir, names, &mut marks);
    places(names, &marks, &mut out[0..count]);
    Ok(Given {
        value: l.relations,
        steps,
    })
}

// Each relation's kinds in record order, as the place of the list that settles it, 0 for none; the steps are the declarations read.
// A size is an argument that must be a constant, so each is written out.
pub fn all_kinds(pack: &[u32], out: &mut [u32]) -> Answer
    ensures { Answered all_kinds_answer all_kinds_buffer pack.now out.old result out.new }
{
    let n = names_said(pack);
    if n <= Directory::FEW {
        return kinds_sized::<{ Directory::FEW_WORDS }, { Directory::FEW }>(pack, out);
    }
    if n <= Directory::SOME {
        return kinds_sized::<{ Directory::SOME_WORDS }, { Directory::SOME }>(pack, out);
    }
    kinds_sized::<{ Directory::WORDS }, { Directory::ALL }>(pack, out)
}
