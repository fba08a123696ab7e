// Lean: whether a name leans on another.
ghost use Rattle.std.specs.Prelude.{◌≡◌};
ghost use Rattle.chains.specs.PackDirectory.{Sized};
ghost use Rattle.definitions.specs.Operations.{lean_answer};

use crate::search::leads;
use chains::unknown::unknown_name;
use checking::check::{check_directory, names_said};
use definitions::answer::{Answer, Given};
use records::directory::Directory;

// Whether a name leans on another, by a directory, marks and a queue for so many names.
fn lean_sized<const WORDS: usize, const NAMES: usize>(pack: &[u32], a: u32, b: u32) -> Answer
    requires { Sized pack.now WORDS NAMES }
    ensures { result ≡ lean_answer pack.now a b }
{
    let mut dir = [0u32; WORDS];
    let l = check_directory(pack, &mut dir)?;
    if l.names <= a {
        return Err(unknown_name(a));
    }
    if l.names <= b {
        return Err(unknown_name(b));
    }
    let mut marks = [false; NAMES];
    let mut queue = [0u32; NAMES];
    let leans = leads(pack, &dir, a as usize, b as usize, &mut marks, &mut queue);
    Ok(Given {
        value: leans as u32,
        steps: 0,
    })
}

// 1 if the first name leans on the second, 0 if not.
// A size is an argument that must be a constant, so each is written out.
pub fn lean(pack: &[u32], a: u32, b: u32) -> Answer
    ensures { result ≡ lean_answer pack.now a b }
{
    let n = names_said(pack);
    if n <= Directory::FEW {
        return lean_sized::<{ Directory::FEW_WORDS }, { Directory::FEW }>(pack, a, b);
    }
    if n <= Directory::SOME {
        return lean_sized::<{ Directory::SOME_WORDS }, { Directory::SOME }>(pack, a, b);
    }
    lean_sized::<{ Directory::WORDS }, { Directory::ALL }>(pack, a, b)
}
