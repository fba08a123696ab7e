// The host's functions: a pack and an output as bytes, each answer as one number. The crate cogunwa_c exports them to C.
#![tactic(auto)]

ghost use Rattle.std.specs.Prelude.{◌≡◌};
ghost use Rattle.definitions.specs.Checking.{check_answer, rewrite_answer, rewrite_buffer};
ghost use Rattle.definitions.specs.Operations.{all_kinds_answer, all_kinds_buffer, kinds_of_answer, lean_answer, filter_answer, filter_buffer, resolve_answer, resolve_buffer};
ghost use Rattle.definitions.specs.declared.operation.Filter.TheVariants.{Direct, Innermost, Alias, Unresolved};
ghost use Rattle.definitions.specs.Bytes.{encode, over_bytes, Gives};

use definitions::operation::{Filter, Question, Writing};
use over_bytes::operations::{ask, write};

// Check.
pub fn cogunwa_check(pack: &[u8]) -> u64
    ensures { result ≡ encode (over_bytes check_answer pack.now) }
{
    ask(Question::Check, pack)
}

// Rewrite.
pub fn cogunwa_rewrite(pack: &[u8], out: &mut [u8]) -> u64
    ensures { Gives rewrite_answer rewrite_buffer pack.now out.old result out.new }
{
    write(Writing::Rewrite, pack, out)
}

// All kinds.
pub fn cogunwa_all_kinds(pack: &[u8], out: &mut [u8]) -> u64
    ensures { Gives all_kinds_answer all_kinds_buffer pack.now out.old result out.new }
{
    write(Writing::AllKinds, pack, out)
}

// Resolve.
pub fn cogunwa_resolve(pack: &[u8], out: &mut [u8]) -> u64
    ensures { Gives resolve_answer resolve_buffer pack.now out.old result out.new }
{
    write(Writing::Resolve, pack, out)
}

// Kinds of one name.
pub fn cogunwa_kinds_of(pack: &[u8], name: u32) -> u64
    ensures { result ≡ encode (over_bytes (λ ws. kinds_of_answer ws name) pack.now) }
{
    ask(Question::KindsOf(name), pack)
}

// Lean.
pub fn cogunwa_lean(pack: &[u8], a: u32, b: u32) -> u64
    ensures { result ≡ encode (over_bytes (λ ws. lean_answer ws a b) pack.now) }
{
    ask(Question::Lean(a, b), pack)
}

// Of the filtered tables, direct.
pub fn cogunwa_direct(pack: &[u8], out: &mut [u8]) -> u64
    ensures { Gives (filter_answer Direct) (filter_buffer Direct) pack.now out.old result out.new }
{
    write(Writing::Filtered(Filter::Direct), pack, out)
}

// Innermost.
pub fn cogunwa_innermost(pack: &[u8], out: &mut [u8]) -> u64
    ensures { Gives (filter_answer Innermost) (filter_buffer Innermost) pack.now out.old result out.new }
{
    write(Writing::Filtered(Filter::Innermost), pack, out)
}

// Alias.
pub fn cogunwa_alias(pack: &[u8], out: &mut [u8]) -> u64
    ensures { Gives (filter_answer Alias) (filter_buffer Alias) pack.now out.old result out.new }
{
    write(Writing::Filtered(Filter::Alias), pack, out)
}

// Unresolved.
pub fn cogunwa_unresolved(pack: &[u8], out: &mut [u8]) -> u64
    ensures { Gives (filter_answer Unresolved) (filter_buffer Unresolved) pack.now out.old result out.new }
{
    write(Writing::Filtered(Filter::Unresolved), pack, out)
}
