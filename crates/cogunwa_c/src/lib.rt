// What C, and any language that calls C, links: the functions of the crate cogunwa, each under its own name and promise. They
// stand twice, since a crate is a library or what C links.
#![tactic(auto)]

ghost use Rattle.std.specs.Prelude.{◌≡◌};
ghost use Rattle.definitions.specs.Checking.{check_answer, rewrite_answer, rewrite_buffer};
ghost use Rattle.definitions.specs.Operations.{all_kinds_answer, all_kinds_buffer, kinds_of_answer, lean_answer, filter_answer, filter_buffer, resolve_answer, resolve_buffer};
ghost use Rattle.definitions.specs.declared.operation.Filter.TheVariants.{Direct, Innermost, Alias, Unresolved};
ghost use Rattle.definitions.specs.Bytes.{encode, over_bytes, Gives};

// Check.
#[unsafe(no_mangle)]
pub extern "C" fn cogunwa_check(pack: &[u8]) -> u64
    ensures { result ≡ encode (over_bytes check_answer pack.now) }
{
    cogunwa::cogunwa_check(pack)
}

// Rewrite.
#[unsafe(no_mangle)]
pub extern "C" fn cogunwa_rewrite(pack: &[u8], out: &mut [u8]) -> u64
    ensures { Gives rewrite_answer rewrite_buffer pack.now out.old result out.new }
{
    cogunwa::cogunwa_rewrite(pack, out)
}

// All kinds.
#[unsafe(no_mangle)]
pub extern "C" fn cogunwa_all_kinds(pack: &[u8], out: &mut [u8]) -> u64
    ensures { Gives all_kinds_answer all_kinds_buffer pack.now out.old result out.new }
{
    cogunwa::cogunwa_all_kinds(pack, out)
}

// Resolve.
#[unsafe(no_mangle)]
pub extern "C" fn cogunwa_resolve(pack: &[u8], out: &mut [u8]) -> u64
    ensures { Gives resolve_answer resolve_buffer pack.now out.old result out.new }
{
    cogunwa::cogunwa_resolve(pack, out)
}

// Kinds of one name.
#[unsafe(no_mangle)]
pub extern "C" fn cogunwa_kinds_of(pack: &[u8], name: u32) -> u64
    ensures { result ≡ encode (over_bytes (λ ws. kinds_of_answer ws name) pack.now) }
{
    cogunwa::cogunwa_kinds_of(pack, name)
}

// Lean.
#[unsafe(no_mangle)]
pub extern "C" fn cogunwa_lean(pack: &[u8], a: u32, b: u32) -> u64
    ensures { result ≡ encode (over_bytes (λ ws. lean_answer ws a b) pack.now) }
{
    cogunwa::cogunwa_lean(pack, a, b)
}

// Of the filtered tables, direct.
#[unsafe(no_mangle)]
pub extern "C" fn cogunwa_direct(pack: &[u8], out: &mut [u8]) -> u64
    ensures { Gives (filter_answer Direct) (filter_buffer Direct) pack.now out.old result out.new }
{
    cogunwa::cogunwa_direct(pack, out)
}

// Innermost.
#[unsafe(no_mangle)]
pub extern "C" fn cogunwa_innermost(pack: &[u8], out: &mut [u8]) -> u64
    ensures { Gives (filter_answer Innermost) (filter_buffer Innermost) pack.now out.old result out.new }
{
    cogunwa::cogunwa_innermost(pack, out)
}

// Alias.
#[unsafe(no_mangle)]
pub extern "C" fn cogunwa_alias(pack: &[u8], out: &mut [u8]) -> u64
    ensures { Gives (filter_answer Alias) (filter_buffer Alias) pack.now out.old result out.new }
{
    cogunwa::cogunwa_alias(pack, out)
}

// Unresolved.
#[unsafe(no_mangle)]
pub extern "C" fn cogunwa_unresolved(pack: &[u8], out: &mut [u8]) -> u64
    ensures { Gives (filter_answer Unresolved) (filter_buffer Unresolved) pack.now out.old result out.new }
{
    cogunwa::cogunwa_unresolved(pack, out)
}
