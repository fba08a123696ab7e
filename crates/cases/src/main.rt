// Replays a list of packs, of calls on them and of the answers that document 01 gives: Check, Rewrite, All kinds, Kinds of one
// name, Lean, the tables of direct and innermost kinds, of aliases and of entities that are unresolved, and Resolve.
// It reads the list, which tests/model/src/bin/cases makes and describes, from standard input.
#![tactic(auto)]

mod call;
mod difference;
mod list;
mod operation;
mod run;
mod totals;

// The program has no way to fail, and no other status than 0.
fn main(rt: HostRuntime) {
    run::run_list(&rt, rt.reader());
}
