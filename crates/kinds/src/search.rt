// The search along edges: from a relation to its source (12) and to the relations that the steps of its path name (14), read at its
// record. Each name that is reached is marked and queued once, and so entered once.
ghost use Rattle.std.specs.Prelude.{◌≡◌, ◌<◌, ◌≤◌, false, length, get_or, [], ◌∷◌};
ghost use Rattle.chains.specs.Record.{path_in};
ghost use Rattle.kinds.specs.Edges.{edges_in, edges_by};
ghost use Rattle.kinds.specs.Search.{Search as Searched, QueueHasRoom, NextTaken, Reachable, Searchable, Computes, searched, reached, reached_all};
ghost use Rattle.definitions.specs.Lean.{source_name};

use chains::entry::start;
use chains::record::{RecordPlace, value_at};
use pack::kinds::Pack;
use std::marker::Model;

// Marks by name say which names are reached. The queue has them in the order in which they were, as many as `count`, and room for all
// others; the first ones, as many as `entered`, are entered.
// The queue is a slice with a count and no ArrayVec, whose push can fail for want of room: here none can, as the invariant says.
#[derive(Drop)]
struct Search<'a> {
    marks: &'a mut [bool],
    queue: &'a mut [u32],
    count: usize,
    entered: usize,
}

impl<'a> Model for Search<'a> {
    ghost Value = { Searched };

    ghost view = { λ s. searched s.marks.now s.queue.now s.count s.entered };

    ghost invariant = { λ s. QueueHasRoom (searched s.marks.now s.queue.now s.count s.entered) };
}

impl<'a> Search<'a> {
    fn has_reached(&self, name: usize) -> bool
        requires { name < length self.now.marks }
        ensures { result ≡ get_or self.now.marks name false }
    {
        self.marks[name]
    }

    // The next name to enter, if one is left.
    fn take_next(&mut self) -> Option<usize>
        ensures { NextTaken self.old result self.new }
    {
        if self.count <= self.entered {
            return None;
        }
        let name = self.queue[self.entered] as usize;
        self.entered += 1;
        Some(name)
    }

    // A name is reached.
    fn reach(&mut self, name: u32)
        requires { Reachable (name ∷ []) self.old }
        ensures { self.new ≡ reached name self.old }
    {
        let n = name as usize;
        if !self.marks[n] {
            self.marks[n] = true;
            self.queue[self.count] = name;
            self.count += 1;
        }
    }

    // A source is reached, if it is a name.
    #[tactic(auto, using(crate::proofs::SearchLaws::no_source, crate::proofs::SearchLaws::a_source))]
    fn reach_source(&mut self, source: u32)
        requires { Reachable (source_name source) self.old }
        ensures { self.new ≡ reached_all (source_name source) self.old }
    {
        if source != Pack::NONE {
            self.reach(source);
        }
    }

    // The relations that the steps of a path name are reached, by the place of its count (13).
    fn reach_path(&mut self, pack: &[u32], at: usize)
        requires { (at ≤ 33554432) × Reachable (path_in pack.now at) self.old }
        ensures { self.new ≡ reached_all (path_in pack.now at) self.old }
    {
        let steps = value_at(pack, at);
        if steps == Pack::NONE {
            return;
        }
        for k in 0..steps as usize {
            self.reach(value_at(pack, at + 1 + 3 * k));
        }
    }

    // All names to which the relation leads whose record starts at a place are reached. At 0 there is none: it is 0 and no Option, as
    // the directory's table of places has 0 for a name that no relation has.
    fn enter(&mut self, pack: &[u32], place: RecordPlace)
        requires { Reachable (edges_in pack.now place.at) self.old }
        ensures { self.new ≡ reached_all (edges_in pack.now place.at) self.old }
    {
        if place.at == 0 {
            return;
        }
        if !place.has_derivation(pack) {
            return;
        }
        let at = place.at + 4 + place.kind_count(pack);
        self.reach_source(value_at(pack, at + 1));
        self.reach_path(pack, at + 2);
    }
}

// Whether one or more edges lead from a name to another. An undeclared name leads to none, and others may lead to it.
pub fn leads(
    pack: &[u32],
    dir: &[u32],
    a: usize,
    b: usize,
    marks: &mut [bool],
    queue: &mut [u32],
) -> bool
    requires { Searchable pack.now dir.now a b marks.old queue.old }
    ensures { Computes result (edges_by pack.now dir.now) a b }
{
    if start(dir, a) == 0 {
        return false;
    }
    let mut search = Search {
        marks,
        queue,
        count: 0,
        entered: 0,
    };
    search.enter(pack, RecordPlace { at: start(dir, a) });
    while !search.has_reached(b) {
        let Some(n) = search.take_next() else {
            return false;
        };
        search.enter(pack, RecordPlace { at: start(dir, n) });
    }
    true
}
