// The chain walk over the declarations of the directory: each name's answer is the place of the list that settles it, 0 for no kinds.
ghost use Rattle.std.specs.Prelude.{◌≡◌, ◌+◌, ◌-◌, ◌<◌, ◌≤◌, length};
ghost use Rattle.chains.specs.DirectoryWord.{Reaches, declarations_in};
ghost use Rattle.chains.specs.Mark.{number_of_mark};
ghost use Rattle.chains.specs.Settle.{Walkable, WalkedHere, Settleable, SettledAll};

use crate::entry::{Declaration, declared};

// What is known of a name: nothing, that it is on the path of the walk that is going on, or its answer. Tables of marks by name hold
// it as a number, since they stand on the stack, where words of two numbers would take twice the room.
#[derive(Clone, Copy, PartialEq, Eq)]
pub enum Mark {
    Unseen,
    OnPath,
    Settled(u32),
}

impl Mark {
    pub const UNSEEN: u32 = 0;

    pub const ON_PATH: u32 = 1;

    // A settled name's mark is this and its answer.
    pub const SETTLED: u32 = 2;

    // The answer of a settled name, 0 where none is known: as `start` and `walk`, no Option.
    pub fn answer(self) -> u32
        ensures { result ≡ number_of_mark self - 2 }
    {
        match self {
            Mark::Unseen => 0,
            Mark::OnPath => 0,
            Mark::Settled(answer) => answer,
        }
    }
}

// What a number of a table says.
impl From<u32> for Mark {
    ghost from_gives = { λ number mark. number_of_mark mark ≡ number };

    fn from(number: u32) -> Mark {
        match number {
            Mark::UNSEEN => Mark::Unseen,
            Mark::ON_PATH => Mark::OnPath,
            _ => Mark::Settled(number - Mark::SETTLED),
        }
    }
}

// The walks over a directory that has a word for each name with a mark: what is known of the names, and how many declarations were read.
#[derive(Drop)]
struct Walks<'a> {
    dir: &'a [u32],
    marks: &'a mut [u32],
    steps: u32,
    ghost reaches: { Reaches dir.now (length marks.now) },
}

impl<'a> Walks<'a> {
    ghost use Rattle.chains.specs.Walks.{Keeps, ReadBy, WalkableBy, WentAheadBy, MarkableBy, MarkedBy, WalkedBy};

    // One declaration read at a name: the only place that adds to the steps.
    #[tactic(auto, using(crate::proofs::ByName::declarations_by))]
    fn read_name(&mut self, n: usize) -> Declaration
        requires { (n < length self.old.marks.now) × (self.old.steps < 4294967295) }
        ensures reads { ReadBy self.old n result self.new }
        ensures keeps { Keeps self.old self.new }
    {
        self.steps += 1;
        declared(self.dir, n)
    }

    // Along the chain from a name, with each name marked as on the path, up to one whose answer is known: that answer. A name on the
    // path is a ring.
    fn ahead(&mut self, start: usize, fuel: u32) -> u32
        requires { WalkableBy self.old start fuel }
        ensures goes { WentAheadBy self.old start fuel result self.new }
        ensures keeps { Keeps self.old self.new }
    {
        let mut n = start;
        for _ in 0..fuel {
            match Mark::from(self.marks[n]) {
                Mark::Settled(answer) => return answer,
                Mark::OnPath => return 0,
                Mark::Unseen => self.marks[n] = Mark::ON_PATH,
            }
            match self.read_name(n) {
                Declaration::NoKinds => return 0,
                Declaration::At(place) => return place,
                Declaration::Leads(name) => n = name as usize,
            }
        }
        0
    }

    // So many names along the chain from a name get a mark.
    fn mark_path(&mut self, start: usize, count: u32, mark: u32)
        requires { MarkableBy self.old start }
        ensures marks { MarkedBy self.old mark count start self.new }
        ensures keeps { Keeps self.old self.new }
    {
        let mut n = start;
        for _ in 0..count {
            self.marks[n] = mark;
            n = declared(self.dir, n).next_name();
        }
    }

    // The walk from a name: its answer, which settles each name of its path.
    fn walk(&mut self, n: usize, fuel: u32) -> u32
        requires { WalkableBy self.old n fuel }
        ensures walks { WalkedBy self.old n fuel result self.new }
        ensures keeps { Keeps self.old self.new }
    {
        let before = self.steps;
        let r = self.ahead(n, fuel);
        self.mark_path(n, self.steps - before, Mark::SETTLED + r);
        r
    }
}

// The same by a directory and marks that are lent. The answer is a place, 0 for none, and no Option: so a mark and an answer of an
// operation hold it. No loop over names holds the walks, since whoever lends the marks reads them afterwards.
pub fn walk(dir: &[u32], marks: &mut [u32], steps: &mut u32, n: usize, fuel: u32) -> u32
    requires { Walkable (declarations_in dir.now) marks.old steps.old n fuel × Reaches dir.now (length marks.old) }
    ensures { WalkedHere (declarations_in dir.now) marks.old steps.old n fuel result marks.new steps.new }
{
    let mut walks = Walks {
        dir,
        marks,
        steps: *steps,
    };
    let answer = walks.walk(n, fuel);
    *steps = walks.steps;
    answer
}

// The walks from the names of relations in record order: the number of declarations read.
pub fn settle_all(dir: &[u32], names: &[u32], marks: &mut [u32]) -> u32
    requires { (length names.now ≤ 512) × Settleable (declarations_in dir.now) marks.old names.now 0 (length names.now + 1) × Reaches dir.now (length marks.old) }
    ensures { SettledAll (declarations_in dir.now) marks.old names.now 0 (length names.now + 1) marks.new result }
{
    let fuel = names.len() as u32 + 1;
    let mut steps: u32 = 0;
    for &name in names {
        walk(dir, marks, &mut steps, name as usize, fuel);
    }
    steps
}
