// A checked pack with its tables.
ghost use Rattle.std.specs.Prelude.{◌≡◌, ◌+◌, ◌<◌, ◌≤◌};
ghost use Rattle.chains.specs.Record.{value_at};
ghost use Rattle.resolve.specs.Finish.{FiguresSaid};

use chains::record::value_at;
use directions::tables::Tables;
use inputs::inputs::Blocks;
use pack::kinds::Pack;
use records::directory::Layout;

// How many pieces are neither relations nor rules nor blocks, how many small packs have, and how many there are at most.
#[derive(Clone, Copy)]
pub struct Places {}

impl Places {
    pub const OTHERS: usize = 3;

    pub const FEW: usize = 128;

    pub const MOST: usize = Places::OTHERS
        + (Pack::MOST_RELATIONS + Pack::MOST_RULES + Pack::MOST_BLOCKS) as usize;
}

// Of a checked pack: where its records stand, its blocks, and how many declarations were read for its kinds; and how many words there
// is room for.
#[derive(Clone, Copy)]
pub struct Figures {
    pub layout: Layout,
    pub blocks: Blocks,
    pub steps: u32,
    pub room: usize,
}

// The words and the tables of a pack, its directory, and its figures.
#[derive(Clone, Copy)]
pub struct Checked<'a> {
    pub tables: Tables<'a>,
    pub dir: &'a [u32],
    pub figures: Figures,
}

impl Figures {
    // As the layout of a pack says.
    pub fn of(pack: &[u32], layout: Layout, steps: u32, room: usize) -> Figures
        requires { (layout.blocks < 8192) × (value_at pack.now layout.blocks ≤ 64) }
        ensures { FiguresSaid pack.now layout steps room result }
    {
        let blocks = Blocks {
            at: layout.blocks + 1,
            count: value_at(pack, layout.blocks) as usize,
        };
        Figures {
            layout,
            blocks,
            steps,
            room,
        }
    }
}

impl Checked<'_> {
    // How many pieces the pack has.
    pub fn pieces(&self) -> usize
        requires { self.now.figures.layout.relations ≤ 512 }
        ensures { result ≡ self.now.figures.layout.relations + value_at self.now.tables.pack.now self.now.figures.layout.rules + self.now.figures.blocks.count + 3 }
    {
        let layout = self.figures.layout;
        layout.relations as usize
            + value_at(self.tables.pack, layout.rules) as usize
            + self.figures.blocks.count
            + Places::OTHERS
    }
}
