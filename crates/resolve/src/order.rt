// Where the pieces of a pack begin, in word order: what stands before the relations, each relation, the count of rules, each
// rule, the count of blocks, each block.
ghost use Rattle.std.specs.Prelude.{length};
ghost use Rattle.resolve.specs.Finish.{HaveWords, order_in, RulesAsked, RulesCame, block_places, OrderAsked, OrderCame};
ghost use Rattle.resolve.specs.Writing.{HasRoom, Writes};

use crate::checked::Checked;
use crate::writer::Writer;
use chains::entry::start;
use inputs::inputs::{Block, Blocks};
use pack::kinds::Pack;

// The relations of these names, as the directory says.
fn order_relations(dir: &[u32], names: &[u32], places: &mut Writer)
    requires { HaveWords dir.now names.now × HasRoom places.old (order_in dir.now names.now) }
    ensures { Writes places.old (order_in dir.now names.now) places.new }
{
    for &name in names {
        places.put_word(start(dir, name as usize) as u32);
    }
}

// The rules, from their notes: those that stand inside no other. Notes are told by their number, which is their index, so none are cut off.
fn order_rules(notes: &[u32], from: usize, all: usize, places: &mut Writer)
    requires { RulesAsked notes.now from all places.old }
    ensures { RulesCame notes.now from all places.old places.new }
{
    for &note in &notes[from..=all] {
        if note / Pack::INSIDE == 0 {
            places.put_word(note % Pack::LOST - 1);
        }
    }
}

// The blocks, one after the other. That each tells where the next one begins is all that this loop shares with the one that looks for an
// input: an iterator for both would take a struct, its impl and its laws, which is more than the loops are.
fn order_blocks(pack: &[u32], blocks: Blocks, places: &mut Writer)
    requires { HasRoom places.old (block_places pack.now blocks.at blocks.count) }
    ensures { Writes places.old (block_places pack.now blocks.at blocks.count) places.new }
{
    let mut at = blocks.at;
    for _ in 0..blocks.count {
        places.put_word(at as u32);
        let block = Block { at };
        at = block.after(pack);
    }
}

// All pieces, from the directory and the notes of a pack; one word for each.
pub fn order(checked: &Checked, notes: &[u32], places: &mut [u32])
    requires { OrderAsked checked.now.tables.pack.now checked.now.dir.now notes.now checked.now.figures (length places.old) }
    ensures { OrderCame checked.now.tables.pack.now checked.now.dir.now notes.now checked.now.figures (length places.old) places.new }
{
    let layout = checked.figures.layout;
    let blocks = checked.figures.blocks;
    let mut places = Writer::new(places);
    places.put_word(0);
    order_relations(
        checked.dir,
        &checked.dir[..layout.relations as usize],
        &mut places,
    );
    places.put_word(layout.rules as u32);
    order_rules(
        notes,
        layout.noted as usize + 1,
        layout.all as usize,
        &mut places,
    );
    places.put_word((blocks.at - 1) as u32);
    order_blocks(checked.tables.pack, blocks, &mut places);
}
