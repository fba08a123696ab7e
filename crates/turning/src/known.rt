// What is known of a pack.
use directions::tables::Tables;
use inputs::inputs::Blocks;

// Its words with its tables, and its blocks.
#[derive(Clone, Copy)]
pub struct Known<'a> {
    pub tables: Tables<'a>,
    pub blocks: Blocks,
}
