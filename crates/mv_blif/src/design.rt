use mv_base::Items;
use mv_design::Design;
use mv_latch::BlifLatch;

/// What a BLIF file says: a design of one model, and of each of its latches in order when it takes its input, what controls
/// it, and how it begins.
#[derive(Drop)]
pub struct BlifDesign {
    pub design: Design,
    pub latches: Items<BlifLatch>,
}
