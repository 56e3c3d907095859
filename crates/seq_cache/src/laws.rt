//! Laws of every list of changes. The functions do nothing: what they say is in their contracts.
ghost use Rattle.seq_cache.specs.Reads.{ChangesAreReadFirst, ReadsFollowFirstCopies, ReadsStayAtEachChange};
ghost use Rattle.seq_cache.specs.Laws.{PutChangesOneBlock, PutIsReadAtOneBlock, PutKeepsOrder, PutAddsNewBlocks, ChangedAreListed, AdmittedFits};

/// A change is seen at its block, and no other block is seen otherwise.
#[tactic(auto, using(crate::proofs::LawsHold::put_changes_one_block))]
pub fn a_change_is_seen_at_its_block_alone()
    ensures { PutChangesOneBlock }
{}

/// A change is read at its block, over any memories, and no other block is read otherwise.
#[tactic(auto, using(crate::proofs::LawsHold::put_is_read_at_one_block))]
pub fn a_change_is_read_at_its_block_alone()
    ensures { PutIsReadAtOneBlock }
{}

/// A change keeps the order of the others.
pub fn a_change_keeps_the_order()
    ensures { PutKeepsOrder }
{}

/// There is one change more exactly where the block wasn't changed before.
#[tactic(auto, using(crate::proofs::LawsHold::put_adds_new_blocks))]
pub fn a_change_of_a_new_block_adds_one()
    ensures { PutAddsNewBlocks }
{}

/// The changed blocks are those of the list.
pub fn the_changed_blocks_are_those_of_the_list()
    ensures { ChangedAreListed }
{}

/// What is true of every cache stays true with each block that it admits.
#[tactic(auto, using(crate::proofs::LawsHold::admitted_fits))]
pub fn what_is_admitted_fits()
    ensures { AdmittedFits }
{}

/// A block is read as it was changed, whatever the memories hold, and else from its first copy.
pub fn changes_are_read_first()
    ensures { ChangesAreReadFirst }
{}

/// An extent is read through a cache as before where its first copies are read as before. Where it is read from a copy, it is
/// read as the changes over that copy.
pub fn reads_follow_first_copies()
    ensures { ReadsFollowFirstCopies }
{}

/// What is read through a cache stays where another extent is written, or a word, where a memory's state is changed that serves as
/// before, and where a memory fails that isn't the primary's. After the memory of the primary fails, the changes lie over the shadow.
pub fn reads_stay_at_each_change()
    ensures { ReadsStayAtEachChange }
{}
