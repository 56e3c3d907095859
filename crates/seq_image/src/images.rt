// What the image of a flat state is and gives, over every description and every flat state that a run reaches.
ghost use Rattle.seq_image.specs.Areas.{AlikeIsOneView, ImageIsOfTheArea, ImageIsWhole, AgreeByOwners, CopiesByPlaces, CopiesAreWhole};
ghost use Rattle.seq_image.specs.Flushing.{FlushMakesImage, ReadsOverFirst, OwnBlocksHavePlaces, FlushStaysInside, PassesMakeImage, WritingLaysOver, WhatIsLeftStays};
ghost use Rattle.seq_image.specs.Starting.{ImageIsTakenUp};
ghost use Rattle.seq_image.specs.Begun.{StartHasImage};

/// Blocks are alike in the extents of a mask exactly where what is left of them in it is one.
pub fn alike_is_one_view()
    ensures { AlikeIsOneView }
{}

/// The image in the area of a process depends on that process, its lines, the segments of the area and what it owns alone.
pub fn image_is_of_the_area()
    ensures { ImageIsOfTheArea }
{}

/// Every block of an image has its 32 bytes.
pub fn image_is_whole()
    ensures { ImageIsWhole }
{}

/// A process that is taken up from the image of a flat state shows that state, within the bounds of a running process.
pub fn image_is_taken_up()
    ensures { ImageIsTakenUp }
{}

/// The units of a flush, over the image of the state at the last checkpoint, make the image of the state that the
/// process shows. They are apart, and none is outside the area of the process; so a pass over the copies of either kind that hold
/// the one image leaves copies that hold the other.
pub fn a_flush_makes_the_image()
    ensures image { FlushMakesImage }
    ensures reads { ReadsOverFirst }
    ensures units { FlushStaysInside }
    ensures passes { PassesMakeImage }
{}

/// Where the changes are blocks of a process's own, all that its flush writes has places.
pub fn own_blocks_have_places()
    ensures { OwnBlocksHavePlaces }
{}

/// Units that are apart, written to the copies of one kind, lie over what those that are in service held. What the copies of an area will hold once what is left is written, stays whatever happens elsewhere.
pub fn units_lie_over()
    ensures over { WritingLaysOver }
    ensures stays { WhatIsLeftStays }
{}

/// The image of the flat start has the contexts, images and first bytes of the description, and zeros elsewhere.
pub fn start_has_image()
    ensures { StartHasImage }
{}

/// Flat states agree on an area that has all that the process owns where they do on what stands in it. Copies that memories hold
/// are those of an image where they are so at its places, and whole where the memories' blocks are.
pub fn areas_and_copies()
    ensures agree { AgreeByOwners }
    ensures places { CopiesByPlaces }
    ensures whole { CopiesAreWhole }
{}
