//! Laws of what a receiver answers with.
ghost use Rattle.edid_laws.specs.Itself.{MergesToItself};
ghost use Rattle.edid_laws.specs.Links.{StayOnTheirLinks};
ghost use Rattle.edid_laws.specs.Products.{LabelsStandOnce};
ghost use Rattle.edid_laws.specs.Rows.{ObeyTheirRows, OwnBlocksStandOnce};

/// The data blocks of each kind in what a receiver answers with are those that its row of the table has.
pub fn blocks_obey_their_rows()
    ensures { ObeyTheirRows }
{}

/// Where the row of a kind takes the receiver's own, each of its data blocks of that kind stands once, in their order, and no other.
pub fn own_blocks_stand_once()
    ensures { OwnBlocksStandOnce }
{}

/// Where the product is the receiver's own, each of its names and serial numbers stands once, in their order, or has no place, and no
/// other stands; where one has none, no place is unused. All other descriptors of the display's stand where they stood.
pub fn own_labels_stand_once()
    ensures { LabelsStandOnce }
{}

/// What a receiver answers with to a display that has its own EDID is that EDID: the same base block, the same flags, all timings and
/// the other extensions, and the same data blocks, kind by kind, those of a kind in their order. Zeros follow the timings. So it is by
/// each table where the EDID has one block at most of each kind whose row makes one of two, and no override of its count of
/// extensions, which is not passed on.
pub fn merges_to_itself()
    ensures { MergesToItself }
{}

/// In what a receiver answers with the rule `link-clock` finds no video code, no timing and no format of DisplayID, where what the link
/// does not carry is left out.
pub fn answers_stay_on_their_links()
    ensures { StayOnTheirLinks }
{}
