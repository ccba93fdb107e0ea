//! What follows from the definitions of rows, fans and tables. The functions do nothing; their contracts are the laws.

ghost use Rattle.hd_rprim.specs.Laws.{AllBitsReadRow, AllBitsWantContents, RowsHaveBlanks, NoBitsKeepRow, NoBitsWantNothing, BitsAddUp, UnsetBitsKeepRprimParts, UnsetBitsKeepInstancerParts, UnsetBitsKeepCamera, UnsetBitsKeepMaterial, UnsetBitsWantNothing, SetBitsReadTheirGroups, SetBitsWantTheirGroups, ChangedBitsReadRow, SlotsStay, SlotsAreApart, FansHaveTwoFewer, TrianglesAreOfMesh, WrongCountsGiveNone, FacesAreAllIndices, PutRowIsThere, PuttingKeepsOthers, TakenRowIsGone, TakingKeepsOthers, PuttingKeepsOrder, TakingKeepsOrder, NumbersNameRows, NoNumberNoRow};

/// All bits of a kind read the whole row into a blank one, and want all contents of that row.
pub fn all_bits_read_the_whole_row()
    ensures row { AllBitsReadRow }
    ensures contents { AllBitsWantContents }
{}

/// A row is read of a prim exactly where its kind has a blank row, whatever the prim's values are.
pub fn rows_have_blanks()
    ensures { RowsHaveBlanks }
{}

/// With no bits a row stays as it is, and no buffers are wanted.
pub fn no_bits_read_nothing()
    ensures row { NoBitsKeepRow }
    ensures buffers { NoBitsWantNothing }
{}

/// Some bits and then others read what the bits of both read at once.
pub fn bits_add_up()
    ensures { BitsAddUp }
{}

/// Where the bit of a group is not set, its parts of the row stay, and its buffer is not wanted.
pub fn unset_bits_keep_their_parts()
    ensures rprim { UnsetBitsKeepRprimParts }
    ensures instancer { UnsetBitsKeepInstancerParts }
    ensures camera { UnsetBitsKeepCamera }
    ensures material { UnsetBitsKeepMaterial }
    ensures buffers { UnsetBitsWantNothing }
{}

/// Values outside of the groups of the bits have no effect.
pub fn set_bits_read_their_groups()
    ensures row { SetBitsReadTheirGroups }
    ensures buffers { SetBitsWantTheirGroups }
{}

/// Where the kind's other groups did not change, the old row with the parts of the bits read anew is the row of the new
/// values.
pub fn changed_bits_read_the_row()
    ensures { ChangedBitsReadRow }
{}

/// The slots of a row stay, and what is read does not depend on them.
pub fn slots_stay()
    ensures slots { SlotsStay }
    ensures apart { SlotsAreApart }
{}

/// A face of n corners is cut into n - 2 triangles. Each triangle of a mesh has the number of one of its faces, and corners
/// that are among its indices.
pub fn faces_are_fans()
    ensures two_fewer { FansHaveTwoFewer }
    ensures of_mesh { TrianglesAreOfMesh }
{}

/// The faces of a mesh, put together, are all its indices. Counts that do not take all indices give no triangles.
pub fn faces_take_all_indices()
    ensures all { FacesAreAllIndices }
    ensures wrong_counts { WrongCountsGiveNone }
{}

/// A row that was put at a path is the row of that path, and a path that was taken out has no row. Other paths keep their
/// rows, and the rows stay in order.
pub fn tables_have_what_was_put()
    ensures put { PutRowIsThere }
    ensures put_others { PuttingKeepsOthers }
    ensures put_order { PuttingKeepsOrder }
    ensures taken { TakenRowIsGone }
    ensures taken_others { TakingKeepsOthers }
    ensures taken_order { TakingKeepsOrder }
{}

/// The row with the number of a path is its row, and a path without a number has no row.
pub fn numbers_name_rows()
    ensures number { NumbersNameRows }
    ensures no_number { NoNumberNoRow }
{}
